//! The sources of a project, by what a reading asks of them.
ghost use Rattle.std.specs.Prelude.{◌≡◌, ◌++◌, ◌∷◌, [], None, IsTrue, IfOk, OnOk};
ghost use Rattle.std.specs.Option.{option_copied};
ghost use Rattle.std.specs.BTreeMap.{get};
ghost use Rattle.std.specs.BTreeSet.{contains};
ghost use Rattle.std.specs.FinMap as finite;
ghost use Rattle.std.specs.Map.{keys_of};
ghost use Rattle.tup_path.specs.Name.{Names};
ghost use Rattle.tup_path.specs.Order.{by_names};
ghost use Rattle.tup_readings.specs.Sources as specs;
ghost use Rattle.tup_readings.specs.Index.{AreFolders, AreTupfiles, AddsFile, AddsFolders, AddsName, AddsTupfile};

use crate::parted::parted;
use std::alloc::{AllocError, Global};
use std::collections::{BTreeMap, BTreeSet};
use std::marker::Model;
use tup_path::{Bytes, Files, Path, Text};

/// The names of the files in each folder.
type Folders = BTreeMap<Path, BTreeSet<Text>>;

/// The sources of a project. Contracts see the tree.
#[derive(Drop)]
pub struct Sources<'f> {
    /// The files in the order of their paths.
    files: &'f [(Path, Bytes)],
    /// Each folder that has a file below it, with the names of the files in it.
    folders: Folders,
    /// The folders that have a Tupfile.
    tupfiles: BTreeSet<Path>,
}

impl<'f> Model for Sources<'f> {
    ghost use Rattle.std.specs.Prelude.{List, ℕ, IsTrue};
    ghost use Rattle.std.specs.Coded.{coded_ℕ, coded_list};
    ghost use Rattle.std.specs.FinMap as finite;
    ghost use Rattle.std.specs.Map.{keys_of};
    ghost use Rattle.tup_path.specs.Order.{by_names};
    ghost use Rattle.tup_readings.specs.Index.{AreFolders, AreTupfiles};

    ghost Value = { finite.FinMap by_names (List ℕ) };

    ghost coded = { finite.code (coded_list (coded_list coded_ℕ)) (coded_list coded_ℕ) };

    ghost view = { λ s. finite.from_sorted s.files.now };

    ghost invariant = { λ s. IsTrue (finite.is_sorted by_names s.files.now)
        × AreFolders (keys_of s.files.now) s.folders
        × AreTupfiles (keys_of s.files.now) s.tupfiles };
}

impl<'f> Sources<'f> {
    /// The sources that these files are, which stand in the order of their paths.
    pub fn new(alloc: Global, files: &'f Files) -> Result<Sources<'f>, AllocError>
        requires { IsTrue (finite.is_sorted by_names files.now) }
        ensures { IfOk result (λ sources. sources ≡ finite.from_sorted files.now) }
    {
        let files = files.as_slice();
        let (folders, tupfiles) = index(alloc, files)?;
        Ok(Sources {
            files,
            folders,
            tupfiles,
        })
    }

    /// What the file at a path holds, where there is one.
    pub(crate) fn content(&self, path: &Path) -> Option<&Bytes>
        ensures { option_copied result ≡ finite.get self.now path.now }
    {
        match self.files.binary_search_by(|file| file.0.cmp(path)) {
            Ok(place) => Some(&self.files[place].1),
            Err(_) => None,
        }
    }

    /// Whether a file is below a folder.
    pub(crate) fn is_folder(&self, dir: &Path) -> bool
        ensures { result ≡ specs.has_below (finite.keys self.now) dir.now }
    {
        self.folders.contains_key(dir)
    }

    /// The names of the files in a folder.
    pub(crate) fn names(&self, alloc: Global, dir: &Path) -> Result<BTreeSet<Text>, AllocError>
        ensures { IfOk result (λ names. names.keys
            ≡ specs.names_in_folder (finite.keys self.now) dir.now) }
    {
        match self.folders.get(dir) {
            Some(names) => names.clone(),
            None => Ok(BTreeSet::new(alloc)),
        }
    }

    /// Whether a folder has a Tupfile.
    pub fn has_tupfile(&self, dir: &Path) -> bool
        ensures { result ≡ specs.is_source self.now (specs.tupfile dir.now) }
    {
        self.tupfiles.contains(dir)
    }

    /// The home of a folder: the nearest folder at or above it that has a Tupfile.
    pub fn home(&self, alloc: Global, dir: &Path) -> Result<Option<&Path>, AllocError>
        ensures { IfOk result (λ home. option_copied home ≡ specs.home self.now dir.now) }
    {
        if let Some(home) = self.tupfiles.get(dir) {
            return Ok(Some(home));
        }
        match dir.parent(alloc) {
            Ok(Some(up)) => self.home(alloc, &up),
            Ok(None) => Ok(None),
            Err(_) => Err(AllocError),
        }
    }

    /// The folders that have a Tupfile.
    pub(crate) fn tupfiles(&self) -> Result<BTreeSet<Path>, AllocError>
        ensures { IfOk result (λ dirs. (dir : Names)
            → contains by_names dirs dir ≡ specs.is_source self.now (specs.tupfile dir)) }
    {
        self.tupfiles.clone()
    }
}

/// The folders above files, with the names of the files in each, and those in which a Tupfile is among them.
fn index(alloc: Global, files: &[(Path, Bytes)]) -> Result<(Folders, BTreeSet<Path>), AllocError>
    ensures folders { IfOk result (λ index. AreFolders (keys_of files.now) index.0) }
    ensures tupfiles { IfOk result (λ index. AreTupfiles (keys_of files.now) index.1) }
{
    let mut folders = BTreeMap::new(alloc);
    let mut tupfiles = BTreeSet::new(alloc);
    for (path, _) in files {
        add_file(alloc, &mut folders, &mut tupfiles, path)?;
    }
    Ok((folders, tupfiles))
}

/// Adds a file to the folders above it, and its own folder to those that have a Tupfile, if it is one.
fn add_file(
    alloc: Global,
    folders: &mut Folders,
    tupfiles: &mut BTreeSet<Path>,
    path: &Path,
) -> Result<(), AllocError>
    ensures folders { OnOk result (AddsFile path.now folders.old folders.new) }
    ensures tupfiles { OnOk result (AddsTupfile path.now tupfiles.old tupfiles.new) }
{
    let Some((dir, name)) = parted(alloc, path)? else {
        return Ok(());
    };
    add_tupfile(tupfiles, &dir, &name)?;
    add_name(alloc, folders, dir, name)
}

/// Adds all folders above a path that aren't there.
fn add_folders(alloc: Global, folders: &mut Folders, path: &Path) -> Result<(), AllocError>
    ensures { OnOk result (AddsFolders path.now folders.old folders.new) }
{
    let Some((dir, _)) = parted(alloc, path)? else {
        return Ok(());
    };
    add_folders(alloc, folders, &dir)?;
    if !folders.contains_key(&dir) {
        folders.insert(dir, BTreeSet::new(alloc))?;
    }
    Ok(())
}

/// Adds a folder, if the file of this name in it is a Tupfile.
fn add_tupfile(dirs: &mut BTreeSet<Path>, dir: &Path, name: &Text) -> Result<(), AllocError>
    ensures { OnOk result ((path : Names) → path ≡ dir.now ++ name.now ∷ []
        → AddsTupfile path dirs.old dirs.new) }
{
    if name.as_str() == "Tupfile" {
        dirs.insert(dir.clone()?)?;
    }
    Ok(())
}

/// Adds a name to those of a folder. Where the folder isn't there it is added, with all folders above it.
fn add_name(alloc: Global, folders: &mut Folders, dir: Path, name: Text) -> Result<(), AllocError>
    ensures { OnOk result (AddsFile (dir ++ name ∷ []) folders.old folders.new) }
{
    let Some(names) = folders.get_mut(&dir) else {
        return begin(alloc, folders, dir, name);
    };
    names.insert(name)?;
    Ok(())
}

/// Adds a folder that isn't there, with one name, and all folders above it that aren't there.
fn begin(alloc: Global, folders: &mut Folders, dir: Path, name: Text) -> Result<(), AllocError>
    requires { get by_names folders.old dir ≡ None }
    ensures { OnOk result (AddsFile (dir ++ name ∷ []) folders.old folders.new) }
{
    add_folders(alloc, folders, &dir)?;
    begin_names(alloc, folders, dir, name)
}

/// Adds a folder that isn't there, with one name.
fn begin_names(
    alloc: Global,
    folders: &mut Folders,
    dir: Path,
    name: Text,
) -> Result<(), AllocError>
    requires { get by_names folders.old dir ≡ None }
    ensures { OnOk result (AddsName dir name folders.old folders.new) }
{
    let mut names = BTreeSet::new(alloc);
    names.insert(name)?;
    folders.insert(dir, names)?;
    Ok(())
}
