//! The sources by their folders.
ghost use Rattle.std.specs.Prelude.{◌≡◌, ◌≢◌, ◌++◌, ◌∷◌, [], ℕ, List, Some, IfOk, IfErr, IfSome, OnOk, codes};
ghost use Rattle.std.specs.Option.{option_copied};
ghost use Rattle.tup_path.specs.Name.{Names};
ghost use Rattle.tup_path.specs.Order.{by_names};
ghost use Rattle.tup_path.specs.Tree.{IsBelow};
ghost use Rattle.tup_closure.specs.Grows.{Grows};
ghost use Rattle.tup_graph.specs.Answers.{IsSource};
ghost use Rattle.tup_graph.specs.Graph.{is_owned, source};
ghost use Rattle.tup_closure.specs.Lists.{IsListed, last_of};
ghost use Rattle.tup_scan_diff.specs.Sets.{Has};
ghost use Rattle.tup_scan_diff.specs.Index.{AddsFile, HasLast, HasTupfile, IsAddedIf, IsBeside, IsClosed, IsIndexOf, IsLastOf, IsParted, IsSourceAmong};

use std::alloc::Global;
use std::collections::BTreeSet;
use tup_closure::Lists;
use tup_graph::{GraphFault, Nodes, Owners};
use tup_path::{Path, Text};
use tup_stamp::Stamp;

/// The sources by their folders.
#[derive(Drop)]
pub(crate) struct Index {
    /// For each folder the names of the files in it.
    pub(crate) names: Lists<Text>,
    /// The folders that have a Tupfile.
    pub(crate) tupfiles: BTreeSet<Path>,
    /// The folders that have a file below them, at whatever depth.
    pub(crate) folders: BTreeSet<Path>,
}

impl Index {
    /// The sources among some files: those that the graph doesn't own.
    pub(crate) fn new(
        alloc: Global,
        nodes: &Nodes,
        files: &[(Path, Stamp)],
    ) -> Result<Index, GraphFault>
        ensures index { IfOk result (IsIndexOf (IsSourceAmong nodes.now files.now)) }
        ensures memory { IfErr result (λ fault. fault ≡ GraphFault.Memory) }
    {
        let mut owners = nodes.owners();
        let mut index = Index::empty(alloc);
        for (path, _) in files {
            index.add_source(alloc, &mut owners, path)?;
        }
        Ok(index)
    }

    /// The sources that a graph has seen.
    pub(crate) fn seen(alloc: Global, nodes: &Nodes) -> Result<Index, GraphFault>
        ensures index { IfOk result (IsIndexOf (IsSource (source nodes.now))) }
        ensures memory { IfErr result (λ fault. fault ≡ GraphFault.Memory) }
    {
        let mut owners = nodes.owners();
        let mut index = Index::empty(alloc);
        for (file, _) in nodes.files() {
            index.add_source(alloc, &mut owners, file)?;
        }
        Ok(index)
    }

    /// No files.
    fn empty(alloc: Global) -> Index
        ensures index { IsIndexOf (λ path. ⊥) result }
        ensures known { HasLast result }
    {
        Index {
            names: Lists::new(alloc),
            tupfiles: BTreeSet::new(alloc),
            folders: BTreeSet::new(alloc),
        }
    }

    /// Adds a file, if it is a source.
    fn add_source(
        &mut self,
        alloc: Global,
        owners: &mut Owners<'_>,
        path: &Path,
    ) -> Result<(), GraphFault>
        requires closed { IsClosed self.old.folders }
        requires known { HasLast self.old }
        ensures added { OnOk result (IsAddedIf (is_owned owners.old path.now) path.now
            self.old self.new) }
        ensures known { OnOk result (HasLast self.new) }
        ensures same { owners.new ≡ owners.old }
        ensures memory { IfErr result (λ fault. fault ≡ GraphFault.Memory) }
    {
        if owners.owns(path) {
            return Ok(());
        }
        self.add(alloc, path)
    }

    /// Adds a file. Where it stands in the folder of the one before it, nothing is looked up.
    fn add(&mut self, alloc: Global, path: &Path) -> Result<(), GraphFault>
        requires closed { IsClosed self.old.folders }
        requires known { HasLast self.old }
        ensures added { OnOk result (AddsFile path.now self.old self.new) }
        ensures known { OnOk result (HasLast self.new) }
        ensures memory { IfErr result (λ fault. fault ≡ GraphFault.Memory) }
    {
        match self.name_beside(path) {
            Some(name) => self.names.add_to_last(name.clone()?),
            None => self.add_anew(alloc, path),
        }
    }

    /// The name of a file that stands in the folder of the one that was added last, unless it is a Tupfile.
    fn name_beside<'p>(&self, path: &'p Path) -> Option<&'p Text>
        ensures { IfSome (option_copied result) (IsBeside self.now path.now) }
    {
        match self.names.last() {
            Some(last) => beside(last, path),
            None => None,
        }
    }

    /// Adds a file, whose folder is looked up.
    fn add_anew(&mut self, alloc: Global, path: &Path) -> Result<(), GraphFault>
        requires { IsClosed self.old.folders }
        ensures added { OnOk result (AddsFile path.now self.old self.new) }
        ensures known { HasLast self.old → OnOk result (HasLast self.new) }
        ensures memory { IfErr result (λ fault. fault ≡ GraphFault.Memory) }
    {
        let Some((dir, name)) = parted(alloc, path)? else {
            return Ok(());
        };
        add_folder(alloc, &mut self.folders, &dir)?;
        self.add_name(alloc, dir, name)?;
        Ok(())
    }

    /// Adds a name to a folder.
    fn add_name(&mut self, alloc: Global, dir: Path, name: Text) -> Result<(), GraphFault>
        ensures folders { OnOk result (self.new.folders ≡ self.old.folders) }
        ensures names { OnOk result (Grows (λ place. place ≡ (dir, name))
            (IsListed self.old.names) (IsListed self.new.names)) }
        ensures tupfiles { OnOk result (Grows (λ folder. (folder ≡ dir) × (name ≡ codes "Tupfile"))
            (HasTupfile self.old) (HasTupfile self.new)) }
        ensures last { OnOk result (last_of self.new.names ≡ Some dir) }
        ensures memory { IfErr result (λ fault. fault ≡ GraphFault.Memory) }
    {
        let is_tupfile = name.as_str() == "Tupfile";
        self.names.add(alloc, &dir, name)?;
        if is_tupfile {
            self.tupfiles.insert(dir)?;
        }
        Ok(())
    }
}

/// The name of a path that stands in a folder, unless it is a Tupfile.
fn beside<'p>(dir: &Path, path: &'p Path) -> Option<&'p Text>
    ensures { IfSome (option_copied result) (λ name. (path.now ≡ dir.now ++ name ∷ [])
        × (name ≢ codes "Tupfile")) }
{
    let Some(name) = name_in(dir, path) else {
        return None;
    };
    if name.as_str() == "Tupfile" {
        return None;
    }
    Some(name)
}

/// The name of a path that stands in a folder.
pub(crate) fn name_in<'p>(dir: &Path, path: &'p Path) -> Option<&'p Text>
    ensures { IfSome (option_copied result) (λ name. path.now ≡ dir.now ++ name ∷ []) }
{
    let Some((name, folder)) = path.names().split_last() else {
        return None;
    };
    if folder != dir.names() {
        return None;
    }
    Some(name)
}

/// Adds a folder, and all folders above it. Where it is there, all are.
fn add_folder(alloc: Global, folders: &mut BTreeSet<Path>, dir: &Path) -> Result<(), GraphFault>
    requires { IsClosed folders.old }
    ensures added { OnOk result ((path : Names) (name : List ℕ) → path ≡ dir.now ++ name ∷ []
        → Grows (λ folder. IsBelow folder path)
        (Has by_names folders.old) (Has by_names folders.new)) }
    ensures there { OnOk result (Has by_names folders.new dir.now) }
    ensures memory { IfErr result (λ fault. fault ≡ GraphFault.Memory) }
{
    if folders.contains(dir) {
        return Ok(());
    }
    add_above(alloc, folders, dir)?;
    folders.insert(dir.clone()?)?;
    Ok(())
}

/// Adds all folders above a path. Where its own folder is there, all are.
fn add_above(alloc: Global, folders: &mut BTreeSet<Path>, path: &Path) -> Result<(), GraphFault>
    requires { IsClosed folders.old }
    ensures added { OnOk result (Grows (λ dir. IsBelow dir path.now)
        (Has by_names folders.old) (Has by_names folders.new)) }
    ensures memory { IfErr result (λ fault. fault ≡ GraphFault.Memory) }
{
    let Some((dir, _)) = parted(alloc, path)? else {
        return Ok(());
    };
    if folders.contains(&dir) {
        return Ok(());
    }
    add_above(alloc, folders, &dir)?;
    folders.insert(dir)?;
    Ok(())
}

/// The folder of a path, and its name there; none for the top.
pub(crate) fn parted(alloc: Global, path: &Path) -> Result<Option<(Path, Text)>, GraphFault>
    ensures parted { IfOk result (IsParted path.now) }
    ensures memory { IfErr result (λ fault. fault ≡ GraphFault.Memory) }
{
    let Some(name) = path.names().last() else {
        return Ok(None);
    };
    with_parent(alloc, path, name.clone()?)
}

/// The folder of a path that isn't the top, and its last name, which is given.
fn with_parent(alloc: Global, path: &Path, name: Text) -> Result<Option<(Path, Text)>, GraphFault>
    requires { IsLastOf path.now name }
    ensures parted { IfOk result (IsParted path.now) }
    ensures memory { IfErr result (λ fault. fault ≡ GraphFault.Memory) }
{
    match path.parent(alloc) {
        Ok(Some(dir)) => Ok(Some((dir, name))),
        Ok(None) => Ok(None),
        Err(_) => Err(GraphFault::Memory),
    }
}
