//! How the upper folder is listed. Folders and files without permissions are opened to their owner on the way.
use crate::entries::{Entries, Kind};
use crate::programs::shell;
use crate::script::LIST;
use std::alloc::Global;
use std::fs::{DirEntry, File, FileType, Metadata, Permissions};
use std::io::ErrorKind;
use std::os::unix::fs::{FileTypeExt, PermissionsExt};
use std::process::{Processes, Stdio};
use std::rt::Files;
use std::{fs, io};
use tup_child::{Failure, Tree};
use tup_disk::{Operation, Standing, told};

/// How many entries are listed at most.
const MAX_ENTRIES: u32 = u32::MAX;
/// The bits of a mode by which its owner may read.
const READABLE: u32 = 0o400;
/// The bits of a mode by which its owner may do all.
const OPEN: u32 = 0o700;

/// What the command left in the upper folder. The entries of a folder follow it. Where that was held in memory the script has left
/// the list.
pub(crate) fn entries<R: Files<File = File> + Processes + Clone + Drop>(
    tree: &Tree<R>,
    is_fit: bool,
) -> Result<Entries, Failure> {
    if is_fit {
        return walked(tree);
    }
    let place = tree.staged("list")?;
    match tree.at(place.as_str())? {
        Standing::File { .. } => {
            Entries::read(tree.alloc, tree.content(place.as_str())?.as_slice())
        }
        _ => Err(Failure::Because("what the command wrote couldn't be taken out of memory")),
    }
}

/// What the command left, found by a walk.
fn walked<R: Files<File = File> + Processes + Clone + Drop>(
    tree: &Tree<R>,
) -> Result<Entries, Failure> {
    let mut descent = Descent::of(tree);
    descent.go()?;
    if descent.is_whole {
        Ok(descent.found)
    } else {
        listed(tree)
    }
}

/// What the command left, listed by `find`. Unlike the library it takes names that aren't UTF-8 or too long.
fn listed<R: Files<File = File> + Processes + Clone + Drop>(
    tree: &Tree<R>,
) -> Result<Entries, Failure> {
    let mut shell = shell(tree, LIST)?;
    shell.stderr(Stdio::inherit());
    let output = shell.output(&tree.rt)?;
    if output.status.success() {
        Entries::read(tree.alloc, output.stdout.as_slice())
    } else {
        Err(Failure::Because("what the command wrote can't be listed"))
    }
}

/// A walk down the upper folder.
#[derive(Drop)]
struct Descent<'a, R: Files<File = File> + Clone + Drop> {
    tree: &'a Tree<R>,
    found: Entries,
    /// The names that are still to be looked at, from the upper folder on, the next one last.
    rest: Vec<String>,
    /// Whether the library took each name.
    is_whole: bool,
}

impl<'a, R: Files<File = File> + Clone + Drop> Descent<'a, R> {
    fn of(tree: &'a Tree<R>) -> Descent<'a, R> {
        Descent {
            tree,
            found: Entries::none(tree.alloc),
            rest: Vec::new(tree.alloc),
            is_whole: true,
        }
    }

    /// Lists all.
    fn go(&mut self) -> Result<(), Failure> {
        self.look("")?;
        for _ in 0..MAX_ENTRIES {
            match self.rest.pop() {
                Some(name) => self.look(name.as_str())?,
                None => return Ok(()),
            }
        }
        Err(Failure::Because("too many files"))
    }

    /// Looks at a name.
    fn look(&mut self, name: &str) -> Result<(), Failure> {
        let place = self.place(name)?;
        match fs::symlink_metadata(&self.tree.rt, place.as_str()) {
            Err(e) if e.kind() == ErrorKind::InvalidFilename => {
                self.is_whole = false;
                Ok(())
            }
            found => {
                let found = told(self.tree.alloc, Operation::Look, place.as_str(), found)?;
                self.take(name, place.as_str(), &found)
            }
        }
    }

    /// Takes what stands at a place, and what it holds.
    fn take(&mut self, name: &str, place: &str, found: &Metadata) -> Result<(), Failure> {
        let kind = kind_of(found.file_type());
        if !name.is_empty() {
            self.found.add(self.tree.alloc, kind, name.as_bytes())?;
        }
        match kind {
            Kind::File => self.open(place, found, READABLE),
            Kind::Folder => {
                self.open(place, found, OPEN)?;
                self.enter(name, place)
            }
            Kind::Mark | Kind::Strange => Ok(()),
        }
    }

    /// Gives the owner these rights to a place, if they are missing.
    fn open(&self, place: &str, found: &Metadata, rights: u32) -> Result<(), Failure> {
        let mode = found.permissions().mode();
        if mode & rights == rights {
            return Ok(());
        }
        let set = fs::set_permissions(&self.tree.rt, place, Permissions::from_mode(mode | rights));
        Ok(told(self.tree.alloc, Operation::Mode, place, set)?)
    }

    /// Puts the entries of a folder before the rest.
    fn enter(&mut self, folder: &str, place: &str) -> Result<(), Failure> {
        let mut names = self.names(folder, place)?;
        names.reverse();
        self.rest.append(&mut names)?;
        Ok(())
    }

    /// The names of the entries of a folder.
    fn names(&mut self, folder: &str, place: &str) -> Result<Vec<String>, Failure> {
        let runtime = (self.tree.rt.clone()?, self.tree.alloc);
        let mut names = Vec::new(self.tree.alloc);
        let list = fs::read_dir(&runtime, place);
        for entry in told(self.tree.alloc, Operation::List, place, list)? {
            self.add_name(&mut names, folder, place, entry)?;
        }
        Ok(names)
    }

    /// Adds the name of an entry of a folder, which stands at this place.
    fn add_name(
        &mut self,
        names: &mut Vec<String>,
        folder: &str,
        place: &str,
        entry: io::Result<DirEntry<(R, Global)>>,
    ) -> Result<(), Failure> {
        match entry {
            Err(e) if e.kind() == ErrorKind::InvalidFilename => self.is_whole = false,
            entry => {
                let entry = told(self.tree.alloc, Operation::List, place, entry)?;
                names.push(joined(self.tree.alloc, folder, entry.file_name())?)?;
            }
        }
        Ok(())
    }

    /// The place of a name.
    fn place(&self, name: &str) -> Result<String, Failure> {
        let up = self.tree.staged("up")?;
        joined(self.tree.alloc, up.as_str(), name)
    }
}

/// A name in a folder. Where one of the two is empty this is the other.
fn joined(alloc: Global, folder: &str, name: &str) -> Result<String, Failure> {
    let mut joined = String::from_str(alloc, folder)?;
    if !folder.is_empty() && !name.is_empty() {
        joined.push('/')?;
    }
    joined.push_str(name)?;
    Ok(joined)
}

/// What a type of files is to a command.
fn kind_of(found: FileType) -> Kind {
    if found.is_file() {
        Kind::File
    } else if found.is_dir() {
        Kind::Folder
    } else if found.is_char_device() {
        Kind::Mark
    } else {
        Kind::Strange
    }
}
