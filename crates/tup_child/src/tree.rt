//! The files of the project as they are before the command, and the stage.
ghost use Rattle.std.specs.Prelude.{◌≡◌, ◌⊎◌, [], IfOk, IfErr, IsErr, Ok, codes, string_bytes};
ghost use Rattle.tup_child.specs.Cause as cause;
ghost use Rattle.tup_child.specs.Cause.{IsFailed, IsFailedOrMemory, IsNoList, IsUnfound, IsUnresolved};
ghost use Rattle.tup_child.specs.declared.failure.Failure.TheVariants.{Memory};
ghost use Rattle.tup_disk.specs.Place.{place_of};
ghost use Rattle.tup_disk.specs.Told.{IsBarred, IsNamed};
ghost use Rattle.tup_disk.specs.declared.failure.Operation.TheVariants as operation;
ghost use Rattle.tup_path.specs.Resolve.{resolve};

use crate::failure::Failure;
use std::alloc::Global;
use std::fs::File;
use std::io::{ErrorKind, Read};
use std::rt::Files;
use std::{fs, io, str};
use tup_disk::{Operation, Standing, place_below, standing_at, told};
use tup_path::{Path, PathFault, Text};
use tup_proc::{LogLine, write_log};

/// The sources below a root, without the rule's own outputs, and the stage.
#[derive(Drop)]
pub struct Tree<R: Files<File = File> + Clone + Drop> {
    pub rt: R,
    pub alloc: Global,
    /// The top of the project.
    pub root: Text,
    /// The folder that takes what was written, and the log.
    pub stage: Text,
    /// The rule's own outputs.
    pub own: Vec<Path>,
}

impl<R: Files<File = File> + Clone + Drop> Tree<R> {
    /// The project below a root, with the own outputs that the stage lists.
    pub fn read(rt: R, alloc: Global, root: Text, stage: Text) -> Result<Tree<R>, Failure>
        ensures cause { IfErr result (λ failure. IsNoList failure
            ⊎ IsFailedOrMemory (IsNamed operation.Read (cause.staged stage (codes "own"))) failure) }
    {
        let mut tree = Tree {
            rt,
            alloc,
            root,
            stage,
            own: Vec::new(alloc),
        };
        tree.read_own()?;
        Ok(tree)
    }

    /// Reads which paths are the rule's own outputs.
    fn read_own(&mut self) -> Result<(), Failure>
        ensures cause { IfErr result (λ failure. IsNoList failure
            ⊎ IsFailedOrMemory
            (IsNamed operation.Read (cause.staged self.old.stage (codes "own"))) failure) }
    {
        let list = self.staged_content("own")?;
        self.own = paths_of(self.alloc, list.as_slice())?;
        Ok(())
    }

    /// What stood at a path before the command. Its own outputs didn't.
    pub fn before(&self, path: &Path) -> Result<Standing, Failure>
        ensures cause { IfErr result (IsFailedOrMemory
            (IsBarred operation.Look (place_of self.now.root path.now))) }
    {
        if self.own.contains(path) {
            return Ok(Standing::Nothing);
        }
        let place = self.source(path)?;
        self.at(place.as_str())
    }

    /// What was found at a path before the command: what the file there holds, or where the link
    /// there leads. `None` where neither stood there.
    pub fn found(&self, path: &Path) -> Result<Option<Vec<u8>>, Failure>
        ensures cause { IfErr result
            (IsFailedOrMemory (IsUnfound (place_of self.now.root path.now))) }
    {
        match self.before(path)? {
            Standing::File { .. } => Ok(Some(self.source_content(path)?)),
            Standing::Link => self.link_text(path),
            Standing::Nothing | Standing::Folder | Standing::Other => Ok(None),
        }
    }

    /// Where the link of a source leads, as bytes. `None` where that isn't UTF-8.
    fn link_text(&self, path: &Path) -> Result<Option<Vec<u8>>, Failure>
        ensures cause { IfErr result (IsFailedOrMemory
            (IsNamed operation.Look (place_of self.now.root path.now))) }
    {
        let place = self.source(path)?;
        match self.target(place.as_str())? {
            Some(target) => Ok(Some(target.into_bytes())),
            None => Ok(None),
        }
    }

    /// Where the link at a place leads. `None` where that isn't UTF-8.
    pub fn target(&self, place: &str) -> Result<Option<String>, Failure>
        ensures cause { IfErr result (IsFailedOrMemory (IsNamed operation.Look place.now)) }
    {
        let runtime = (self.rt.clone()?, self.alloc);
        match fs::read_link(&runtime, place) {
            Err(e) if e.kind() == ErrorKind::InvalidFilename => Ok(None),
            found => {
                let found = told(self.alloc, Operation::Look, place, found)?;
                Ok(Some(found.into_string()))
            }
        }
    }

    /// What stands at a place. No link is followed.
    pub fn at(&self, place: &str) -> Result<Standing, Failure>
        ensures cause { IfErr result (IsFailed (IsBarred operation.Look place.now)) }
    {
        Ok(standing_at(&self.rt, self.alloc, place)?)
    }

    /// What the file at a place holds.
    pub fn content(&self, place: &str) -> Result<Vec<u8>, Failure>
        ensures cause { IfErr result (IsFailed (IsNamed operation.Read place.now)) }
    {
        let mut bytes = Vec::new(self.alloc);
        let done = self.read_into(&mut bytes, place);
        told(self.alloc, Operation::Read, place, done)?;
        Ok(bytes)
    }

    /// Reads a file to its end.
    fn read_into(&self, bytes: &mut Vec<u8>, place: &str) -> io::Result<()> {
        File::open(&self.rt, place)?.read_to_end(bytes)?;
        Ok(())
    }

    /// What a file of the stage holds.
    pub fn staged_content(&self, name: &str) -> Result<Vec<u8>, Failure>
        ensures cause { IfErr result (IsFailedOrMemory
            (IsNamed operation.Read (cause.staged self.now.stage name.now))) }
    {
        let place = self.staged(name)?;
        self.content(place.as_str())
    }

    /// What a source holds.
    pub fn source_content(&self, path: &Path) -> Result<Vec<u8>, Failure>
        ensures cause { IfErr result (IsFailedOrMemory
            (IsNamed operation.Read (place_of self.now.root path.now))) }
    {
        let place = self.source(path)?;
        self.content(place.as_str())
    }

    /// The place of a source.
    pub fn source(&self, path: &Path) -> Result<String, Failure>
        ensures place { IfOk result
            (λ place. string_bytes place ≡ place_of self.now.root path.now) }
        ensures cause { IfErr result (λ failure. failure ≡ Memory) }
    {
        self.below(self.root.as_str(), path)
    }

    /// The place of a path below a folder.
    pub fn below(&self, folder: &str, path: &Path) -> Result<String, Failure>
        ensures place { IfOk result (λ place. string_bytes place ≡ place_of folder.now path.now) }
        ensures cause { IfErr result (λ failure. failure ≡ Memory) }
    {
        Ok(place_below(self.alloc, folder, path.names())?)
    }

    /// The place of a file of the stage.
    pub fn staged(&self, name: &str) -> Result<String, Failure>
        ensures place { IfOk result
            (λ place. string_bytes place ≡ cause.staged self.now.stage name.now) }
        ensures cause { IfErr result (λ failure. failure ≡ Memory) }
    {
        let mut place = String::from_str(self.alloc, self.stage.as_str())?;
        place.push('/')?;
        place.push_str(name)?;
        Ok(place)
    }

    /// Writes a file of the stage.
    pub fn write_staged(&self, name: &str, content: &[u8]) -> Result<(), Failure>
        ensures cause { IfErr result (IsFailedOrMemory
            (IsNamed operation.Write (cause.staged self.now.stage name.now))) }
    {
        let place = self.staged(name)?;
        let done = fs::write(&self.rt, place.as_str(), content);
        Ok(told(self.alloc, Operation::Write, place.as_str(), done)?)
    }

    /// Writes the log into the stage.
    pub fn write_log(&self, log: &[LogLine]) -> Result<(), Failure>
        ensures cause { IfErr result (IsFailedOrMemory
            (IsNamed operation.Write (cause.staged self.now.stage (codes "log")))) }
    {
        match write_log(self.alloc, log) {
            Ok(bytes) => self.write_staged("log", bytes.as_slice()),
            Err(_) => Err(Failure::Memory),
        }
    }
}

/// The paths of a list, a line for each.
fn paths_of(alloc: Global, list: &[u8]) -> Result<Vec<Path>, Failure>
    ensures cause { IfErr result (λ failure. (failure ≡ Memory) ⊎ IsNoList failure) }
{
    let Ok(list) = str::from_utf8(list) else {
        return Err(Failure::Because("the list of outputs isn't a text"));
    };
    let mut paths = Vec::new(alloc);
    for line in list.lines() {
        paths.push(path_of(alloc, line)?)?;
    }
    Ok(paths)
}

/// The path that a text names from the top.
pub fn path_of(alloc: Global, text: &str) -> Result<Path, Failure>
    ensures path { IfOk result (λ path. resolve [] text.now ≡ Ok path) }
    ensures cause { IfErr result (λ failure. (failure ≡ Memory)
        ⊎ (IsUnresolved failure × IsErr (resolve [] text.now))) }
{
    match Path::from_top(alloc, text) {
        Ok(path) => Ok(path),
        Err(PathFault::Memory) => Err(Failure::Memory),
        Err(_) => Err(Failure::Because("a path doesn't resolve")),
    }
}
