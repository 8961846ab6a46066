//! The folders of a project while they are read.
ghost use Rattle.std.specs.Prelude.{◌≡◌, ◌⊎◌, Some, IfOk, IfErr, OnOk};
ghost use Rattle.tup_readings.specs.State.{IsStart, IsLast, IsNext, Notes, Begins, BeginsFirst, Closes, from_first};

use crate::done::Done;
use crate::fault::FoldersFault;
use crate::sources::Sources;
use std::alloc::{AllocError, Global};
use std::collections::BTreeSet;
use std::mem;
use tup_path::{Path, Paths};
use tup_rule::Reading;

/// The folders of a project, while they are read.
#[derive(Drop)]
pub struct Work {
    /// The folders that weren't begun.
    pub(crate) waiting: BTreeSet<Path>,
    /// Those that were begun, each waiting for the one behind it.
    pub(crate) under_way: Vec<Path>,
    /// The readings of the others.
    pub readings: Done,
}

impl Work {
    /// The folders before the first one is begun.
    pub fn new(alloc: Global, sources: &Sources<'_>) -> Result<Work, AllocError>
        ensures { IfOk result (IsStart sources.now) }
    {
        Ok(Work {
            waiting: sources.tupfiles()?,
            under_way: Vec::new(alloc),
            readings: Done::new(alloc),
        })
    }

    /// The folder to be read: the last one that was begun, else the first that wasn't. None where
    /// all are read.
    pub fn next(&mut self) -> Result<Option<Path>, AllocError>
        ensures { IfOk result (λ dir. IsNext dir self.old self.new) }
    {
        self.begin_first()?;
        match self.under_way.last() {
            Some(dir) => Ok(Some(dir.clone()?)),
            None => Ok(None),
        }
    }

    /// Begins the first folder that wasn't begun, if there is one and none is under way.
    fn begin_first(&mut self) -> Result<(), AllocError>
        ensures { OnOk result (BeginsFirst self.old self.new) }
    {
        if !self.under_way.is_empty() {
            return Ok(());
        }
        if let Some(dir) = self.waiting.pop_first() {
            self.under_way.push(dir)?;
        }
        Ok(())
    }

    /// Notes the reading of the last folder that was begun.
    pub fn note(&mut self, alloc: Global, dir: Path, reading: Reading) -> Result<(), AllocError>
        requires { IsLast (Some dir) self.old }
        ensures { OnOk result (Notes dir reading self.old self.new) }
    {
        let done = mem::replace(&mut self.readings, Done::new(alloc));
        self.readings = done.with(alloc, dir, reading)?;
        self.under_way.pop();
        Ok(())
    }

    /// Begins a folder for which the last one waits. One that was begun before closes a circle.
    pub fn wait(&mut self, alloc: Global, next: Path) -> Result<(), FoldersFault>
        ensures begins { OnOk result (Begins next self.old self.new) }
        ensures closes { IfErr result (Closes next self.old) }
    {
        if self.waiting.remove(&next) {
            self.under_way.push(next)?;
            Ok(())
        } else {
            Err(circle(alloc, &self.under_way, &next))
        }
    }
}

/// The folders from this one on, which wait for each other.
fn circle(alloc: Global, under_way: &[Path], first: &Path) -> FoldersFault
    ensures { (result ≡ FoldersFault.Memory)
        ⊎ (result ≡ FoldersFault.Circular (from_first first.now under_way.now)) }
{
    match from(alloc, under_way, first) {
        Ok(dirs) => FoldersFault::Circular(dirs),
        Err(_) => FoldersFault::Memory,
    }
}

/// The paths from the place on at which this one stands.
fn from(alloc: Global, paths: &[Path], first: &Path) -> Result<Paths, AllocError>
    ensures { IfOk result (λ found. found ≡ from_first first.now paths.now) }
{
    let mut found = Paths::new(alloc);
    for path in paths {
        if found.len() > 0 || path == first {
            found.push(path.clone()?)?;
        }
    }
    Ok(found)
}
