//! The folder below which all lies, and the places there.
ghost use Rattle.std.specs.Prelude.{◌≡◌, ◌⊎◌, ◌-◌, length, take, map, IfOk, IfErr, string_bytes};
ghost use Rattle.tup_disk.specs.Place.{place_of, places_to};
ghost use Rattle.tup_disk.specs.Told.{IsTold, IsFailure, IsNamed, IsOwn};

use crate::failure::{Failure, Operation, Refused, told};
use std::alloc::{AllocError, Global};
use std::fs::{File, TryLockError};
use std::io;
use std::io::ErrorKind;
use std::rt::Files;
use tup_path::{Path, Text};

/// What is said where somebody else holds the lock. That is mostly another tup; any program may lock the folder.
const TAKEN: &str = "another tup is at work here";

/// When what was written is made durable.
#[derive(Clone, Copy, PartialEq, Eq)]
pub enum Syncs {
    /// Whenever a site is asked for it.
    Done,
    /// Once an update, at its end.
    Once,
    /// Never: then it is safe against a killed program, but not against a cut of power.
    Skipped,
}

/// The folder below which all lies, and the way to it.
#[derive(Drop)]
pub struct Disk<R: Files<File = File> + Clone + Drop> {
    pub rt: R,
    pub alloc: Global,
    root: String,
    pub(crate) syncs: Syncs,
}

impl<R: Files<File = File> + Clone + Drop> Disk<R> {
    /// The files below this folder. It touches nothing yet.
    pub fn new(rt: R, alloc: Global, root: &str, syncs: Syncs) -> Result<Disk<R>, AllocError>
        ensures root { IfOk result (λ disk. string_bytes disk.root ≡ root.now) }
        ensures syncs { IfOk result (λ disk. disk.syncs ≡ syncs) }
    {
        Ok(Disk {
            rt,
            alloc,
            root: String::from_str(alloc, root)?,
            syncs,
        })
    }

    /// The place of the folder below which all lies.
    pub fn root(&self) -> &str
        ensures { result.now ≡ string_bytes self.now.root }
    {
        self.root.as_str()
    }

    /// When what was written is made durable.
    pub fn syncs(&self) -> Syncs
        ensures { result ≡ self.now.syncs }
    {
        self.syncs
    }

    /// The place of these names, as the system names it.
    pub fn place(&self, names: &[Text]) -> Result<String, AllocError>
        ensures { IfOk result
            (λ place. string_bytes place ≡ place_of (string_bytes self.now.root) names.now) }
    {
        place_below(self.alloc, self.root.as_str(), names)
    }

    /// The places of the folders above a path, from the top down, without the top itself.
    pub fn folders_above(&self, path: &Path) -> Result<Vec<String>, AllocError>
        ensures { IfOk result (λ folders. map string_bytes folders.items
            ≡ places_to (string_bytes self.now.root) (take (length path.now - 1) path.now)) }
    {
        let mut folders = Vec::new(self.alloc);
        for last in 0..path.depth().saturating_sub(1) {
            folders.push(self.place(&path.names()[..=last])?)?;
        }
        Ok(folders)
    }

    /// The lock on the top folder, held as long as the file is. Where the file system knows no
    /// locks nothing keeps another process away.
    pub fn lock(&self) -> Result<File, Refused>
        ensures cause { IfErr result (λ refused.
            IsNamed Operation.Open (string_bytes self.now.root) refused
            ⊎ IsNamed Operation.Lock (string_bytes self.now.root) refused) }
    {
        let root = self.root.as_str();
        let file = self.open(root)?;
        match file.try_lock() {
            Ok(()) => Ok(file),
            Err(TryLockError::Error(e)) if knows_no_locks(e.kind()) => Ok(file),
            Err(TryLockError::Error(e)) => Err(self.refused(Operation::Lock, root, e)),
            Err(TryLockError::WouldBlock) => {
                let error = io::Error::other(TAKEN);
                Err(self.refused(Operation::Lock, root, error))
            }
        }
    }

    /// Whether a lock keeps other processes away: some file systems know no locks.
    pub fn is_locked(&self, lock: &File) -> bool {
        lock.try_lock().is_ok()
    }

    /// Opens a file, or a folder, to be read.
    pub fn open(&self, place: &str) -> Result<File, Refused>
        ensures cause { IfErr result (IsNamed Operation.Open place.now) }
    {
        self.at(Operation::Open, place, File::open(&self.rt, place))
    }

    /// An answer of the system, with what was asked and the place if it is a failure.
    pub fn at<T>(
        &self,
        operation: Operation,
        place: &str,
        answer: io::Result<T>,
    ) -> Result<T, Refused>
        ensures { IsTold operation place.now answer result }
    {
        told(self.alloc, operation, place, answer)
    }

    /// A failure at a place; where there is no memory for the place, it isn't named.
    pub fn refused(&self, operation: Operation, place: &str, error: io::Error) -> Refused
        ensures { IsFailure operation place.now error result }
    {
        Refused::Failed(Failure::new(self.alloc, operation, place, error))
    }

    /// The failure that something stands here which is neither a file nor a folder of the project.
    pub fn in_the_way(&self, place: &str) -> Refused
        ensures { IsOwn Operation.Look place.now result }
    {
        self.refused(
            Operation::Look,
            place,
            io::Error::other("a link or a special file stands here"),
        )
    }

    /// The failure of every sync after one that failed.
    pub fn lost(&self, place: &str) -> Refused
        ensures { IsOwn Operation.Sync place.now result }
    {
        self.refused(
            Operation::Sync,
            place,
            io::Error::other("an earlier write was lost"),
        )
    }
}

/// Whether an error says that the file system knows no locks.
fn knows_no_locks(kind: ErrorKind) -> bool {
    kind == ErrorKind::Unsupported
}

/// The place of these names below a folder, as the system names it.
pub fn place_below(alloc: Global, root: &str, names: &[Text]) -> Result<String, AllocError>
    ensures { IfOk result (λ place. string_bytes place ≡ place_of root.now names.now) }
{
    let mut place = with_room(alloc, root, names)?;
    for name in names {
        place.push('/')?;
        place.push_str(name.as_str())?;
    }
    Ok(place)
}

/// The place of a folder, with room for these names behind it, so that it needn't grow with each of them.
fn with_room(alloc: Global, root: &str, names: &[Text]) -> Result<String, AllocError>
    ensures { IfOk result (λ place. string_bytes place ≡ root.now) }
{
    let mut place = String::with_capacity(alloc, root.len().saturating_add(room_of(names)))?;
    place.push_str(root)?;
    Ok(place)
}

/// How many bytes these names take, with a slash before each.
fn room_of(names: &[Text]) -> usize {
    let mut room = 0usize;
    for name in names {
        room = room.saturating_add(name.as_str().len()).saturating_add(1);
    }
    room
}
