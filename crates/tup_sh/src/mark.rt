//! The moment before a command, by the clock of the file system, and what was changed behind it.
use std::fs;
use std::fs::{File, Metadata};
use std::os::unix::fs::MetadataExt;
use std::rt::Files;
use tup_child::{Failure, Tree};
use tup_disk::{Operation, told};

/// How often a file is made anew at most until it is later than the mark. The clock of a file system moves after at most ten
/// milliseconds.
const MAX_TRIES: u32 = 100_000;

/// A moment: the change of a file, in seconds and nanoseconds.
#[derive(Clone, Copy, PartialEq, Eq, PartialOrd, Ord)]
pub(crate) struct Moment {
    seconds: i64,
    nanos: i64,
}

impl Moment {
    /// When a file was last changed.
    pub(crate) fn of(found: &Metadata) -> Moment {
        Moment {
            seconds: found.ctime(),
            nanos: found.ctime_nsec(),
        }
    }
}

/// Makes the mark of a command, and gives its moment. What was changed before it isn't later.
pub(crate) fn mark<R: Files<File = File> + Clone + Drop>(
    tree: &Tree<R>,
) -> Result<Moment, Failure> {
    written(tree, "mark")
}

/// The moment that it is now.
pub(crate) fn now<R: Files<File = File> + Clone + Drop>(tree: &Tree<R>) -> Result<Moment, Failure> {
    written(tree, "now")
}

/// Waits until what is changed is later than a moment.
pub(crate) fn pass<R: Files<File = File> + Clone + Drop>(
    tree: &Tree<R>,
    moment: Moment,
) -> Result<(), Failure> {
    for _ in 0..MAX_TRIES {
        if now(tree)? > moment {
            return Ok(());
        }
    }
    Err(Failure::Because("the clock of the file system stands still"))
}

/// Writes a file of the stage, and gives the moment of that.
fn written<R: Files<File = File> + Clone + Drop>(
    tree: &Tree<R>,
    name: &str,
) -> Result<Moment, Failure> {
    tree.write_staged(name, b"-".as_slice())?;
    let place = tree.staged(name)?;
    let found = fs::symlink_metadata(&tree.rt, place.as_str());
    let found = told(tree.alloc, Operation::Look, place.as_str(), found)?;
    Ok(Moment::of(&found))
}
