//! What the system refused, and where.
ghost use Rattle.tup_disk.specs.Told.{IsTold};

use std::alloc::{AllocError, AllocFailed, Global};
use std::{fmt, io};
use thiserror::Error;

/// What was asked of the system.
#[derive(Clone, Copy, Debug, PartialEq, Eq)]
pub enum Operation {
    Lock,
    Look,
    List,
    Open,
    Read,
    Make,
    Write,
    Cut,
    Copy,
    Sync,
    Rename,
    Remove,
    Mode,
}

impl fmt::Display for Operation {
    fn fmt<W: fmt::Write>(&self, f: &mut fmt::Formatter<W>) -> fmt::Result {
        f.write_str(match self {
            Operation::Lock => "lock",
            Operation::Look => "look at",
            Operation::List => "list",
            Operation::Open => "open",
            Operation::Read => "read",
            Operation::Make => "make",
            Operation::Write => "write",
            Operation::Cut => "cut",
            Operation::Copy => "copy",
            Operation::Sync => "sync",
            Operation::Rename => "rename",
            Operation::Remove => "remove",
            Operation::Mode => "set the mode of",
        })
    }
}

/// A call of the system that failed: what was asked, the place, and the system's words.
#[derive(Debug, Drop, Error)]
#[error("{operation} {place}: {error}")]
pub struct Failure {
    pub(crate) operation: Operation,
    pub(crate) place: String,
    pub(crate) error: io::Error,
}

impl Failure {
    ghost use Rattle.std.specs.Prelude.{◌≡◌};
    ghost use Rattle.tup_disk.specs.Told.{IsFailure};
    ghost use Rattle.tup_disk.specs.declared.failure.Refused.TheVariants.{Failed};

    /// A failure at a place; where there is no memory for the place, it isn't named.
    pub fn new(alloc: Global, operation: Operation, place: &str, error: io::Error) -> Failure
        ensures { IsFailure operation place.now error (Failed result) }
    {
        let place = match String::from_str(alloc, place) {
            Ok(place) => place,
            Err(_) => String::new(alloc),
        };
        Failure {
            operation,
            place,
            error,
        }
    }
}

/// Why something wasn't done.
#[derive(Drop)]
pub enum Refused {
    Memory,
    Failed(Failure),
}

impl From<AllocError> for Refused {
    ghost use Rattle.std.specs.Prelude.{◌≡◌};
    ghost use Rattle.tup_disk.specs.declared.failure.Refused.TheVariants.{Memory};

    ghost from_gives = { λ _ refused. refused ≡ Memory };

    fn from(_: AllocError) -> Refused {
        Refused::Memory
    }
}

impl<T: Drop> From<AllocFailed<T>> for Refused {
    ghost use Rattle.std.specs.Prelude.{◌≡◌};
    ghost use Rattle.tup_disk.specs.declared.failure.Refused.TheVariants.{Memory};

    ghost from_gives = { λ _ refused. refused ≡ Memory };

    fn from(_: AllocFailed<T>) -> Refused {
        Refused::Memory
    }
}

/// An answer of the system, with what was asked and the place if it is a failure.
pub fn told<T>(
    alloc: Global,
    operation: Operation,
    place: &str,
    answer: io::Result<T>,
) -> Result<T, Refused>
    ensures { IsTold operation place.now answer result }
{
    match answer {
        Ok(value) => Ok(value),
        Err(error) => {
            let failure = Failure::new(alloc, operation, place, error);
            Err(Refused::Failed(failure))
        }
    }
}
