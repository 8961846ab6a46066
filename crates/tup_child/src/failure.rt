//! Why a command has no log.
use std::alloc::{AllocError, AllocFailed};
use std::io;
use thiserror::Error;
use tup_disk::Refused;
use tup_path::Text;

/// Why a command has no log.
#[derive(Debug, Drop, Error)]
pub enum Failure {
    /// There was no memory.
    #[error("no memory")]
    Memory,
    /// A word isn't what it should be, or what stands between the program and the files failed.
    #[error("{0}")]
    Because(&'static str),
    /// The same of what has this name.
    #[error("{name}{cause}")]
    Named { name: Text, cause: &'static str },
    /// The cause was printed.
    #[error("the cause was printed")]
    Told,
    /// The system refused a call on a file: what was asked, the place, and the system's words.
    #[error("{0}")]
    Failed(tup_disk::Failure),
    /// The system refused another call.
    #[error("{0}")]
    System(io::Error),
}

impl From<AllocError> for Failure {
    ghost use Rattle.std.specs.Prelude.{◌≡◌};
    ghost use Rattle.tup_child.specs.declared.failure.Failure.TheVariants.{Memory};

    ghost from_gives = { λ _ failure. failure ≡ Memory };

    fn from(_: AllocError) -> Failure {
        Failure::Memory
    }
}

impl<T: Drop> From<AllocFailed<T>> for Failure {
    ghost use Rattle.std.specs.Prelude.{◌≡◌};
    ghost use Rattle.tup_child.specs.declared.failure.Failure.TheVariants.{Memory};

    ghost from_gives = { λ _ failure. failure ≡ Memory };

    fn from(_: AllocFailed<T>) -> Failure {
        Failure::Memory
    }
}

impl From<io::Error> for Failure {
    fn from(error: io::Error) -> Failure {
        Failure::System(error)
    }
}

impl From<Refused> for Failure {
    ghost use Rattle.std.specs.Prelude.{◌≡◌};
    ghost use Rattle.tup_child.specs.Cause.{failure_of};

    ghost from_gives = { λ refused failure. failure ≡ failure_of refused };

    fn from(refused: Refused) -> Failure {
        match refused {
            Refused::Memory => Failure::Memory,
            Refused::Failed(failure) => Failure::Failed(failure),
        }
    }
}
