//! Why a started program gave no run.
ghost use Rattle.tup_proc_runner.specs.Refused.{IsMemoryOr};

use std::alloc::{AllocError, AllocFailed};
use std::io;
use std::io::ErrorKind;
use thiserror::Error;
use tup_path::Text;

/// Why a started program gave no run.
#[derive(Debug, PartialEq, Eq, Drop, Error)]
pub enum ProcFault {
    /// The program couldn't be started or waited for.
    #[error("the program couldn't be started")]
    NotStarted,
    /// There is no log, it doesn't read, or it names what the program wrote in a file that isn't there.
    #[error("the program's log is bad")]
    BadLog,
    /// There is no log, and the program has printed why.
    #[error("the program has no log, and said why")]
    Told,
    /// The log says that the program found another content at this place than the view answers, or only one of the two found
    /// anything. Either somebody changed the file, or the log is bad: which it was can't be told.
    #[error("{place}: it isn't as the program found it: it was changed while tup ran, or the program's log is bad")]
    Differs { place: Text },
    /// A file of the stage couldn't be made or read, or what the program printed couldn't be kept.
    #[error("the stage couldn't be made or read")]
    NoStage,
}

/// Why something of a run wasn't done.
#[derive(Drop)]
pub(crate) enum Refused {
    Memory,
    Fault(ProcFault),
}

impl Refused {
    /// An error of the system, as this fault unless it is want of memory.
    pub(crate) fn of(error: &io::Error, fault: ProcFault) -> Refused
        ensures { IsMemoryOr fault result }
    {
        if error.kind() == ErrorKind::OutOfMemory {
            Refused::Memory
        } else {
            Refused::Fault(fault)
        }
    }
}

impl From<AllocError> for Refused {
    ghost use Rattle.std.specs.Prelude.{◌≡◌};
    ghost use Rattle.tup_proc_runner.specs.declared.fault.Refused.TheVariants.{Memory};

    ghost from_gives = { λ _ refused. refused ≡ Memory };

    fn from(_: AllocError) -> Refused {
        Refused::Memory
    }
}

impl<T: Drop> From<AllocFailed<T>> for Refused {
    ghost use Rattle.std.specs.Prelude.{◌≡◌};
    ghost use Rattle.tup_proc_runner.specs.declared.fault.Refused.TheVariants.{Memory};

    ghost from_gives = { λ _ refused. refused ≡ Memory };

    fn from(_: AllocFailed<T>) -> Refused {
        Refused::Memory
    }
}
