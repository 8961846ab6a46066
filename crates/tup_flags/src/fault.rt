//! Why a text with percent signs can't be expanded.
use std::alloc::{AllocError, AllocFailed};
use thiserror::Error;
use tup_path::PathFault;

/// Why a text with percent signs can't be expanded.
#[derive(Clone, Copy, Debug, PartialEq, Eq, Error)]
pub enum FlagFault {
    /// No flag begins as this percent sign goes on, or the name of a group isn't closed.
    #[error("unknown percent flag")]
    UnknownFlag,
    /// The flag has nothing to stand for where it stands.
    #[error("percent flag not allowed here")]
    FlagNotHere,
    /// The texts of the answer have more than 1,048,576 bytes together.
    #[error("line too long")]
    TooLong,
    /// There was no memory; nothing is known of the text.
    #[error("no memory")]
    Memory,
}

impl From<AllocError> for FlagFault {
    ghost use Rattle.std.specs.Prelude.{◌≡◌};
    ghost use Rattle.tup_flags.specs.declared.fault.FlagFault.TheVariants.{Memory};

    ghost from_gives = { λ _ fault. fault ≡ Memory };

    fn from(_: AllocError) -> FlagFault {
        FlagFault::Memory
    }
}

impl<T: Drop> From<AllocFailed<T>> for FlagFault {
    ghost use Rattle.std.specs.Prelude.{◌≡◌};
    ghost use Rattle.tup_flags.specs.declared.fault.FlagFault.TheVariants.{Memory};

    ghost from_gives = { λ _ fault. fault ≡ Memory };

    fn from(_: AllocFailed<T>) -> FlagFault {
        FlagFault::Memory
    }
}

// A path is shown wherever there is memory, so no other fault of a path comes here.
impl From<PathFault> for FlagFault {
    ghost use Rattle.std.specs.Prelude.{◌≡◌};
    ghost use Rattle.tup_flags.specs.declared.fault.FlagFault.TheVariants.{Memory};

    ghost from_gives = { λ _ fault. fault ≡ Memory };

    fn from(_: PathFault) -> FlagFault {
        FlagFault::Memory
    }
}
