//! Why a clean build isn't made.
use std::alloc::{AllocError, AllocFailed};
use thiserror::Error;
use tup_access::AccessFault;

/// Why a clean build isn't made.
#[derive(Clone, Copy, Debug, PartialEq, Eq, Error)]
pub enum CleanFault {
    /// The runner failed, and its count of faults rose.
    #[error("a command can't be run")]
    Run,
    /// There was no memory; nothing is known of the build.
    #[error("no memory")]
    Memory,
}

impl From<AllocError> for CleanFault {
    ghost use Rattle.std.specs.Prelude.{◌≡◌};
    ghost use Rattle.tup_clean.specs.declared.fault.CleanFault.TheVariants.{Memory};

    ghost from_gives = { λ _ fault. fault ≡ Memory };

    fn from(_: AllocError) -> CleanFault {
        CleanFault::Memory
    }
}

impl<T: Drop> From<AllocFailed<T>> for CleanFault {
    ghost use Rattle.std.specs.Prelude.{◌≡◌};
    ghost use Rattle.tup_clean.specs.declared.fault.CleanFault.TheVariants.{Memory};

    ghost from_gives = { λ _ fault. fault ≡ Memory };

    fn from(_: AllocFailed<T>) -> CleanFault {
        CleanFault::Memory
    }
}

impl From<AccessFault> for CleanFault {
    ghost use Rattle.std.specs.Prelude.{◌≡◌};
    ghost use Rattle.tup_clean.specs.declared.fault.CleanFault.TheVariants.{Memory};

    ghost from_gives = { λ _ fault. fault ≡ Memory };

    fn from(_: AccessFault) -> CleanFault {
        CleanFault::Memory
    }
}
