//! Why a text is no glob.
use std::alloc::{AllocError, AllocFailed};
use thiserror::Error;

/// Why a text is no glob.
#[derive(Clone, Copy, Debug, PartialEq, Eq, Error)]
pub enum GlobFault {
    /// A `[` has no `]` that closes it.
    #[error("open bracket in glob")]
    OpenBracket,
    /// There was no memory; nothing is known of the text.
    #[error("no memory")]
    Memory,
}

impl From<AllocError> for GlobFault {
    ghost use Rattle.std.specs.Prelude.{◌≡◌};
    ghost use Rattle.tup_glob.specs.declared.fault.GlobFault.TheVariants.{Memory};

    ghost from_gives = { λ _ fault. fault ≡ Memory };

    fn from(_: AllocError) -> GlobFault {
        GlobFault::Memory
    }
}

impl<T: Drop> From<AllocFailed<T>> for GlobFault {
    ghost use Rattle.std.specs.Prelude.{◌≡◌};
    ghost use Rattle.tup_glob.specs.declared.fault.GlobFault.TheVariants.{Memory};

    ghost from_gives = { λ _ fault. fault ≡ Memory };

    fn from(_: AllocFailed<T>) -> GlobFault {
        GlobFault::Memory
    }
}
