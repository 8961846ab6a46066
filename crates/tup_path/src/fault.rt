//! Why a text names no path.
use std::alloc::{AllocError, AllocFailed};
use thiserror::Error;

/// Why a text names no path below the top directory.
#[derive(Clone, Copy, Debug, PartialEq, Eq, Error)]
pub enum PathFault {
    /// The text is empty.
    #[error("an empty path")]
    Empty,
    /// The text begins with a slash, or goes above the top directory.
    #[error("a path outside of the project")]
    Outside,
    /// A part of the text isn't a visible name.
    #[error("a hidden name in a path")]
    Hidden,
    /// A name has more than 255 bytes, or the path more than 32 names.
    #[error("a path too long")]
    TooLong,
    /// There was no memory; nothing is known of the text.
    #[error("no memory")]
    Memory,
}

impl From<AllocError> for PathFault {
    ghost use Rattle.std.specs.Prelude.{◌≡◌};
    ghost use Rattle.tup_path.specs.declared.fault.PathFault.TheVariants.{Memory};

    ghost from_gives = { λ _ fault. fault ≡ Memory };

    fn from(_: AllocError) -> PathFault {
        PathFault::Memory
    }
}

impl<T: Drop> From<AllocFailed<T>> for PathFault {
    ghost use Rattle.std.specs.Prelude.{◌≡◌};
    ghost use Rattle.tup_path.specs.declared.fault.PathFault.TheVariants.{Memory};

    ghost from_gives = { λ _ fault. fault ≡ Memory };

    fn from(_: AllocFailed<T>) -> PathFault {
        PathFault::Memory
    }
}
