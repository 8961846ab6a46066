//! Why a site in memory can't be made, edited or stopped so.
use std::alloc::{AllocError, AllocFailed};
use thiserror::Error;

/// Why a site in memory can't be made, edited or stopped so. What stands first comes first.
#[derive(Clone, Copy, Debug, PartialEq, Eq, Error)]
pub enum MemRefused {
    /// The files would be no tree: the top as a file, one path twice, or a path below another.
    #[error("the files are no tree")]
    NotATree,
    /// A content has the stamp of another that is known.
    #[error("two contents have one stamp")]
    SameStamp,
    /// A crash now can't leave this.
    #[error("no crash can leave this")]
    NotAnImage,
    /// There was no memory.
    #[error("no memory")]
    Memory,
}

impl From<AllocError> for MemRefused {
    ghost use Rattle.std.specs.Prelude.{◌≡◌};
    ghost use Rattle.tup_site.specs.declared.refused.MemRefused.TheVariants.{Memory};

    ghost from_gives = { λ _ refused. refused ≡ Memory };

    fn from(_: AllocError) -> MemRefused {
        MemRefused::Memory
    }
}

impl<T: Drop> From<AllocFailed<T>> for MemRefused {
    ghost use Rattle.std.specs.Prelude.{◌≡◌};
    ghost use Rattle.tup_site.specs.declared.refused.MemRefused.TheVariants.{Memory};

    ghost from_gives = { λ _ refused. refused ≡ Memory };

    fn from(_: AllocFailed<T>) -> MemRefused {
        MemRefused::Memory
    }
}
