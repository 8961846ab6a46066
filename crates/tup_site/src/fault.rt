//! Why a call of a site is refused.
use std::alloc::{AllocError, AllocFailed};
use thiserror::Error;

/// Why a call of a site is refused.
#[derive(Clone, Copy, Debug, PartialEq, Eq, Error)]
pub enum SiteFailed {
    /// The file tree or the store failed; the site counts these.
    #[error("the file tree or the store failed")]
    Fault,
    /// The file has so many bytes, more than the site's limit; it wasn't read.
    #[error("a file of {0} bytes is too large")]
    TooLarge(u64),
    /// There was no memory.
    #[error("no memory")]
    Memory,
}

impl From<AllocError> for SiteFailed {
    ghost use Rattle.std.specs.Prelude.{◌≡◌};
    ghost use Rattle.tup_site.specs.declared.fault.SiteFailed.TheVariants.{Memory};

    ghost from_gives = { λ _ failed. failed ≡ Memory };

    fn from(_: AllocError) -> SiteFailed {
        SiteFailed::Memory
    }
}

impl<T: Drop> From<AllocFailed<T>> for SiteFailed {
    ghost use Rattle.std.specs.Prelude.{◌≡◌};
    ghost use Rattle.tup_site.specs.declared.fault.SiteFailed.TheVariants.{Memory};

    ghost from_gives = { λ _ failed. failed ≡ Memory };

    fn from(_: AllocFailed<T>) -> SiteFailed {
        SiteFailed::Memory
    }
}
