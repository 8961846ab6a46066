//! Why a tree isn't seen.
use std::alloc::{AllocError, AllocFailed};
use thiserror::Error;
use tup_site::SiteFailed;

/// Why a tree isn't seen. A scan changes nothing, whatever it answers.
#[derive(Clone, Copy, Debug, PartialEq, Eq, Error)]
pub enum ScanFault {
    /// The site failed, and counted it.
    #[error("the file tree failed")]
    Site,
    /// A file has so many bytes, more than the site's limit.
    #[error("a file of {0} bytes is too large")]
    TooLarge(u64),
    /// There are so many files, more than the site's limit; none was read.
    #[error("{0} files are too many")]
    TooManyFiles(u64),
    /// There was no memory.
    #[error("no memory")]
    Memory,
}

impl From<AllocError> for ScanFault {
    ghost use Rattle.std.specs.Prelude.{◌≡◌};
    ghost use Rattle.tup_scan.specs.declared.fault.ScanFault.TheVariants.{Memory};

    ghost from_gives = { λ _ fault. fault ≡ Memory };

    fn from(_: AllocError) -> ScanFault {
        ScanFault::Memory
    }
}

impl<T: Drop> From<AllocFailed<T>> for ScanFault {
    ghost use Rattle.std.specs.Prelude.{◌≡◌};
    ghost use Rattle.tup_scan.specs.declared.fault.ScanFault.TheVariants.{Memory};

    ghost from_gives = { λ _ fault. fault ≡ Memory };

    fn from(_: AllocFailed<T>) -> ScanFault {
        ScanFault::Memory
    }
}

impl From<SiteFailed> for ScanFault {
    ghost use Rattle.std.specs.Prelude.{◌≡◌};
    ghost use Rattle.tup_scan.specs.Cause.{fault_of};

    ghost from_gives = { λ failed fault. fault ≡ fault_of failed };

    fn from(failed: SiteFailed) -> ScanFault {
        match failed {
            SiteFailed::Fault => ScanFault::Site,
            SiteFailed::TooLarge(bytes) => ScanFault::TooLarge(bytes),
            SiteFailed::Memory => ScanFault::Memory,
        }
    }
}
