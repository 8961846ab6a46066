//! Why the readings of a project aren't refreshed.
use std::alloc::{AllocError, AllocFailed};
use thiserror::Error;
use tup_path::Paths;
use tup_query::ParseFault;
use tup_readings::FoldersFault;
use tup_site::SiteFailed;

/// Why the readings of a project aren't refreshed. Nothing is changed then.
#[derive(Debug, Drop, Error)]
pub enum RefreshFault {
    /// A file that says what to build has a fault: the tup.config of the top, or one that was read
    /// for a folder.
    #[error("{0}")]
    Parse(ParseFault),
    /// Folders that wait for each other: each asks about the files of the next one, and the last
    /// one about the first's.
    #[error("folders wait for each other")]
    Circular(Paths),
    /// The site failed, and counted it.
    #[error("the file tree failed")]
    Site,
    /// A source has so many bytes, more than the site's limit.
    #[error("a file of {0} bytes is too large")]
    TooLarge(u64),
    /// There was no memory; nothing is known of the folders.
    #[error("no memory")]
    Memory,
}

impl From<AllocError> for RefreshFault {
    ghost use Rattle.std.specs.Prelude.{◌≡◌};
    ghost use Rattle.tup_refresh.specs.declared.fault.RefreshFault.TheVariants.{Memory};

    ghost from_gives = { λ _ fault. fault ≡ Memory };

    fn from(_: AllocError) -> RefreshFault {
        RefreshFault::Memory
    }
}

impl<T: Drop> From<AllocFailed<T>> for RefreshFault {
    ghost use Rattle.std.specs.Prelude.{◌≡◌};
    ghost use Rattle.tup_refresh.specs.declared.fault.RefreshFault.TheVariants.{Memory};

    ghost from_gives = { λ _ fault. fault ≡ Memory };

    fn from(_: AllocFailed<T>) -> RefreshFault {
        RefreshFault::Memory
    }
}

impl From<SiteFailed> for RefreshFault {
    ghost use Rattle.std.specs.Prelude.{◌≡◌};
    ghost use Rattle.tup_refresh.specs.Cause.{of_site};

    ghost from_gives = { λ failed fault. fault ≡ of_site failed };

    fn from(failed: SiteFailed) -> RefreshFault {
        match failed {
            SiteFailed::Fault => RefreshFault::Site,
            SiteFailed::TooLarge(bytes) => RefreshFault::TooLarge(bytes),
            SiteFailed::Memory => RefreshFault::Memory,
        }
    }
}

impl From<FoldersFault> for RefreshFault {
    ghost use Rattle.std.specs.Prelude.{◌≡◌};
    ghost use Rattle.tup_refresh.specs.Cause.{of_folders};

    ghost from_gives = { λ found fault. fault ≡ of_folders found };

    fn from(found: FoldersFault) -> RefreshFault {
        match found {
            FoldersFault::Parse(fault) => RefreshFault::Parse(fault),
            FoldersFault::Circular(dirs) => RefreshFault::Circular(dirs),
            FoldersFault::Memory => RefreshFault::Memory,
        }
    }
}
