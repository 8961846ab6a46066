//! Why the folders of a project aren't read.
use std::alloc::{AllocError, AllocFailed};
use thiserror::Error;
use tup_path::Paths;
use tup_query::ParseFault;

/// Why the folders of a project aren't read.
#[derive(Debug, Drop, Error)]
pub enum FoldersFault {
    /// A file that says what to build has a fault: the tup.config of the top, or one that was read
    /// for a folder.
    #[error("{0}")]
    Parse(ParseFault),
    /// Folders that wait for each other: each asks about files that the next one's rules may make,
    /// and the last one about such files of the first.
    #[error("folders wait for each other")]
    Circular(Paths),
    /// There was no memory; nothing is known of the folders.
    #[error("no memory")]
    Memory,
}

impl From<AllocError> for FoldersFault {
    ghost use Rattle.std.specs.Prelude.{◌≡◌};
    ghost use Rattle.tup_readings.specs.declared.fault.FoldersFault.TheVariants.{Memory};

    ghost from_gives = { λ _ fault. fault ≡ Memory };

    fn from(_: AllocError) -> FoldersFault {
        FoldersFault::Memory
    }
}

impl<T: Drop> From<AllocFailed<T>> for FoldersFault {
    ghost use Rattle.std.specs.Prelude.{◌≡◌};
    ghost use Rattle.tup_readings.specs.declared.fault.FoldersFault.TheVariants.{Memory};

    ghost from_gives = { λ _ fault. fault ≡ Memory };

    fn from(_: AllocFailed<T>) -> FoldersFault {
        FoldersFault::Memory
    }
}
