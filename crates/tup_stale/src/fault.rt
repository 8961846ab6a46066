//! Why files aren't cleared.
use std::alloc::{AllocError, AllocFailed};
use thiserror::Error;
use tup_graph::GraphFault;
use tup_path::Path;
use tup_site::SiteFailed;
use tup_stamp::Stamp;

/// Why files that no rule makes any more aren't cleared.
#[derive(Debug, Drop, PartialEq, Eq, Error)]
pub enum StaleFault {
    /// The file at an owned path isn't what was written there. Nothing was changed.
    #[error("{path} was changed by hand and no rule makes it")]
    UserFile {
        path: Path,
        /// The stamp of what was written; `None` where nothing was.
        written: Option<Stamp>,
        /// The stamp of what stands there.
        found: Stamp,
    },
    /// The site failed, and counted it.
    #[error("the file tree or the store failed")]
    Site,
    /// A file that was looked at has so many bytes, more than the site's limit. Nothing was changed.
    #[error("a file of {0} bytes is too large")]
    TooLarge(u64),
    /// The store has no room for what is to be written: either nothing was changed, or the files are gone and their paths
    /// are still owned.
    #[error("the store is full")]
    Full,
    /// There was no memory.
    #[error("no memory")]
    Memory,
}

impl From<AllocError> for StaleFault {
    ghost use Rattle.std.specs.Prelude.{◌≡◌};
    ghost use Rattle.tup_stale.specs.declared.fault.StaleFault.TheVariants.{Memory};

    ghost from_gives = { λ _ fault. fault ≡ Memory };

    fn from(_: AllocError) -> StaleFault {
        StaleFault::Memory
    }
}

impl<T: Drop> From<AllocFailed<T>> for StaleFault {
    ghost use Rattle.std.specs.Prelude.{◌≡◌};
    ghost use Rattle.tup_stale.specs.declared.fault.StaleFault.TheVariants.{Memory};

    ghost from_gives = { λ _ fault. fault ≡ Memory };

    fn from(_: AllocFailed<T>) -> StaleFault {
        StaleFault::Memory
    }
}

impl From<SiteFailed> for StaleFault {
    ghost use Rattle.std.specs.Prelude.{◌≡◌};
    ghost use Rattle.tup_stale.specs.Cause.{of_site};

    ghost from_gives = { λ failed fault. fault ≡ of_site failed };

    fn from(failed: SiteFailed) -> StaleFault {
        match failed {
            SiteFailed::Fault => StaleFault::Site,
            SiteFailed::TooLarge(bytes) => StaleFault::TooLarge(bytes),
            SiteFailed::Memory => StaleFault::Memory,
        }
    }
}

impl From<GraphFault> for StaleFault {
    ghost use Rattle.std.specs.Prelude.{◌≡◌};
    ghost use Rattle.tup_stale.specs.Cause.{of_graph};

    ghost from_gives = { λ failed fault. fault ≡ of_graph failed };

    fn from(failed: GraphFault) -> StaleFault {
        match failed {
            GraphFault::Site => StaleFault::Site,
            GraphFault::Full => StaleFault::Full,
            // No transaction answers the first two.
            GraphFault::NotThere | GraphFault::BadStore { .. } | GraphFault::Memory => {
                StaleFault::Memory
            }
        }
    }
}
