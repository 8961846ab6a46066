//! Why a table isn't read or changed.
use std::alloc::{AllocError, AllocFailed};
use thiserror::Error;
use tup_site::SiteFailed;

/// Why a table isn't read or changed.
#[derive(Clone, Copy, Debug, PartialEq, Eq, Error)]
pub enum TableFault {
    /// The store is empty.
    #[error("there is no store")]
    NotThere,
    /// The bytes are no store: 0 where they don't begin with a head, 9 where the start in it is wrong, and else the offset of
    /// the open gate behind which something stands that is no commit.
    #[error("the store is damaged at byte {offset}")]
    BadStore { offset: u64 },
    /// The site failed, and counted it. The store is opened again.
    #[error("the store failed")]
    Site,
    /// The store would have more than 268,435,456 live bytes; nothing was written.
    #[error("the store is full")]
    Full,
    /// There was no memory. The store is opened again where its table isn't fresh.
    #[error("no memory")]
    Memory,
}

impl From<AllocError> for TableFault {
    ghost use Rattle.std.specs.Prelude.{◌≡◌};
    ghost use Rattle.tup_table.specs.declared.fault.TableFault.TheVariants.{Memory};

    ghost from_gives = { λ _ fault. fault ≡ Memory };

    fn from(_: AllocError) -> TableFault {
        TableFault::Memory
    }
}

impl<T: Drop> From<AllocFailed<T>> for TableFault {
    ghost use Rattle.std.specs.Prelude.{◌≡◌};
    ghost use Rattle.tup_table.specs.declared.fault.TableFault.TheVariants.{Memory};

    ghost from_gives = { λ _ fault. fault ≡ Memory };

    fn from(_: AllocFailed<T>) -> TableFault {
        TableFault::Memory
    }
}

impl From<SiteFailed> for TableFault {
    ghost use Rattle.std.specs.Prelude.{◌≡◌};
    ghost use Rattle.tup_table.specs.Cause.{fault_of};

    ghost from_gives = { λ failed fault. fault ≡ fault_of failed };

    fn from(failed: SiteFailed) -> TableFault {
        match failed {
            SiteFailed::Memory => TableFault::Memory,
            // Only a file of the tree can be too large, and a table reads none.
            SiteFailed::Fault | SiteFailed::TooLarge(_) => TableFault::Site,
        }
    }
}
