//! Why a graph isn't read or changed.
use std::alloc::{AllocError, AllocFailed};
use thiserror::Error;
use tup_table::TableFault;

/// Why a graph isn't read or changed.
#[derive(Clone, Copy, Debug, PartialEq, Eq, Error)]
pub enum GraphFault {
    /// The store is empty.
    #[error("there is no store")]
    NotThere,
    /// The bytes are no store, or the first record that isn't one, or that doesn't fit, was put by the commit whose gate
    /// has this offset.
    #[error("the store is damaged at byte {offset}")]
    BadStore { offset: u64 },
    /// The site failed, and counted it. The store is opened again.
    #[error("the store failed")]
    Site,
    /// The store has no room for what is to be written; nothing was.
    #[error("the store is full")]
    Full,
    /// There was no memory.
    #[error("no memory")]
    Memory,
}

impl From<AllocError> for GraphFault {
    ghost use Rattle.std.specs.Prelude.{◌≡◌};
    ghost use Rattle.tup_graph.specs.declared.fault.GraphFault.TheVariants.{Memory};

    ghost from_gives = { λ _ fault. fault ≡ Memory };

    fn from(_: AllocError) -> GraphFault {
        GraphFault::Memory
    }
}

impl<T: Drop> From<AllocFailed<T>> for GraphFault {
    ghost use Rattle.std.specs.Prelude.{◌≡◌};
    ghost use Rattle.tup_graph.specs.declared.fault.GraphFault.TheVariants.{Memory};

    ghost from_gives = { λ _ fault. fault ≡ Memory };

    fn from(_: AllocFailed<T>) -> GraphFault {
        GraphFault::Memory
    }
}

impl From<TableFault> for GraphFault {
    ghost use Rattle.std.specs.Prelude.{◌≡◌};
    ghost use Rattle.tup_graph.specs.Fault.{fault_of};

    ghost from_gives = { λ failed fault. fault ≡ fault_of failed };

    fn from(failed: TableFault) -> GraphFault {
        match failed {
            TableFault::NotThere => GraphFault::NotThere,
            TableFault::BadStore { offset } => GraphFault::BadStore { offset },
            TableFault::Site => GraphFault::Site,
            TableFault::Full => GraphFault::Full,
            TableFault::Memory => GraphFault::Memory,
        }
    }
}
