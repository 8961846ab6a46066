//! Why a call of a board is refused.
ghost use Rattle.std.specs.Prelude.{◌≡◌};
ghost use Rattle.tup_rule_outputs.specs.Fault.{of_graph, by_site};

use std::alloc::{AllocError, AllocFailed};
use thiserror::Error;
use tup_graph::GraphFault;
use tup_site::SiteFailed;

/// Why a call of a board is refused. After all but `Memory` the board has stopped, and the seat runs nothing any more.
#[derive(Clone, Copy, Debug, PartialEq, Eq, Error)]
pub enum BoardFault {
    /// A call of the site failed, and its count of faults rose, in this call or before.
    #[error("the file tree or the store failed")]
    Site,
    /// A file to be read has this many bytes, which are too many.
    #[error("a file of {0} bytes is too large")]
    TooLarge(u64),
    /// The store has no room.
    #[error("the store is full")]
    Full,
    /// There was no memory; the seat still runs its rule.
    #[error("no memory")]
    Memory,
}

impl From<AllocError> for BoardFault {
    ghost use Rattle.std.specs.Prelude.{◌≡◌};
    ghost use Rattle.tup_rule_outputs.specs.declared.fault.BoardFault.TheVariants.{Memory};

    ghost from_gives = { λ _ fault. fault ≡ Memory };

    fn from(_: AllocError) -> BoardFault {
        BoardFault::Memory
    }
}

impl<T: Drop> From<AllocFailed<T>> for BoardFault {
    ghost use Rattle.std.specs.Prelude.{◌≡◌};
    ghost use Rattle.tup_rule_outputs.specs.declared.fault.BoardFault.TheVariants.{Memory};

    ghost from_gives = { λ _ fault. fault ≡ Memory };

    fn from(_: AllocFailed<T>) -> BoardFault {
        BoardFault::Memory
    }
}

impl From<SiteFailed> for BoardFault {
    ghost use Rattle.std.specs.Prelude.{◌≡◌};
    ghost use Rattle.tup_rule_outputs.specs.Fault.{of_site};

    ghost from_gives = { λ failed fault. fault ≡ of_site failed };

    fn from(failed: SiteFailed) -> BoardFault {
        match failed {
            SiteFailed::Fault => BoardFault::Site,
            SiteFailed::TooLarge(bytes) => BoardFault::TooLarge(bytes),
            SiteFailed::Memory => BoardFault::Memory,
        }
    }
}

/// The fault of a board for that of a commit.
pub(crate) fn board_fault(fault: GraphFault) -> BoardFault
    ensures { result ≡ of_graph fault }
{
    match fault {
        GraphFault::Site => BoardFault::Site,
        GraphFault::Full => BoardFault::Full,
        GraphFault::NotThere | GraphFault::BadStore { .. } | GraphFault::Memory => {
            BoardFault::Memory
        }
    }
}

/// Whether a commit was refused by the site.
pub(crate) fn is_by_site(fault: GraphFault) -> bool
    ensures { result ≡ by_site fault }
{
    matches!(fault, GraphFault::Site)
}
