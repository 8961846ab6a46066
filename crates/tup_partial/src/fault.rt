//! Why there is no plan.
use std::alloc::{AllocError, AllocFailed};
use thiserror::Error;
use tup_graph::GraphFault;

/// Why there is no plan.
#[derive(Clone, Copy, Debug, PartialEq, Eq, Error)]
pub enum PartialFault {
    /// There was no memory.
    #[error("no memory")]
    Memory,
}

impl From<AllocError> for PartialFault {
    ghost use Rattle.std.specs.Prelude.{◌≡◌};
    ghost use Rattle.tup_partial.specs.declared.fault.PartialFault.TheVariants.{Memory};

    ghost from_gives = { λ _ fault. fault ≡ Memory };

    fn from(_: AllocError) -> PartialFault {
        PartialFault::Memory
    }
}

impl<T: Drop> From<AllocFailed<T>> for PartialFault {
    ghost use Rattle.std.specs.Prelude.{◌≡◌};
    ghost use Rattle.tup_partial.specs.declared.fault.PartialFault.TheVariants.{Memory};

    ghost from_gives = { λ _ fault. fault ≡ Memory };

    fn from(_: AllocFailed<T>) -> PartialFault {
        PartialFault::Memory
    }
}

impl From<GraphFault> for PartialFault {
    ghost use Rattle.std.specs.Prelude.{◌≡◌};
    ghost use Rattle.tup_partial.specs.declared.fault.PartialFault.TheVariants.{Memory};

    ghost from_gives = { λ _ fault. fault ≡ Memory };

    /// Who reads a graph in memory is refused for want of it alone.
    fn from(_: GraphFault) -> PartialFault {
        PartialFault::Memory
    }
}
