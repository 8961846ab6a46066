//! Why there is no reason.
use std::alloc::{AllocError, AllocFailed};
use thiserror::Error;
use tup_graph::GraphFault;

/// Why there is no reason.
#[derive(Clone, Copy, Debug, PartialEq, Eq, Error)]
pub enum WhyFault {
    /// There was no memory.
    #[error("no memory")]
    Memory,
}

impl From<AllocError> for WhyFault {
    ghost use Rattle.std.specs.Prelude.{◌≡◌};
    ghost use Rattle.tup_why.specs.declared.fault.WhyFault.TheVariants.{Memory};

    ghost from_gives = { λ _ fault. fault ≡ Memory };

    fn from(_: AllocError) -> WhyFault {
        WhyFault::Memory
    }
}

impl<T: Drop> From<AllocFailed<T>> for WhyFault {
    ghost use Rattle.std.specs.Prelude.{◌≡◌};
    ghost use Rattle.tup_why.specs.declared.fault.WhyFault.TheVariants.{Memory};

    ghost from_gives = { λ _ fault. fault ≡ Memory };

    fn from(_: AllocFailed<T>) -> WhyFault {
        WhyFault::Memory
    }
}

impl From<GraphFault> for WhyFault {
    ghost use Rattle.std.specs.Prelude.{◌≡◌};
    ghost use Rattle.tup_why.specs.declared.fault.WhyFault.TheVariants.{Memory};

    ghost from_gives = { λ _ fault. fault ≡ Memory };

    /// Who reads a graph in memory is refused for want of it alone.
    fn from(_: GraphFault) -> WhyFault {
        WhyFault::Memory
    }
}
