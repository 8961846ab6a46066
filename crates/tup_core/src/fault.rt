//! Why a core doesn't take an event, or isn't made.
use std::alloc::AllocError;
use thiserror::Error;
use tup_access::AccessFault;

/// Why a core doesn't take an event, and is as it was, or isn't made.
#[derive(Clone, Copy, Debug, PartialEq, Eq, Error)]
pub enum CoreFault {
    /// The event isn't enabled in this state.
    #[error("not enabled")]
    NotEnabled,
    /// There was no memory.
    #[error("no memory")]
    Memory,
}

impl From<AllocError> for CoreFault {
    ghost use Rattle.std.specs.Prelude.{◌≡◌};
    ghost use Rattle.tup_core.specs.declared.fault.CoreFault.TheVariants.{Memory};

    ghost from_gives = { λ _ fault. fault ≡ Memory };

    fn from(_: AllocError) -> CoreFault {
        CoreFault::Memory
    }
}

impl From<AccessFault> for CoreFault {
    ghost use Rattle.std.specs.Prelude.{◌≡◌};
    ghost use Rattle.tup_core.specs.declared.fault.CoreFault.TheVariants.{Memory};

    ghost from_gives = { λ _ fault. fault ≡ Memory };

    fn from(_: AccessFault) -> CoreFault {
        CoreFault::Memory
    }
}
