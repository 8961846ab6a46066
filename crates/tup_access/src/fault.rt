//! Why a command isn't judged.
use std::alloc::AllocError;
use thiserror::Error;
use tup_runner::ViewFailed;

/// Why a command isn't judged.
#[derive(Clone, Copy, Debug, PartialEq, Eq, Error)]
pub enum AccessFault {
    /// There was no memory; nothing is known of the command.
    #[error("no memory")]
    Memory,
}

impl From<AllocError> for AccessFault {
    ghost use Rattle.std.specs.Prelude.{◌≡◌};
    ghost use Rattle.tup_access.specs.declared.fault.AccessFault.TheVariants.{Memory};

    ghost from_gives = { λ _ fault. fault ≡ Memory };

    fn from(_: AllocError) -> AccessFault {
        AccessFault::Memory
    }
}

impl From<AccessFault> for ViewFailed {
    ghost use Rattle.std.specs.Prelude.{◌≡◌};
    ghost use Rattle.tup_runner.specs.declared.fault.ViewFailed.TheVariants.{Memory};

    ghost from_gives = { λ _ failed. failed ≡ Memory };

    fn from(_: AccessFault) -> ViewFailed {
        ViewFailed::Memory
    }
}
