//! Why a part of a rule isn't copied.
use std::alloc::AllocError;
use thiserror::Error;

/// Why a part of a rule isn't copied.
#[derive(Clone, Copy, Debug, PartialEq, Eq, Error)]
pub enum RuleFault {
    /// There was no memory; nothing was made.
    #[error("no memory")]
    Memory,
}

impl From<AllocError> for RuleFault {
    ghost use Rattle.std.specs.Prelude.{◌≡◌};
    ghost use Rattle.tup_rule.specs.declared.fault.RuleFault.TheVariants.{Memory};

    ghost from_gives = { λ _ fault. fault ≡ Memory };

    fn from(_: AllocError) -> RuleFault {
        RuleFault::Memory
    }
}
