//! Why a name isn't defined, found or added to.
use std::alloc::{AllocError, AllocFailed};
use thiserror::Error;

/// Why a name isn't defined, found or added to.
#[derive(Clone, Copy, Debug, PartialEq, Eq, Error)]
pub enum MacroFault {
    /// No macro has this name.
    #[error("no such macro")]
    NoSuchMacro,
    /// Nothing was given to a bin of this name.
    #[error("no such bin")]
    NoSuchBin,
    /// A macro of this name is there already.
    #[error("macro defined twice")]
    DefinedTwice,
    /// There was no memory; the table is as it was.
    #[error("no memory")]
    Memory,
}

impl From<AllocError> for MacroFault {
    ghost use Rattle.std.specs.Prelude.{◌≡◌};
    ghost use Rattle.tup_macro.specs.declared.fault.MacroFault.TheVariants.{Memory};

    ghost from_gives = { λ _ fault. fault ≡ Memory };

    fn from(_: AllocError) -> MacroFault {
        MacroFault::Memory
    }
}

impl<T: Drop> From<AllocFailed<T>> for MacroFault {
    ghost use Rattle.std.specs.Prelude.{◌≡◌};
    ghost use Rattle.tup_macro.specs.declared.fault.MacroFault.TheVariants.{Memory};

    ghost from_gives = { λ _ fault. fault ≡ Memory };

    fn from(_: AllocFailed<T>) -> MacroFault {
        MacroFault::Memory
    }
}
