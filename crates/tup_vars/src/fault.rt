//! Why a text isn't expanded, a variable isn't set, or a tup.config isn't read.
use crate::lookup::Stopped;
use std::alloc::{AllocError, AllocFailed};
use thiserror::Error;
use tup_lex::ParseKind;

/// Why variables or conditionals refuse a call.
#[derive(Clone, Copy, Debug, PartialEq, Eq, Error)]
pub enum VarFault {
    /// A `$(` or `@(` without a `)` behind it.
    #[error("unclosed bracket")]
    Unclosed,
    /// An `else` without an open conditional, or a second one.
    #[error("else without if")]
    StrayElse,
    /// An `endif` without an open conditional.
    #[error("endif without if")]
    StrayEndif,
    /// A conditional is left open; the outermost one begins in this line.
    #[error("if without endif in line {line}")]
    MissingEndif { line: u32 },
    /// A name that isn't one, or that isn't free to be used so.
    #[error("bad name")]
    BadName,
    /// A text would have more than 1,048,576 bytes.
    #[error("a text too long")]
    TooLong,
    /// More than 64 conditionals would be open.
    #[error("nested too deep")]
    TooDeep,
    /// The lookup has stopped; it keeps its own cause.
    #[error("the lookup has stopped")]
    Stopped,
    /// There was no memory.
    #[error("no memory")]
    Memory,
}

impl From<AllocError> for VarFault {
    ghost use Rattle.std.specs.Prelude.{◌≡◌};
    ghost use Rattle.tup_vars.specs.declared.fault.VarFault.TheVariants.{Memory};

    ghost from_gives = { λ _ fault. fault ≡ Memory };

    fn from(_: AllocError) -> VarFault {
        VarFault::Memory
    }
}

impl<T: Drop> From<AllocFailed<T>> for VarFault {
    ghost use Rattle.std.specs.Prelude.{◌≡◌};
    ghost use Rattle.tup_vars.specs.declared.fault.VarFault.TheVariants.{Memory};

    ghost from_gives = { λ _ fault. fault ≡ Memory };

    fn from(_: AllocFailed<T>) -> VarFault {
        VarFault::Memory
    }
}

impl From<Stopped> for VarFault {
    ghost use Rattle.std.specs.Prelude.{◌≡◌};
    ghost use Rattle.tup_vars.specs.declared.fault.VarFault.TheVariants.{Stopped};

    ghost from_gives = { λ _ fault. fault ≡ Stopped };

    fn from(_: Stopped) -> VarFault {
        VarFault::Stopped
    }
}

/// Why a tup.config isn't read.
#[derive(Debug, PartialEq, Eq, Drop, Error)]
pub enum ConfigFault {
    /// What is wrong with a line: `NotUtf8`, `LineTooLong` or `ConfigLine`.
    #[error("line {line}: {kind}")]
    At { line: u32, kind: ParseKind },
    /// There was no memory; nothing is known of the file.
    #[error("no memory")]
    Memory,
}

impl From<AllocError> for ConfigFault {
    ghost use Rattle.std.specs.Prelude.{◌≡◌};
    ghost use Rattle.tup_vars.specs.declared.fault.ConfigFault.TheVariants.{Memory};

    ghost from_gives = { λ _ fault. fault ≡ Memory };

    fn from(_: AllocError) -> ConfigFault {
        ConfigFault::Memory
    }
}

impl<T: Drop> From<AllocFailed<T>> for ConfigFault {
    ghost use Rattle.std.specs.Prelude.{◌≡◌};
    ghost use Rattle.tup_vars.specs.declared.fault.ConfigFault.TheVariants.{Memory};

    ghost from_gives = { λ _ fault. fault ≡ Memory };

    fn from(_: AllocFailed<T>) -> ConfigFault {
        ConfigFault::Memory
    }
}
