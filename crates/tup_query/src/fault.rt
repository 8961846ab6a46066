//! Why a folder's Tupfile isn't read.
use std::alloc::{AllocError, AllocFailed};
use thiserror::Error;
use tup_lex::ParseKind;
use tup_path::Path;
use tup_vars::Stopped;

/// Why a reading ends without rules.
#[derive(Clone, Debug, Drop, Error)]
pub enum ReadEnd {
    /// A file has a fault; the first one is named.
    #[error("{0}")]
    Fault(ParseFault),
    /// Who answers has stopped, and keeps the cause.
    #[error("a question isn't answered")]
    Stopped,
    /// There was no memory; nothing is known of the rules.
    #[error("no memory")]
    Memory,
}

/// A fault in a file that says what to build.
#[derive(Clone, Debug, Drop, Error)]
#[error("{file}:{line}: {kind}, read for {dir}")]
pub struct ParseFault {
    /// The folder for which the file was read.
    pub dir: Path,
    /// The file.
    pub file: Path,
    /// The line, counted from 1.
    pub line: u32,
    /// What is wrong there.
    pub kind: ParseKind,
}

impl From<AllocError> for ReadEnd {
    ghost use Rattle.std.specs.Prelude.{◌≡◌};
    ghost use Rattle.tup_query.specs.declared.fault.ReadEnd.TheVariants.{Memory};

    ghost from_gives = { λ _ end. end ≡ Memory };

    /// Want of memory.
    fn from(_: AllocError) -> ReadEnd {
        ReadEnd::Memory
    }
}

impl<T: Drop> From<AllocFailed<T>> for ReadEnd {
    ghost use Rattle.std.specs.Prelude.{◌≡◌};
    ghost use Rattle.tup_query.specs.declared.fault.ReadEnd.TheVariants.{Memory};

    ghost from_gives = { λ _ end. end ≡ Memory };

    /// Want of memory; the value is let go.
    fn from(_: AllocFailed<T>) -> ReadEnd {
        ReadEnd::Memory
    }
}

impl From<Stopped> for ReadEnd {
    ghost use Rattle.std.specs.Prelude.{◌≡◌};
    ghost use Rattle.tup_query.specs.declared.fault.ReadEnd.TheVariants.{Stopped as WasStopped};

    ghost from_gives = { λ _ end. end ≡ WasStopped };

    /// A stop.
    fn from(_: Stopped) -> ReadEnd {
        ReadEnd::Stopped
    }
}
