//! Why a log isn't read or written.
use std::alloc::{AllocError, AllocFailed};
use thiserror::Error;

/// Why a log isn't read or written.
#[derive(Clone, Copy, Debug, PartialEq, Eq, Error)]
pub enum LogFault {
    /// The first line that doesn't fit, from 1; it is the line behind the last where the log has no end. The number
    /// stands still at the last `u32`.
    #[error("line {line} doesn't fit")]
    BadLine { line: u32 },
    /// There was no memory; nothing is known of the log.
    #[error("no memory")]
    Memory,
}

impl From<AllocError> for LogFault {
    ghost use Rattle.std.specs.Prelude.{◌≡◌};
    ghost use Rattle.tup_proc.specs.declared.fault.LogFault.TheVariants.{Memory};

    ghost from_gives = { λ _ fault. fault ≡ Memory };

    fn from(_: AllocError) -> LogFault {
        LogFault::Memory
    }
}

impl<T: Drop> From<AllocFailed<T>> for LogFault {
    ghost use Rattle.std.specs.Prelude.{◌≡◌};
    ghost use Rattle.tup_proc.specs.declared.fault.LogFault.TheVariants.{Memory};

    ghost from_gives = { λ _ fault. fault ≡ Memory };

    fn from(_: AllocFailed<T>) -> LogFault {
        LogFault::Memory
    }
}
