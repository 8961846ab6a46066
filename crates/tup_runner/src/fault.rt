//! Why a file isn't answered for, and why a command isn't run to its end.
use std::alloc::{AllocError, AllocFailed};
use thiserror::Error;

/// Why a view doesn't answer.
#[derive(Clone, Copy, Debug, PartialEq, Eq, Error)]
pub enum ViewFailed {
    /// The command may not ask for this file.
    #[error("the command may not ask for this file")]
    Denied,
    /// The files can't be reached.
    #[error("the files can't be reached")]
    Fault,
    /// There was no memory.
    #[error("no memory")]
    Memory,
}

/// Why a command isn't run to its end.
#[derive(Clone, Copy, Debug, PartialEq, Eq, Error)]
pub enum RunFailed {
    /// The view denied a file; the command asked for nothing after that.
    #[error("the command asked for a file that it may not ask for")]
    Denied,
    /// The view failed; the command asked for nothing after that.
    #[error("the files can't be reached")]
    View,
    /// The runner failed, and its count of faults rose.
    #[error("the command can't be run")]
    Fault,
    /// There was no memory.
    #[error("no memory")]
    Memory,
}

impl From<ViewFailed> for RunFailed {
    ghost use Rattle.std.specs.Prelude.{◌≡◌};
    ghost use Rattle.tup_runner.specs.Refusal.{run_failed};

    ghost from_gives = { λ failed fault. fault ≡ run_failed failed };

    fn from(failed: ViewFailed) -> RunFailed {
        match failed {
            ViewFailed::Denied => RunFailed::Denied,
            ViewFailed::Fault => RunFailed::View,
            ViewFailed::Memory => RunFailed::Memory,
        }
    }
}

impl From<AllocError> for RunFailed {
    ghost use Rattle.std.specs.Prelude.{◌≡◌};
    ghost use Rattle.tup_runner.specs.declared.fault.RunFailed.TheVariants.{Memory};

    ghost from_gives = { λ _ fault. fault ≡ Memory };

    fn from(_: AllocError) -> RunFailed {
        RunFailed::Memory
    }
}

impl<T: Drop> From<AllocFailed<T>> for RunFailed {
    ghost use Rattle.std.specs.Prelude.{◌≡◌};
    ghost use Rattle.tup_runner.specs.declared.fault.RunFailed.TheVariants.{Memory};

    ghost from_gives = { λ _ fault. fault ≡ Memory };

    fn from(_: AllocFailed<T>) -> RunFailed {
        RunFailed::Memory
    }
}

impl From<AllocError> for ViewFailed {
    ghost use Rattle.std.specs.Prelude.{◌≡◌};
    ghost use Rattle.tup_runner.specs.declared.fault.ViewFailed.TheVariants.{Memory};

    ghost from_gives = { λ _ fault. fault ≡ Memory };

    fn from(_: AllocError) -> ViewFailed {
        ViewFailed::Memory
    }
}

impl<T: Drop> From<AllocFailed<T>> for ViewFailed {
    ghost use Rattle.std.specs.Prelude.{◌≡◌};
    ghost use Rattle.tup_runner.specs.declared.fault.ViewFailed.TheVariants.{Memory};

    ghost from_gives = { λ _ fault. fault ≡ Memory };

    fn from(_: AllocFailed<T>) -> ViewFailed {
        ViewFailed::Memory
    }
}
