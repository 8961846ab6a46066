//! Why a command goes no further.
use std::alloc::{AllocError, AllocFailed};
use tup_runner::{RunFailed, ViewFailed};

/// Why a command goes no further.
#[derive(Clone, Copy)]
pub(crate) enum Stopped {
    /// It ends with this status.
    Status(u8),
    /// It can't be run on.
    Failed(RunFailed),
}

impl From<AllocError> for Stopped {
    ghost use Rattle.std.specs.Prelude.{◌≡◌};
    ghost use Rattle.tup_mini.specs.declared.stopped.Stopped.TheVariants.{Failed};
    ghost use Rattle.tup_runner.specs.declared.fault.RunFailed.TheVariants.{Memory};

    ghost from_gives = { λ _ stopped. stopped ≡ Failed Memory };

    fn from(_: AllocError) -> Stopped {
        Stopped::Failed(RunFailed::Memory)
    }
}

impl<T: Drop> From<AllocFailed<T>> for Stopped {
    ghost use Rattle.std.specs.Prelude.{◌≡◌};
    ghost use Rattle.tup_mini.specs.declared.stopped.Stopped.TheVariants.{Failed};
    ghost use Rattle.tup_runner.specs.declared.fault.RunFailed.TheVariants.{Memory};

    ghost from_gives = { λ _ stopped. stopped ≡ Failed Memory };

    fn from(_: AllocFailed<T>) -> Stopped {
        Stopped::Failed(RunFailed::Memory)
    }
}

impl From<ViewFailed> for Stopped {
    ghost use Rattle.std.specs.Prelude.{◌≡◌};
    ghost use Rattle.tup_mini.specs.declared.stopped.Stopped.TheVariants.{Failed};
    ghost use Rattle.tup_runner.specs.Refusal.{run_failed};

    ghost from_gives = { λ failed stopped. stopped ≡ Failed (run_failed failed) };

    fn from(failed: ViewFailed) -> Stopped {
        Stopped::Failed(RunFailed::from(failed))
    }
}
