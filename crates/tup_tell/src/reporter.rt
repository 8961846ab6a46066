//! Who is told what an update did.
ghost use Rattle.std.specs.Prelude.{◌≡◌, ◌++◌, ◌∷◌, [], ℕ, List, OnErr, OnOk};
ghost use Rattle.tup_tell.specs.declared.event.Event.{Event as EventValue};
ghost use Rattle.tup_tell.specs.Told.{FailsByCount};

use crate::event::Event;
use crate::sink::SinkFailed;
use std::alloc::{AllocError, AllocFailed, Global};
use thiserror::Error;

/// Why a reporter wasn't told an event.
#[derive(Clone, Copy, Debug, PartialEq, Eq, Error)]
pub enum TellFailed {
    /// The reporter failed; it counts these.
    #[error("the reporter failed")]
    Fault,
    /// There was no memory.
    #[error("no memory")]
    Memory,
}

impl From<AllocError> for TellFailed {
    ghost use Rattle.std.specs.Prelude.{◌≡◌};
    ghost use Rattle.tup_tell.specs.declared.reporter.TellFailed.TheVariants.{Memory};

    ghost from_gives = { λ _ failed. failed ≡ Memory };

    fn from(_: AllocError) -> TellFailed {
        TellFailed::Memory
    }
}

impl<T: Drop> From<AllocFailed<T>> for TellFailed {
    ghost use Rattle.std.specs.Prelude.{◌≡◌};
    ghost use Rattle.tup_tell.specs.declared.reporter.TellFailed.TheVariants.{Memory};

    ghost from_gives = { λ _ failed. failed ≡ Memory };

    fn from(_: AllocFailed<T>) -> TellFailed {
        TellFailed::Memory
    }
}

impl From<SinkFailed> for TellFailed {
    ghost use Rattle.std.specs.Prelude.{◌≡◌};
    ghost use Rattle.tup_tell.specs.Told.{of_sink};

    ghost from_gives = { λ failed as_told. as_told ≡ of_sink failed };

    fn from(failed: SinkFailed) -> TellFailed {
        match failed {
            SinkFailed::Fault => TellFailed::Fault,
            SinkFailed::Memory => TellFailed::Memory,
        }
    }
}

/// Somebody who is told what an update did, one event after another, and who keeps what it was told.
///
/// Every reporter counts its faults: the count rises with each answer `Fault`, and with no other. After a refusal it wasn't
/// told the event.
pub trait Reporter: Drop {
    /// The events that it was told, in their order.
    ghost told: { Self → List EventValue };

    /// How often it failed; it stands still at the last `u64`.
    ghost faults: { Self → ℕ };

    /// Tells it an event.
    fn note(&mut self, alloc: Global, event: &Event) -> Result<(), TellFailed>
        ensures told { OnOk result (told self.new ≡ told self.old ++ event.now ∷ []) }
        ensures untold { OnErr result (told self.new ≡ told self.old) }
        ensures cause { FailsByCount (faults self.old) (faults self.new) result };

    /// The events that it was told, in their order.
    fn told(&self) -> &[Event]
        ensures { result.now ≡ told self.now };

    /// How often it failed.
    fn faults(&self) -> u64
        ensures { result ≡ faults self.now };
}
