//! A reporter that keeps what it is told.
ghost use Rattle.std.specs.Prelude.{◌≡◌, ◌≢◌, ◌++◌, ◌∷◌, [], Err, OnErr, OnOk};
ghost use Rattle.tup_tell.specs.Told.{FailsByCount};
ghost use Rattle.tup_tell.specs.declared.reporter.TellFailed.TheVariants.{Fault};

use crate::event::Event;
use crate::reporter::{Reporter, TellFailed};
use std::alloc::Global;

/// A reporter that keeps what it is told, and does nothing else. It never fails.
#[derive(Drop)]
pub struct Keep {
    events: Vec<Event>,
}

impl Keep {
    ghost use Rattle.tup_tell.specs.Reporters.{kept_by};

    /// A reporter that was told nothing yet.
    pub fn new(alloc: Global) -> Keep
        ensures { kept_by result ≡ [] }
    {
        Keep {
            events: Vec::new(alloc),
        }
    }
}

impl Reporter for Keep {
    ghost use Rattle.tup_tell.specs.Reporters.{kept_by};

    ghost told = { kept_by };

    ghost faults = { λ _. 0 };

    fn note(&mut self, _alloc: Global, event: &Event) -> Result<(), TellFailed>
        ensures told { OnOk result (kept_by self.new ≡ kept_by self.old ++ event.now ∷ []) }
        ensures untold { OnErr result (kept_by self.new ≡ kept_by self.old) }
        ensures cause { FailsByCount 0 0 result }

        ensures never { result ≢ Err Fault }
    {
        self.events.push(event.clone()?)?;
        Ok(())
    }

    fn told(&self) -> &[Event] {
        self.events.as_slice()
    }

    fn faults(&self) -> u64 {
        0
    }
}
