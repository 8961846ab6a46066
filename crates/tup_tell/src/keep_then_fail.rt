//! A reporter that fails once it was told so many events, for tests.
ghost use Rattle.std.specs.Prelude.{◌≡◌, ◌↔◌, ◌≤◌, ◌++◌, ◌∷◌, [], IsErrOf, OnErr, OnOk, length};
ghost use Rattle.tup_tell.specs.Told.{FailsByCount};
ghost use Rattle.tup_tell.specs.declared.reporter.TellFailed.TheVariants.{Fault};

use crate::event::Event;
use crate::keep::Keep;
use crate::reporter::{Reporter, TellFailed};
use std::alloc::Global;

/// A reporter that keeps so many events, and fails from then on.
#[derive(Drop)]
pub struct KeepThenFail {
    kept: Keep,
    most: u64,
    faults: u64,
}

impl KeepThenFail {
    ghost use Rattle.tup_tell.specs.Reporters.{failed_so_often, kept_until, most_of};

    /// A reporter that was told nothing yet and will keep so many events.
    pub fn new(alloc: Global, most: u64) -> KeepThenFail
        ensures empty { kept_until result ≡ [] }
        ensures most { most_of result ≡ most }
        ensures faultless { failed_so_often result ≡ 0 }
    {
        KeepThenFail {
            kept: Keep::new(alloc),
            most,
            faults: 0,
        }
    }
}

impl Reporter for KeepThenFail {
    ghost use Rattle.tup_tell.specs.Reporters.{failed_so_often, kept_until, most_of};

    ghost told = { kept_until };

    ghost faults = { failed_so_often };

    fn note(&mut self, alloc: Global, event: &Event) -> Result<(), TellFailed>
        ensures told { OnOk result (kept_until self.new ≡ kept_until self.old ++ event.now ∷ []) }
        ensures untold { OnErr result (kept_until self.new ≡ kept_until self.old) }
        ensures cause { FailsByCount (failed_so_often self.old) (failed_so_often self.new) result }

        // It fails just where it keeps as many as it may.
        ensures fault { IsErrOf result Fault ↔ (most_of self.old ≤ length (kept_until self.old)) }
        ensures most { most_of self.new ≡ most_of self.old }
    {
        if self.kept.told().len() as u64 >= self.most {
            self.faults = self.faults.saturating_add(1);
            return Err(TellFailed::Fault);
        }
        self.kept.note(alloc, event)
    }

    fn told(&self) -> &[Event] {
        self.kept.told()
    }

    fn faults(&self) -> u64 {
        self.faults
    }
}
