//! A reporter that counts events by their kind.
ghost use Rattle.std.specs.Prelude.{◌≡◌, ◌≢◌, ◌++◌, ◌∷◌, [], Err, OnErr, OnOk, count_by};
ghost use Rattle.tup_tell.specs.Told as specs;
ghost use Rattle.tup_tell.specs.Told.{FailsByCount};
ghost use Rattle.tup_tell.specs.declared.reporter.TellFailed.TheVariants.{Fault};

use crate::event::Event;
use crate::keep::Keep;
use crate::reporter::{Reporter, TellFailed};
use std::alloc::Global;

/// What an event tells of.
#[derive(Clone, Copy)]
enum Kind {
    Read,
    Removed,
    Started,
    Ended,
}

/// A reporter that counts events by their kind. It never fails.
#[derive(Drop)]
pub struct Tally {
    kept: Keep,
}

impl Tally {
    ghost use Rattle.tup_tell.specs.Reporters.{tallied_by};

    /// A reporter that was told nothing yet.
    pub fn new(alloc: Global) -> Tally
        ensures { tallied_by result ≡ [] }
    {
        Tally {
            kept: Keep::new(alloc),
        }
    }

    /// How many events of each kind it was told, in the order in which `Event` has them.
    pub fn counts(&self) -> [u64; 4]
        ensures { result ≡ specs.counts_of (tallied_by self.now) }
    {
        let events = self.kept.told();
        [
            count(events, Kind::Read),
            count(events, Kind::Removed),
            count(events, Kind::Started),
            count(events, Kind::Ended),
        ]
    }
}

/// How many events are of a kind.
fn count(events: &[Event], kind: Kind) -> u64
    ensures { result ≡ count_by (specs.is_of kind) events.now }
{
    let mut found = 0;
    for event in events {
        if is_of(kind, event) {
            found += 1;
        }
    }
    found
}

/// Whether an event is of a kind.
fn is_of(kind: Kind, event: &Event) -> bool
    ensures { result ≡ specs.is_of kind event.now }
{
    match kind {
        Kind::Read => matches!(event, Event::Read { .. }),
        Kind::Removed => matches!(event, Event::Removed { .. }),
        Kind::Started => matches!(event, Event::Started { .. }),
        Kind::Ended => matches!(event, Event::Ended { .. }),
    }
}

impl Reporter for Tally {
    ghost use Rattle.tup_tell.specs.Reporters.{tallied_by};

    ghost told = { tallied_by };

    ghost faults = { λ _. 0 };

    fn note(&mut self, alloc: Global, event: &Event) -> Result<(), TellFailed>
        ensures told { OnOk result (tallied_by self.new ≡ tallied_by self.old ++ event.now ∷ []) }
        ensures untold { OnErr result (tallied_by self.new ≡ tallied_by self.old) }
        ensures cause { FailsByCount 0 0 result }

        ensures never { result ≢ Err Fault }
    {
        self.kept.note(alloc, event)
    }

    fn told(&self) -> &[Event] {
        self.kept.told()
    }

    fn faults(&self) -> u64 {
        0
    }
}
