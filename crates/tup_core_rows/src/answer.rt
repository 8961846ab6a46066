//! How answers of a course are written.
use std::alloc::Global;
use tup_access::Verdict;
use tup_core::CoreEvent;
use tup_rows::Words;
use tup_schedule::Claimed;

/// What a seat is to do next: the number of a rule, `wait` or `over`.
pub(crate) fn claimed_word(alloc: Global, claimed: Claimed) -> Words {
    match claimed {
        Claimed::Rule(rule) => Words::shown(alloc, &rule),
        Claimed::Wait => Words::word(alloc, b"wait"),
        Claimed::Over => Words::word(alloc, b"over"),
    }
}

/// A verdict in a word.
pub(crate) fn verdict_word(verdict: &Verdict) -> &'static [u8] {
    match verdict {
        Verdict::Good => b"good",
        Verdict::Failed(_) => b"failed",
        Verdict::IllegalRead(_) => b"read",
        Verdict::IllegalWrite(_) => b"write",
        Verdict::Unwritten(_) => b"unwritten",
        Verdict::TooManyReads => b"asks",
    }
}

/// All events, in their order.
pub(crate) fn show_events(alloc: Global, events: &[CoreEvent]) -> Words {
    let mut words = Words::new(alloc);
    for event in events {
        words.put(alloc, kind_of(event));
        words.show(alloc, &seat_of(event));
    }
    words
}

/// The kind of an event.
fn kind_of(event: &CoreEvent) -> &'static [u8] {
    match event {
        CoreEvent::Claim { .. } => b"claim",
        CoreEvent::Ask { .. } => b"ask",
        CoreEvent::Deny { .. } => b"deny",
        CoreEvent::Finish { verdict, .. } => verdict_word(verdict),
        CoreEvent::Stop { .. } => b"stop",
    }
}

/// The seat of an event.
fn seat_of(event: &CoreEvent) -> u32 {
    match event {
        CoreEvent::Claim { seat, .. }
        | CoreEvent::Ask { seat, .. }
        | CoreEvent::Deny { seat, .. }
        | CoreEvent::Finish { seat, .. }
        | CoreEvent::Stop { seat, .. } => *seat,
    }
}
