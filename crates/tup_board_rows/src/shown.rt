//! How answers of a board are written.
use std::alloc::Global;
use tup_access::Verdict;
use tup_board::{Asked, BoardFault, Claimed, Drained};
use tup_core::{Cause, CoreEvent};
use tup_rows::Words;

/// What a seat is to do next: the number of a rule, `wait` or `over`.
pub(crate) fn claimed_words(alloc: Global, claimed: Claimed) -> Words {
    match claimed {
        Claimed::Rule(rule) => Words::shown(alloc, &rule),
        Claimed::Wait => Words::word(alloc, b"wait"),
        Claimed::Over => Words::word(alloc, b"over"),
    }
}

/// What a command was told: a content, `-` where nothing stands, or the verdict.
pub(crate) fn asked_words(alloc: Global, asked: &Asked) -> Words {
    match asked {
        Asked::Content(content) => Words::word(alloc, content.as_slice()),
        Asked::Absent => Words::word(alloc, b"-"),
        Asked::Denied(verdict) => verdict_words(alloc, verdict),
    }
}

pub(crate) fn verdict_words(alloc: Global, verdict: &Verdict) -> Words {
    let mut words = Words::new(alloc);
    show_verdict(alloc, &mut words, verdict);
    words
}

/// What came of the end of a command.
pub(crate) fn ended_words(alloc: Global, ended: &Result<Verdict, BoardFault>) -> Words {
    match ended {
        Ok(verdict) => verdict_words(alloc, verdict),
        Err(fault) => fault_words(alloc, *fault),
    }
}

/// How an update ended: `done`, or why not.
pub(crate) fn drained_words(alloc: Global, drained: Drained) -> Words {
    match drained {
        Drained::Done => Words::word(alloc, b"done"),
        Drained::Left(cause) => cause_words(alloc, cause),
    }
}

fn cause_words(alloc: Global, cause: Cause) -> Words {
    let mut words = Words::new(alloc);
    show_cause(alloc, &mut words, cause);
    words
}

/// Why a call was refused.
pub(crate) fn fault_words(alloc: Global, fault: BoardFault) -> Words {
    match fault {
        BoardFault::Site => Words::word(alloc, b"!site"),
        BoardFault::TooLarge(bytes) => large_words(alloc, bytes),
        BoardFault::Full => Words::word(alloc, b"!full"),
        BoardFault::Memory => Words::word(alloc, b"!memory"),
    }
}

fn large_words(alloc: Global, bytes: u64) -> Words {
    let mut words = Words::word(alloc, b"!large");
    words.show(alloc, &bytes);
    words
}

/// A verdict: its word, and what it names.
fn show_verdict(alloc: Global, words: &mut Words, verdict: &Verdict) {
    match verdict {
        Verdict::Good => words.put(alloc, b"good"),
        Verdict::Failed(status) => {
            words.put(alloc, b"failed");
            words.show(alloc, status);
        }
        Verdict::IllegalRead(text) => {
            words.put(alloc, b"reads");
            words.show(alloc, text);
        }
        Verdict::IllegalWrite(text) => {
            words.put(alloc, b"writes");
            words.show(alloc, text);
        }
        Verdict::Unwritten(path) => {
            words.put(alloc, b"unwritten");
            words.show(alloc, path);
        }
        Verdict::TooManyReads => words.put(alloc, b"asks"),
    }
}

/// Why an update stopped.
pub(crate) fn show_cause(alloc: Global, words: &mut Words, cause: Cause) {
    match cause {
        Cause::Bad => words.put(alloc, b"bad"),
        Cause::Site => words.put(alloc, b"site"),
        Cause::TooLarge(bytes) => {
            words.put(alloc, b"large");
            words.show(alloc, &bytes);
        }
        Cause::Full => words.put(alloc, b"full"),
        Cause::Run => words.put(alloc, b"run"),
        Cause::Memory => words.put(alloc, b"memory"),
    }
}

/// An event: its kind, its seat and what more it has.
pub(crate) fn show_event(alloc: Global, words: &mut Words, event: &CoreEvent) {
    match event {
        CoreEvent::Claim { seat, rule } => {
            show_at(alloc, words, b"claim", *seat);
            words.show(alloc, rule);
        }
        CoreEvent::Ask { seat, text, answer } => {
            show_at(alloc, words, b"ask", *seat);
            words.show(alloc, text);
            words.put(alloc, presence(answer.is_some()));
        }
        CoreEvent::Deny {
            seat,
            text: _,
            verdict,
        } => {
            show_at(alloc, words, b"deny", *seat);
            show_verdict(alloc, words, verdict);
        }
        CoreEvent::Finish {
            seat,
            verdict,
            writes,
        } => {
            show_at(alloc, words, b"finish", *seat);
            show_verdict(alloc, words, verdict);
            words.show(alloc, &writes.len());
        }
        CoreEvent::Stop { seat, cause } => {
            show_at(alloc, words, b"stop", *seat);
            show_cause(alloc, words, *cause);
        }
    }
}

/// The kind of an event, and its seat.
fn show_at(alloc: Global, words: &mut Words, kind: &[u8], seat: u32) {
    words.put(alloc, kind);
    words.show(alloc, &seat);
}

fn presence(is_there: bool) -> &'static [u8] {
    if is_there { b"there" } else { b"absent" }
}
