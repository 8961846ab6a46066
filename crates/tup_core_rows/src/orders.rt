//! What rows say to a course.
use crate::answer::{claimed_word, show_events, verdict_word};
use crate::desk::{Desk, Told};
use std::alloc::Global;
use tup_core::Cause;
use tup_rows::{RowFault, Words};
use tup_stamp::{Stamp, stamp_of};

/// Does what a row says, and answers it.
pub(crate) fn obey(alloc: Global, desk: &mut Desk, call: &str, said: &Words) -> Words {
    match call {
        "claim" => claim(alloc, desk, seat_in(said)),
        "ask" => ask(alloc, desk, seat_in(said), said),
        "good" => good(alloc, desk, seat_in(said), said),
        "failed" => failed(alloc, desk, seat_in(said), said),
        "denied" => denied(alloc, desk, seat_in(said)),
        "stop" => stop(alloc, desk, seat_in(said)),
        "runs" => runs(alloc, desk, seat_in(said)),
        "file" => file(alloc, desk, said),
        "state" => state(alloc, desk),
        "events" => show_events(alloc, desk.course.history()),
        _ => Words::none(alloc, RowFault::NoSuchCall),
    }
}

/// The seat of a row.
fn seat_in(said: &Words) -> u32 {
    (said.number_at(0) & 0xff) as u32
}

/// A seat takes the first rule that is ready; `busy` where there is no such seat, or it runs one.
fn claim(alloc: Global, desk: &mut Desk, seat: u32) -> Words {
    match desk.claim(seat) {
        Some(claimed) => claimed_word(alloc, claimed),
        None => Words::word(alloc, b"busy"),
    }
}

/// The command at a seat asks for a text. The answer is the path, where it is told the stamp of this content; `other` where
/// it is told another, and the verdict where it is denied.
fn ask(alloc: Global, desk: &mut Desk, seat: u32, said: &Words) -> Words {
    let content = said.word_at(2);
    match desk.ask(alloc, seat, &said.text_at(alloc, 1)) {
        Ok(Told::File(path, told)) if told == stamp_in(content) => Words::shown(alloc, &path),
        Ok(Told::File(_, _)) => Words::word(alloc, b"other"),
        Ok(Told::Denied(verdict)) => Words::word(alloc, verdict_word(&verdict)),
        Ok(Told::Idle) => Words::word(alloc, b"idle"),
        Err(_) => Words::none(alloc, RowFault::Memory),
    }
}

/// The stamp of a content; `-` stands for no file.
fn stamp_in(content: &[u8]) -> Option<Stamp> {
    match content {
        b"-" => None,
        _ => Some(stamp_of(content)),
    }
}

/// The command at a seat ends Good, and each of its outputs has this content.
fn good(alloc: Global, desk: &mut Desk, seat: u32, said: &Words) -> Words {
    let stamp = stamp_of(said.word_at(1));
    match desk.going(seat) {
        Some(number) => done(alloc, desk.end_well(alloc, seat, number, stamp).is_ok()),
        None => Words::word(alloc, b"idle"),
    }
}

/// The command at a seat ends with a status that isn't 0.
fn failed(alloc: Global, desk: &mut Desk, seat: u32, said: &Words) -> Words {
    let status = (said.number_at(1) & 0x7f) as u8;
    match desk.going(seat) {
        Some(_) => done(alloc, desk.fail(alloc, seat, status.max(1)).is_ok()),
        None => Words::word(alloc, b"idle"),
    }
}

/// `ok`, or that there was no memory.
fn done(alloc: Global, is_done: bool) -> Words {
    if is_done {
        Words::done(alloc)
    } else {
        Words::none(alloc, RowFault::Memory)
    }
}

/// A command that was denied an ask ends, with this verdict.
fn denied(alloc: Global, desk: &mut Desk, seat: u32) -> Words {
    if !desk.was_denied(seat) {
        return Words::word(alloc, b"idle");
    }
    desk.end_denied(seat);
    Words::word(alloc, verdict_word(desk.course.last_verdict()))
}

/// All stops at a seat.
fn stop(alloc: Global, desk: &mut Desk, seat: u32) -> Words {
    desk.stop(seat, Cause::Memory);
    Words::done(alloc)
}

/// The number of the rule that a seat runs, and how often its command asked.
fn runs(alloc: Global, desk: &Desk, seat: u32) -> Words {
    match desk.course.running(seat) {
        Some(running) => {
            let mut words = Words::shown(alloc, &running.rule);
            words.show(alloc, &running.asks.len());
            words
        }
        None => Words::word(alloc, b"idle"),
    }
}

/// Whether the file at a path has this content, as far as the course knows.
fn file(alloc: Global, desk: &Desk, said: &Words) -> Words {
    let content = said.word_at(1);
    Words::yes_or_no(
        alloc,
        desk.file(&said.path_at(alloc, 0)) == stamp_in(content),
    )
}

/// Whether all is stopped, and whether a verdict was bad.
fn state(alloc: Global, desk: &Desk) -> Words {
    let mut words = Words::yes_or_no(alloc, desk.course.stopped().is_some());
    words.put(
        alloc,
        if desk.course.has_bad() {
            b"bad".as_slice()
        } else {
            b"-"
        },
    );
    words
}
