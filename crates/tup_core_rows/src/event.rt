//! Events, as rows spell them.
use crate::values;
use std::alloc::Global;
use tup_access::Verdict;
use tup_core::{Cause, CoreEvent, Stamps};
use tup_path::{Items, Path, Text};
use tup_rows::RowFault;
use tup_stamp::{Stamp, stamp_of};

/// The event that some words spell: its kind, its seat and what more it has.
pub(crate) fn event(alloc: Global, words: &[Vec<u8>]) -> Result<CoreEvent, RowFault> {
    match words {
        [kind, seat, more @ ..] => of_kind(alloc, str(kind)?, number(seat)?, more),
        _ => Err(RowFault::TooFew),
    }
}

/// An event of this kind, at this seat.
fn of_kind(alloc: Global, kind: &str, seat: u32, more: &[Vec<u8>]) -> Result<CoreEvent, RowFault> {
    match kind {
        "claim" => claim(seat, more),
        "ask" => ask(alloc, seat, more),
        "deny" => deny(alloc, seat, more),
        "finish" => finish(alloc, seat, more),
        "stop" => stop(seat, more),
        _ => Err(RowFault::OtherKind),
    }
}

/// A claim of a rule.
fn claim(seat: u32, more: &[Vec<u8>]) -> Result<CoreEvent, RowFault> {
    match more {
        [rule] => Ok(CoreEvent::Claim {
            seat,
            rule: number(rule)?,
        }),
        _ => Err(RowFault::OtherKind),
    }
}

/// An ask, and the content that it is answered.
fn ask(alloc: Global, seat: u32, more: &[Vec<u8>]) -> Result<CoreEvent, RowFault> {
    match more {
        [asked, content] => Ok(CoreEvent::Ask {
            seat,
            text: text(alloc, asked)?,
            answer: answer(content),
        }),
        _ => Err(RowFault::OtherKind),
    }
}

/// An ask that is refused, and what becomes of it.
fn deny(alloc: Global, seat: u32, more: &[Vec<u8>]) -> Result<CoreEvent, RowFault> {
    match more {
        [asked, kind, of] => Ok(CoreEvent::Deny {
            seat,
            text: text(alloc, asked)?,
            verdict: verdict(alloc, kind, of)?,
        }),
        _ => Err(RowFault::OtherKind),
    }
}

/// The end of a command, and what it wrote.
fn finish(alloc: Global, seat: u32, more: &[Vec<u8>]) -> Result<CoreEvent, RowFault> {
    match more {
        [kind, of, writes @ ..] => Ok(CoreEvent::Finish {
            seat,
            verdict: verdict(alloc, kind, of)?,
            writes: stamps(alloc, writes)?,
        }),
        _ => Err(RowFault::OtherKind),
    }
}

/// A stop, and why.
fn stop(seat: u32, more: &[Vec<u8>]) -> Result<CoreEvent, RowFault> {
    match more {
        [why] => Ok(CoreEvent::Stop {
            seat,
            cause: cause(why)?,
        }),
        _ => Err(RowFault::OtherKind),
    }
}

/// The stamp of a content; `-` stands for no file.
fn answer(content: &[u8]) -> Option<Stamp> {
    match content {
        b"-" => None,
        _ => Some(stamp_of(content)),
    }
}

/// A verdict, and what it speaks of, which is `-` where it speaks of nothing.
fn verdict(alloc: Global, kind: &[u8], of: &[u8]) -> Result<Verdict, RowFault> {
    match str(kind)? {
        "good" => Ok(Verdict::Good),
        "failed" => failed(of),
        "read" => illegal_read(alloc, of),
        "write" => illegal_write(alloc, of),
        "unwritten" => unwritten(alloc, of),
        "asks" => Ok(Verdict::TooManyReads),
        _ => Err(RowFault::OtherKind),
    }
}

fn failed(of: &[u8]) -> Result<Verdict, RowFault> {
    match status(of) {
        Ok(status) => Ok(Verdict::Failed(status)),
        Err(fault) => Err(fault),
    }
}

fn illegal_read(alloc: Global, of: &[u8]) -> Result<Verdict, RowFault> {
    match text(alloc, of) {
        Ok(text) => Ok(Verdict::IllegalRead(text)),
        Err(fault) => Err(fault),
    }
}

fn illegal_write(alloc: Global, of: &[u8]) -> Result<Verdict, RowFault> {
    match text(alloc, of) {
        Ok(text) => Ok(Verdict::IllegalWrite(text)),
        Err(fault) => Err(fault),
    }
}

fn unwritten(alloc: Global, of: &[u8]) -> Result<Verdict, RowFault> {
    match path(alloc, of) {
        Ok(path) => Ok(Verdict::Unwritten(path)),
        Err(fault) => Err(fault),
    }
}

/// Files with their stamps: a path and a content for each.
fn stamps(alloc: Global, words: &[Vec<u8>]) -> Result<Stamps, RowFault> {
    let mut stamps = Items::new(alloc);
    for file in words.chunks(2) {
        add_stamp(alloc, &mut stamps, file)?;
    }
    Ok(stamps)
}

fn add_stamp(alloc: Global, stamps: &mut Stamps, file: &[Vec<u8>]) -> Result<(), RowFault> {
    match stamp(alloc, file) {
        Ok(stamp) => Ok(stamps.push(stamp)?),
        Err(fault) => Err(fault),
    }
}

/// A file with the stamp of its content.
fn stamp(alloc: Global, file: &[Vec<u8>]) -> Result<(Path, Stamp), RowFault> {
    match file {
        [to, content] => Ok((path(alloc, to)?, stamp_of(content))),
        _ => Err(RowFault::TooFew),
    }
}

/// Why an update stops.
fn cause(word: &[u8]) -> Result<Cause, RowFault> {
    match str(word)? {
        "bad" => Ok(Cause::Bad),
        "site" => Ok(Cause::Site),
        "large" => Ok(Cause::TooLarge(1)),
        "full" => Ok(Cause::Full),
        "run" => Ok(Cause::Run),
        "memory" => Ok(Cause::Memory),
        _ => Err(RowFault::OtherKind),
    }
}

/// A word as text.
fn str(word: &[u8]) -> Result<&str, RowFault> {
    match str::from_utf8(word) {
        Ok(text) => Ok(text),
        Err(_) => Err(RowFault::OtherKind),
    }
}

/// A word as a number.
fn number(word: &[u8]) -> Result<u32, RowFault> {
    match str(word)?.parse() {
        Ok(number) => Ok(number),
        Err(_) => Err(RowFault::OtherKind),
    }
}

/// A word as an exit status.
fn status(word: &[u8]) -> Result<u8, RowFault> {
    match u8::try_from(number(word)?) {
        Ok(status) => Ok(status),
        Err(_) => Err(RowFault::OtherKind),
    }
}

/// A word as a text to keep.
fn text(alloc: Global, word: &[u8]) -> Result<Text, RowFault> {
    values::text(alloc, str(word)?)
}

/// The path that a word names from the top.
fn path(alloc: Global, word: &[u8]) -> Result<Path, RowFault> {
    values::path(alloc, str(word)?)
}
