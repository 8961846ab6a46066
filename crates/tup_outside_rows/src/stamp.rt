//! The calls of `stamp.rows`.
use crate::repeated::repeated;
use std::alloc::Global;
use std::fs::Files;
use std::io;
use tup_rows::{Answers, RowFault, Words, try_file};
use tup_stamp::{Stamp, hex, stamp_of};

pub(crate) fn try_rows<R: Files + Print>(rt: &R, alloc: Global) -> io::Result<()> {
    try_file(rt, alloc, "stamp.rows", &mut StampRows)
}

/// Knows the calls of tup_stamp.
#[derive(Drop)]
struct StampRows;

impl Answers for StampRows {
    fn answer(&mut self, alloc: Global, call: &str, said: &Words) -> Result<Words, RowFault> {
        Ok(match call {
            "stamp" => digits(alloc, stamp_of(said.word_at(0))),
            "stamp_long" => digits(alloc, stamp_of(&repeated(alloc, said))),
            "hex" => hex_of(alloc, said),
            _ => Words::none(alloc, RowFault::NoSuchCall),
        })
    }
}

fn digits(alloc: Global, stamp: Stamp) -> Words {
    Words::word(alloc, &hex(&stamp))
}

/// The digits of a stamp that is given by its bytes.
fn hex_of(alloc: Global, said: &Words) -> Words {
    match said.word_at(0).try_into() {
        Ok(bytes) => digits(alloc, Stamp(bytes)),
        Err(_) => Words::none(alloc, RowFault::OtherKind),
    }
}
