//! The call of `differing.rows`.
use std::alloc::Global;
use std::fs::Files;
use std::io;
use tup_rows::{Answers, RowFault, Words, try_file};

pub(crate) fn try_rows<R: Files + Print>(rt: &R, alloc: Global) -> io::Result<()> {
    try_file(rt, alloc, "differing.rows", &mut Twice)
}

/// Knows `twice`, which gives its argument twice.
#[derive(Drop)]
struct Twice;

impl Answers for Twice {
    fn answer(&mut self, alloc: Global, call: &str, said: &Words) -> Result<Words, RowFault> {
        Ok(match call {
            "twice" => two(alloc, said),
            _ => Words::none(alloc, RowFault::NoSuchCall),
        })
    }
}

fn two(alloc: Global, said: &Words) -> Words {
    let mut words = Words::word(alloc, said.word_at(0));
    words.put(alloc, said.word_at(0));
    words
}
