//! The calls of `glob.rows`.
use crate::repeated;
use std::alloc::Global;
use std::fs::Files;
use std::io;
use tup_glob::{Glob, GlobFault};
use tup_lex::Span;
use tup_path::Text;
use tup_rows::{Answers, RowFault, Words, try_file};

pub(crate) fn try_rows<R: Files + Print>(rt: &R, alloc: Global) -> io::Result<()> {
    try_file(rt, alloc, "glob.rows", &mut Globs)
}

/// Knows the calls of tup_glob.
#[derive(Drop)]
struct Globs;

impl Answers for Globs {
    fn answer(&mut self, alloc: Global, call: &str, said: &Words) -> Result<Words, RowFault> {
        Ok(match call {
            "matches" => matches(alloc, said, &said.text_at(alloc, 1)),
            "matches_many" => matches(alloc, said, &many(alloc, said)),
            "part" => part(alloc, said),
            "plain" => plain(alloc, said),
            _ => Words::none(alloc, RowFault::NoSuchCall),
        })
    }
}

/// The pattern that the first argument is.
fn read(alloc: Global, said: &Words) -> Result<Glob, GlobFault> {
    Glob::read(alloc, &said.text_at(alloc, 0))
}

fn many(alloc: Global, said: &Words) -> Text {
    let (letter, count) = (said.str_at(1), said.number_at(2));
    repeated::text(alloc, said, ("", letter, count, ""))
}

fn matches(alloc: Global, said: &Words, name: &Text) -> Words {
    match read(alloc, said) {
        Ok(glob) => Words::yes_or_no(alloc, glob.matches(name)),
        Err(fault) => refused(alloc, fault),
    }
}

fn plain(alloc: Global, said: &Words) -> Words {
    match read(alloc, said) {
        Ok(glob) => Words::yes_or_no(alloc, glob.is_plain()),
        Err(fault) => refused(alloc, fault),
    }
}

/// The bytes at which the part of the first operator begins and ends, and the part.
fn part(alloc: Global, said: &Words) -> Words {
    let name = said.text_at(alloc, 1);
    match read(alloc, said) {
        Ok(glob) => part_of(alloc, &glob, &name),
        Err(fault) => refused(alloc, fault),
    }
}

fn part_of(alloc: Global, glob: &Glob, name: &Text) -> Words {
    if name.as_str().len() > 65535 {
        return Words::none(alloc, RowFault::OtherKind);
    }
    match glob.matched_part(name) {
        Some(span) => placed(alloc, name.as_str(), span),
        None => Words::word(alloc, b"none"),
    }
}

fn placed(alloc: Global, name: &str, span: Span) -> Words {
    let mut words = Words::shown(alloc, &span.from);
    words.show(alloc, &span.to);
    match name.as_bytes().get(span.from as usize..span.to as usize) {
        Some(part) => words.put(alloc, part),
        None => words.fail(RowFault::OtherKind),
    }
    words
}

/// Want of memory is no answer.
fn refused(alloc: Global, fault: GlobFault) -> Words {
    match fault {
        GlobFault::Memory => Words::none(alloc, RowFault::Memory),
        fault => Words::refusal(alloc, &fault),
    }
}
