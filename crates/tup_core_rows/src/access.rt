//! The calls of `access.rows`.
use crate::answer::verdict_word;
use crate::values::{path, paths, text};
use std::alloc::Global;
use std::collections::BTreeSet;
use std::fs::Files;
use std::io;
use tup_access::{Access, Inputs, Verdict, allowed, judge};
use tup_path::{Bytes, Items, Path, Text};
use tup_rows::{Answers, RowFault, Words, try_file};
use tup_rule::Rule;
use tup_runner::Ended;

pub(crate) fn try_rows<R: Files + Print>(rt: &R, alloc: Global) -> io::Result<()> {
    try_file(rt, alloc, "access.rows", &mut Judge)
}

/// Knows the calls of tup_access.
#[derive(Drop)]
struct Judge;

impl Answers for Judge {
    fn answer(&mut self, alloc: Global, call: &str, said: &Words) -> Result<Words, RowFault> {
        let rule = rule(alloc)?;
        match call {
            "allowed" => access(alloc, said, &rule),
            "judge" => Ok(verdict(alloc, said, &rule)),
            _ => Err(RowFault::NoSuchCall),
        }
    }
}

/// The rule of all rows.
fn rule(alloc: Global) -> Result<Rule, RowFault> {
    let mut rule = bare(path(alloc, "src")?, text(alloc, "cc a.c")?, alloc);
    match declare(alloc, &mut rule) {
        Ok(()) => Ok(rule),
        Err(fault) => Err(fault),
    }
}

fn bare(dir: Path, text: Text, alloc: Global) -> Rule {
    Rule {
        dir,
        text,
        display: None,
        compare: false,
        inputs: Items::new(alloc),
        order: Items::new(alloc),
        outputs: Items::new(alloc),
    }
}

fn declare(alloc: Global, rule: &mut Rule) -> Result<(), RowFault> {
    rule.inputs = paths(alloc, "src/a.c inc/made.h")?;
    rule.order = paths(alloc, "inc/first.h")?;
    rule.outputs = paths(alloc, "src/a.o src/a.d")?;
    Ok(())
}

/// What the rules of the project make.
fn generated(alloc: Global) -> Result<BTreeSet<Path>, RowFault> {
    let mut set = BTreeSet::new(alloc);
    for path in paths(alloc, "src/a.o src/a.d inc/made.h inc/first.h inc/other.h")?.into_vec() {
        set.insert(path)?;
    }
    Ok(set)
}

fn access(alloc: Global, said: &Words, rule: &Rule) -> Result<Words, RowFault> {
    match u32::try_from(said.number_at(1)) {
        Ok(before) => Ok(access_after(alloc, said, (rule, &generated(alloc)?), before)),
        Err(_) => Err(RowFault::OtherKind),
    }
}

fn access_after(
    alloc: Global,
    said: &Words,
    (rule, made): (&Rule, &BTreeSet<Path>),
    before: u32,
) -> Words {
    match allowed(
        alloc,
        rule,
        &Inputs::few(),
        made,
        &said.text_at(alloc, 0),
        before,
    ) {
        Ok(Access::Yes(path)) => yes(alloc, &path),
        Ok(Access::No(verdict)) => told(alloc, &verdict),
        Err(_) => Words::none(alloc, RowFault::Memory),
    }
}

fn yes(alloc: Global, path: &Path) -> Words {
    let mut words = Words::word(alloc, b"yes");
    words.show(alloc, path);
    words
}

fn verdict(alloc: Global, said: &Words, rule: &Rule) -> Words {
    match judge(alloc, rule, &ended(alloc, said)) {
        Ok((verdict, files)) => with_files(alloc, &verdict, files.as_slice()),
        Err(_) => Words::none(alloc, RowFault::Memory),
    }
}

fn with_files(alloc: Global, verdict: &Verdict, files: &[(Path, Bytes)]) -> Words {
    let mut words = told(alloc, verdict);
    add_files(alloc, &mut words, files);
    words
}

/// Adds each file with its content.
pub(crate) fn add_files(alloc: Global, words: &mut Words, files: &[(Path, Bytes)]) {
    for (path, content) in files {
        words.show(alloc, path);
        words.put(alloc, content.as_slice());
    }
}

/// An end: its status, and then a text and a content for each write.
fn ended(alloc: Global, said: &Words) -> Ended {
    let mut writes = Items::new(alloc);
    for write in 0..said.len() / 2 {
        let to = said.text_at(alloc, 2 * write + 1);
        said.list(
            &mut writes,
            (to, Bytes::new(said.bytes_at(alloc, 2 * write + 2))),
        );
    }
    let status = status(said);
    Ended { status, writes }
}

fn status(said: &Words) -> u8 {
    match u8::try_from(said.number_at(0)) {
        Ok(status) => status,
        Err(_) => {
            said.fail(RowFault::OtherKind);
            0
        }
    }
}

/// A verdict as its name and what it speaks of.
fn told(alloc: Global, verdict: &Verdict) -> Words {
    let mut words = Words::word(alloc, verdict_word(verdict));
    match verdict {
        Verdict::Good | Verdict::TooManyReads => {}
        Verdict::Failed(status) => words.show(alloc, status),
        Verdict::IllegalRead(text) | Verdict::IllegalWrite(text) => words.show(alloc, text),
        Verdict::Unwritten(path) => words.show(alloc, path),
    }
    words
}
