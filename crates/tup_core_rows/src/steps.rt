//! The calls of `steps.rows`.
use std::alloc::Global;
use tup_path::{Path, PathFault};
use tup_rows::{Answers, RowFault, Words};
use tup_strace::{Account, Answer, Step};

/// Knows the account of steps.
#[derive(Drop)]
pub(crate) struct Steps;

impl Answers for Steps {
    fn answer(&mut self, alloc: Global, call: &str, said: &Words) -> Result<Words, RowFault> {
        Ok(match call {
            "account" => account(alloc, said),
            _ => Words::none(alloc, RowFault::NoSuchCall),
        })
    }
}

/// The account of the steps of a text, which are parted by commas.
fn account(alloc: Global, said: &Words) -> Words {
    let mut account = Account::new(alloc);
    let mut words = Words::new(alloc);
    for text in said.str_at(0).split(", ") {
        add(alloc, &words, &mut account, text);
    }
    put_paths(alloc, &mut words, b"asks", account.asks.as_slice());
    put_paths(alloc, &mut words, b"touched", account.touched.as_slice());
    put_paths(alloc, &mut words, b"own", account.own.as_slice());
    put_paths(alloc, &mut words, b"found", account.found.as_slice());
    put_paths(alloc, &mut words, b"missed", account.missed.as_slice());
    words
}

fn put_paths(alloc: Global, words: &mut Words, front: &[u8], paths: &[Path]) {
    words.put(alloc, front);
    for path in paths {
        words.show(alloc, path);
    }
}

/// Adds the step that a text says; want of memory, and what is none, is noted.
fn add(alloc: Global, words: &Words, account: &mut Account, text: &str) {
    match step_of(alloc, text) {
        Ok(step) => take(words, account, &step),
        Err(fault) => words.fail(fault),
    }
}

fn take(words: &Words, account: &mut Account, step: &Step) {
    if account.add(step).is_err() {
        words.fail(RowFault::Memory);
    }
}

/// The step that words say: what is done, and one path or two.
fn step_of(alloc: Global, text: &str) -> Result<Step, RowFault> {
    let (verb, rest) = parted(text);
    let (one, two) = parted(rest);
    match verb {
        "ask" => Ok(Step::Ask(path_of(alloc, one)?, Answer::Unclear)),
        "find" => Ok(Step::Ask(path_of(alloc, one)?, Answer::Found)),
        "miss" => Ok(Step::Ask(path_of(alloc, one)?, Answer::Missed)),
        "write" => Ok(Step::Write(path_of(alloc, one)?)),
        "change" => Ok(Step::Change(path_of(alloc, one)?)),
        "remove" => Ok(Step::Remove(path_of(alloc, one)?)),
        "move" => moved(path_of(alloc, one), path_of(alloc, two)),
        _ => Err(RowFault::NoSuchCall),
    }
}

fn moved(from: Result<Path, RowFault>, to: Result<Path, RowFault>) -> Result<Step, RowFault> {
    match (from, to) {
        (Ok(from), Ok(to)) => Ok(Step::Move { from, to }),
        (Err(fault), _) => Err(fault),
        (_, Err(fault)) => Err(fault),
    }
}

/// A text up to its first blank, and behind it.
fn parted(text: &str) -> (&str, &str) {
    match text.split_once(' ') {
        Some(parts) => parts,
        None => (text, ""),
    }
}

fn path_of(alloc: Global, text: &str) -> Result<Path, RowFault> {
    match Path::from_top(alloc, text) {
        Ok(path) => Ok(path),
        Err(PathFault::Memory) => Err(RowFault::Memory),
        Err(_) => Err(RowFault::OtherKind),
    }
}
