//! The calls of `kept.rows`.
use std::alloc::Global;
use std::fs::File;
use std::io::Read;
use std::{io, str};
use tup_path::{Bytes, Path};
use tup_rows::{Answers, RowFault, Words};
use tup_strace::{Account, Act, Answer, Step, acts_of};
use tup_trace::{Call, calls};

/// Knows the kept traces, and what their commands ask for and write.
#[derive(Drop)]
pub(crate) struct Kept {
    pub(crate) rt: HostRuntime,
}

impl Answers for Kept {
    fn answer(&mut self, alloc: Global, call: &str, said: &Words) -> Result<Words, RowFault> {
        Ok(match call {
            "account" => self.account(alloc, said),
            _ => Words::none(alloc, RowFault::NoSuchCall),
        })
    }
}

impl Kept {
    /// What the command of a kept trace asks for and writes, in a folder that no link leads through.
    fn account(&self, alloc: Global, said: &Words) -> Words {
        let dir = said.word_at(1);
        match self.read(alloc, said.str_at(0)) {
            Ok(trace) => accounted(alloc, dir, trace.as_slice()),
            Err(fault) => Words::refusal(alloc, &fault),
        }
    }

    /// The bytes of a kept trace.
    fn read(&self, alloc: Global, name: &str) -> io::Result<Vec<u8>> {
        let mut bytes = Vec::new(alloc);
        File::open(&self.rt, name)?.read_to_end(&mut bytes)?;
        Ok(bytes)
    }
}

fn accounted(alloc: Global, dir: &[u8], trace: &[u8]) -> Words {
    match calls(alloc, trace) {
        Ok(calls) => followed(alloc, dir, calls.as_slice()),
        Err(fault) => Words::refusal(alloc, &fault),
    }
}

fn followed(alloc: Global, dir: &[u8], calls: &[Call]) -> Words {
    match acts_of(alloc, dir, calls) {
        Ok(acts) => told(alloc, dir, acts.as_slice()),
        Err(fault) => Words::refusal(alloc, &fault),
    }
}

fn told(alloc: Global, dir: &[u8], acts: &[Act]) -> Words {
    let mut account = Account::new(alloc);
    let mut words = Words::new(alloc);
    for act in acts {
        if let Some(step) = step_of(alloc, dir, act) {
            add(&words, &mut account, &step);
        }
    }
    put_paths(alloc, &mut words, b"asks", account.asks.as_slice());
    put_paths(alloc, &mut words, b"touched", account.touched.as_slice());
    words
}

/// Adds a step; want of memory is noted.
fn add(words: &Words, account: &mut Account, step: &Step) {
    if account.add(step).is_err() {
        words.fail(RowFault::Memory);
    }
}

fn put_paths(alloc: Global, words: &mut Words, front: &[u8], paths: &[Path]) {
    words.put(alloc, front);
    for path in paths {
        words.show(alloc, path);
    }
}

/// The step of an act in the folder.
fn step_of(alloc: Global, dir: &[u8], act: &Act) -> Option<Step> {
    match act {
        Act::Ask { place, answer, .. } => Some(Step::Ask(path_of(alloc, dir, place)?, *answer)),
        Act::Run { place } => Some(Step::Ask(path_of(alloc, dir, place)?, Answer::Unclear)),
        Act::Write { place, .. } => Some(Step::Write(path_of(alloc, dir, place)?)),
        Act::Change { place, .. } => Some(Step::Change(path_of(alloc, dir, place)?)),
        Act::Remove { place } => Some(Step::Remove(path_of(alloc, dir, place)?)),
        Act::Move { from, to } => moved(path_of(alloc, dir, from), path_of(alloc, dir, to)),
    }
}

fn moved(from: Option<Path>, to: Option<Path>) -> Option<Step> {
    match (from, to) {
        (Some(from), Some(to)) => Some(Step::Move { from, to }),
        _ => None,
    }
}

/// The path of a place below the folder.
fn path_of(alloc: Global, dir: &[u8], place: &Bytes) -> Option<Path> {
    let rest = place
        .as_slice()
        .strip_prefix(dir)?
        .strip_prefix(b"/".as_slice())?;
    Path::from_top(alloc, str::from_utf8(rest).ok()?).ok()
}
