//! The calls of `mini.rows`.
use crate::made::{asks, itself, nested, own, writes};
use crate::values::text;
use std::alloc::Global;
use std::fs::Files;
use std::io;
use tup_given::Replies;
use tup_mini::Mini;
use tup_path::{Bytes, Items, Path, Text};
use tup_rows::{Answers, RowFault, Words, try_file};
use tup_runner::{Answer, Asks, Ended, RunFailed, Runner, Stamped};

pub(crate) fn try_rows<R: Files + Print>(rt: &R, alloc: Global) -> io::Result<()> {
    try_file(rt, alloc, "mini.rows", &mut Commands)
}

/// Knows the calls of tup_mini.
#[derive(Drop)]
struct Commands;

impl Answers for Commands {
    fn answer(&mut self, alloc: Global, call: &str, said: &Words) -> Result<Words, RowFault> {
        Ok(match call {
            "run" => run(alloc, said),
            "words" => cut(alloc, said),
            "sized" => sized(alloc, said),
            "asks" => asks(alloc, said),
            "own" => own(alloc, said),
            "nested" => nested(alloc, said),
            "itself" => itself(alloc, said),
            "writes" => writes(alloc, said),
            _ => Words::none(alloc, RowFault::NoSuchCall),
        })
    }
}

/// A command in a folder, and then a text and its answer for each ask.
fn run(alloc: Global, said: &Words) -> Words {
    let dir = said.path_at(alloc, 0);
    ran(alloc, &dir, &said.text_at(alloc, 1), asks_of(alloc, said))
}

fn asks_of(alloc: Global, said: &Words) -> Asks {
    let mut replies = Items::new(alloc);
    for pair in 1..said.len() / 2 {
        let asked = said.text_at(alloc, 2 * pair);
        said.list(&mut replies, (asked, answer_at(alloc, said, 2 * pair + 1)));
    }
    replies
}

fn answer_at(alloc: Global, said: &Words, at: usize) -> Answer {
    match said.word_at(at) {
        b"-" => Answer::Absent,
        _ => content(said.bytes_at(alloc, at)),
    }
}

/// `asks` and the text that was denied, or `ends`, the status and what was written; and `unasked` where replies are left.
fn ran(alloc: Global, dir: &Path, command: &Text, asks: Asks) -> Words {
    let mut replies = Replies::new(asks);
    let mut words = match Mini::new(alloc).run(alloc, dir, command, &mut replies) {
        Ok(ended) => end(alloc, &ended),
        Err(fault) => denied(alloc, fault, &mut replies),
    };
    if replies.asked() < replies.len() {
        words.put(alloc, b"unasked");
    }
    words
}

fn denied(alloc: Global, fault: RunFailed, replies: &mut Replies) -> Words {
    if matches!(&fault, RunFailed::Memory) {
        return Words::none(alloc, RowFault::Memory);
    }
    let mut words = Words::word(alloc, b"asks");
    if let Some(denied) = replies.take_denied() {
        words.show(alloc, &denied);
    }
    words
}

fn end(alloc: Global, ended: &Ended) -> Words {
    let mut words = Words::word(alloc, b"ends");
    words.show(alloc, &ended.status);
    for (to, content) in ended.writes.as_slice() {
        words.show(alloc, to);
        words.put(alloc, content.as_slice());
    }
    words
}

fn cut(alloc: Global, said: &Words) -> Words {
    match tup_mini::words(alloc, &said.text_at(alloc, 0)) {
        Ok(found) => listed(alloc, &found),
        Err(_) => Words::none(alloc, RowFault::Memory),
    }
}

fn listed(alloc: Global, texts: &[Text]) -> Words {
    let mut words = Words::new(alloc);
    for text in texts {
        words.show(alloc, text);
    }
    words
}

/// The answer that these bytes are.
fn content(bytes: Vec<u8>) -> Answer {
    Answer::Content(Stamped::new(Bytes::new(bytes)))
}

/// The status of a command that was answered so many bytes.
fn sized(alloc: Global, said: &Words) -> Words {
    let mut bytes = Vec::new(alloc);
    if bytes.resize(said.number_at(1) as usize, 7).is_err() {
        said.fail(RowFault::Memory);
    }
    let mut replies = Items::new(alloc);
    match text(alloc, "a") {
        Ok(name) => said.list(&mut replies, (name, content(bytes))),
        Err(fault) => said.fail(fault),
    }
    counted(alloc, &said.text_at(alloc, 0), replies)
}

/// The status of a command at the top, how often it asked and how much it wrote.
pub(crate) fn counted(alloc: Global, command: &Text, asks: Asks) -> Words {
    let mut replies = Replies::new(asks);
    match Mini::new(alloc).run(alloc, &Path::top(alloc), command, &mut replies) {
        Ok(ended) => counts(alloc, &ended, replies.asked()),
        Err(fault) => denied(alloc, fault, &mut replies),
    }
}

fn counts(alloc: Global, ended: &Ended, asked: usize) -> Words {
    let mut words = Words::shown(alloc, &ended.status);
    words.show(alloc, &asked);
    words.show(alloc, &ended.writes.len());
    words
}
