//! The calls of `lines.rows`.
use std::alloc::Global;
use tup_path::Items;
use tup_rows::{Answers, RowFault, Words};
use tup_strace::{Act, Answer, acts_of};
use tup_trace::{Call, Token, calls, unquoted};

/// Knows the calls of tup_trace, and what calls do.
#[derive(Drop)]
pub(crate) struct Lines;

impl Answers for Lines {
    fn answer(&mut self, alloc: Global, call: &str, said: &Words) -> Result<Words, RowFault> {
        Ok(match call {
            "unquoted" => text_of(alloc, said),
            "calls" => calls_of(alloc, said),
            "acts" => acts(alloc, said),
            _ => Words::none(alloc, RowFault::NoSuchCall),
        })
    }
}

/// The text that was written in quotes so.
fn text_of(alloc: Global, said: &Words) -> Words {
    match unquoted(alloc, said.word_at(0)) {
        Ok(Some(text)) => Words::word(alloc, text.as_slice()),
        Ok(None) => Words::word(alloc, b"none"),
        Err(fault) => Words::refusal(alloc, &fault),
    }
}

/// The calls of a trace, a word for each part and a line's end between them.
fn calls_of(alloc: Global, said: &Words) -> Words {
    match calls(alloc, said.word_at(0)) {
        Ok(calls) => shown(alloc, calls.as_slice()),
        Err(fault) => Words::refusal(alloc, &fault),
    }
}

fn shown(alloc: Global, calls: &[Call]) -> Words {
    let mut words = Words::new(alloc);
    for call in calls {
        words.put(alloc, call.process.as_slice());
        words.put(alloc, call.name.as_slice());
        put_parts(alloc, &mut words, call.parts.as_slice());
        words.put(alloc, b";");
    }
    words
}

fn put_parts(alloc: Global, words: &mut Words, parts: &[Token]) {
    for part in parts {
        put_part(alloc, words, part);
    }
}

fn put_part(alloc: Global, words: &mut Words, part: &Token) {
    match part {
        Token::Word(word) => words.put(alloc, word.as_slice()),
        Token::Quoted(text) => {
            words.put(alloc, b"text");
            words.put(alloc, text.as_slice());
        }
        Token::Place(path) => {
            words.put(alloc, b"at");
            words.put(alloc, path.as_slice());
        }
    }
}

/// What the calls of a trace do that begin in a folder.
fn acts(alloc: Global, said: &Words) -> Words {
    let dir = said.word_at(0);
    match calls(alloc, said.word_at(1)) {
        Ok(calls) => acted(alloc, dir, &calls),
        Err(fault) => Words::refusal(alloc, &fault),
    }
}

fn acted(alloc: Global, dir: &[u8], calls: &Items<Call>) -> Words {
    match acts_of(alloc, dir, calls.as_slice()) {
        Ok(acts) => shown_acts(alloc, acts.as_slice()),
        Err(fault) => Words::refusal(alloc, &fault),
    }
}

fn shown_acts(alloc: Global, acts: &[Act]) -> Words {
    let mut words = Words::new(alloc);
    for act in acts {
        put_act(alloc, &mut words, act);
    }
    words
}

fn put_act(alloc: Global, words: &mut Words, act: &Act) {
    match act {
        Act::Ask {
            place,
            follows,
            answer,
        } => {
            put(alloc, words, ask_word(*follows), place.as_slice());
            put_answer(alloc, words, *answer);
        }
        Act::Run { place } => put(alloc, words, b"run", place.as_slice()),
        Act::Write { place, .. } => put(alloc, words, b"write", place.as_slice()),
        Act::Change { place, .. } => put(alloc, words, b"change", place.as_slice()),
        Act::Remove { place } => put(alloc, words, b"remove", place.as_slice()),
        Act::Move { from, to } => {
            put(alloc, words, b"move", from.as_slice());
            words.put(alloc, to.as_slice());
        }
    }
}

fn ask_word(follows: bool) -> &'static [u8] {
    if follows { b"ask" } else { b"look" }
}

fn put_answer(alloc: Global, words: &mut Words, answer: Answer) {
    match answer {
        Answer::Found => words.put(alloc, b"found"),
        Answer::Missed => words.put(alloc, b"missed"),
        Answer::Unclear => {}
    }
}

fn put(alloc: Global, words: &mut Words, verb: &[u8], place: &[u8]) {
    words.put(alloc, verb);
    words.put(alloc, place);
}
