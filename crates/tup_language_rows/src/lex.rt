//! The calls of `lex.rows`.
use crate::repeated;
use std::alloc::Global;
use std::fs::Files;
use std::io;
use tup_lex::{
    LexFault, Line, Lines, Parts, Span, last_line, line_number, lines, rule_parts, says_something,
    trimmed,
};
use tup_path::{Bytes, Text};
use tup_rows::{Answers, RowFault, Words, try_file};

pub(crate) fn try_rows<R: Files + Print>(rt: &R, alloc: Global) -> io::Result<()> {
    try_file(rt, alloc, "lex.rows", &mut Lex)
}

/// Knows the calls of tup_lex.
#[derive(Drop)]
struct Lex;

impl Answers for Lex {
    fn answer(&mut self, alloc: Global, call: &str, said: &Words) -> Result<Words, RowFault> {
        Ok(match call {
            "lines" => cut(alloc, said.bytes_at(alloc, 0), false),
            "long" => cut(alloc, repeated::file(alloc, said), true),
            "parts" => parts(alloc, &said.text_at(alloc, 0)),
            "trimmed" => Words::word(alloc, trimmed(said.str_at(0)).as_bytes()),
            "says" => Words::yes_or_no(alloc, says_something(said.str_at(0))),
            "last_line" => Words::shown(alloc, &last_line(said.word_at(0))),
            "line_number" => Words::shown(alloc, &line_number(said.number_at(0) as usize)),
            _ => Words::none(alloc, RowFault::NoSuchCall),
        })
    }
}

fn cut(alloc: Global, file: Vec<u8>, counted: bool) -> Words {
    match lines(alloc, &Bytes::new(file)) {
        Ok(all) => listed(alloc, &all, counted),
        Err(fault) => Words::refusal(alloc, &fault),
    }
}

/// Each line as its number and its text, or the count of its bytes.
fn listed(alloc: Global, all: &Lines, counted: bool) -> Words {
    let mut words = Words::new(alloc);
    for line in all.as_slice() {
        add_line(alloc, &mut words, line, counted);
    }
    words
}

fn add_line(alloc: Global, words: &mut Words, line: &Line, counted: bool) {
    words.show(alloc, &line.number);
    if counted {
        words.show(alloc, &line.text.as_str().len());
    } else {
        words.show(alloc, &line.text);
    }
}

fn parts(alloc: Global, rule: &Text) -> Words {
    if rule.as_str().len() > 65535 {
        return Words::none(alloc, RowFault::OtherKind);
    }
    match rule_parts(alloc, rule) {
        Ok(parts) => named(alloc, rule.as_str(), &parts),
        Err(fault) => Words::refusal(alloc, &fault),
    }
}

/// Each part of a rule as its kind, its place and its text.
fn named(alloc: Global, rule: &str, parts: &Parts) -> Words {
    let mut words = Words::new(alloc);
    if parts.foreach {
        words.put(alloc, b"foreach");
    }
    each(alloc, &mut words, "input", rule, parts.inputs.as_slice());
    each(alloc, &mut words, "order", rule, parts.order.as_slice());
    one(alloc, &mut words, "command", rule, &parts.command);
    each(alloc, &mut words, "output", rule, parts.outputs.as_slice());
    each(alloc, &mut words, "extra", rule, parts.extra.as_slice());
    maybe(alloc, &mut words, "group", rule, &parts.group);
    maybe(alloc, &mut words, "bin", rule, &parts.bin);
    words
}

fn each(alloc: Global, words: &mut Words, kind: &str, rule: &str, spans: &[Span]) {
    for span in spans {
        one(alloc, words, kind, rule, span);
    }
}

fn maybe(alloc: Global, words: &mut Words, kind: &str, rule: &str, span: &Option<Span>) {
    if let Some(span) = span {
        one(alloc, words, kind, rule, span);
    }
}

fn one(alloc: Global, words: &mut Words, kind: &str, rule: &str, span: &Span) {
    words.put(alloc, kind.as_bytes());
    words.show(alloc, &span.from);
    match rule.as_bytes().get(span.from as usize..span.to as usize) {
        Some(text) => words.put(alloc, text),
        None => words.fail(RowFault::OtherKind),
    }
}
