//! The calls of `graph.rows`: they read graphs.
use crate::bytes::joined;
use crate::changes::put;
use crate::say::{Say, named};
use std::alloc::Global;
use std::fmt::Display;
use tup_graph::{GraphFault, Nodes, read_graph};
use tup_path::Items;
use tup_rows::{Answers, RowFault, Words};
use tup_table::{Change, Entries, TableFault, appended, have_short_keys, read};

/// How a store begins, and the open gate of its first commit.
pub const BEGIN: [u8; 18] = *b"tup-db2\x01\x00\x00\x00\x00\x00\x00\x00\x00\x00\x01";

/// Reads graphs.
#[derive(Drop)]
pub struct Graphs;

impl Answers for Graphs {
    fn answer(&mut self, alloc: Global, call: &str, said: &Words) -> Result<Words, RowFault> {
        Ok(match call {
            "store" => graph_of(alloc, &joined(alloc, said, said.as_slice())),
            "graph" => graph_of(alloc, &store(alloc, said, said.as_slice())),
            _ => Words::none(alloc, RowFault::NoSuchCall),
        })
    }
}

/// The bytes of a store with one commit, which puts these keys and values.
pub fn store(alloc: Global, said: &Words, pairs: &[Vec<u8>]) -> Vec<u8> {
    let mut puts = Items::new(alloc);
    for pair in pairs.chunks(2) {
        match pair {
            [key, value] => said.list(&mut puts, put(alloc, said, key, value)),
            _ => said.fail(RowFault::TooFew),
        }
    }
    let mut bytes = Vec::new(alloc);
    add_bytes(said, &mut bytes, &BEGIN);
    add_commit(alloc, said, &mut bytes, puts.as_slice());
    bytes
}

/// Adds a commit and the gate behind it to a store, which ends with an open gate.
fn add_commit(alloc: Global, said: &Words, bytes: &mut Vec<u8>, changes: &[Change]) {
    if !have_short_keys(changes) {
        return said.fail(RowFault::OtherKind);
    }
    match appended(alloc, 17, changes) {
        Ok(more) => add_bytes(said, bytes, more.as_slice()),
        Err(_) => said.fail(RowFault::Memory),
    }
}

fn add_bytes(said: &Words, bytes: &mut Vec<u8>, more: &[u8]) {
    if bytes.extend_from_slice(more).is_err() {
        said.fail(RowFault::Memory);
    }
}

/// The graph that a store holds, in words.
fn graph_of(alloc: Global, bytes: &[u8]) -> Words {
    let mut words = Words::new(alloc);
    add_graph(alloc, &mut words, bytes);
    words
}

/// Adds the graph that a store holds, or why it holds none.
pub fn add_graph(alloc: Global, words: &mut Words, bytes: &[u8]) {
    match read(alloc, bytes) {
        Ok(opened) => {
            add_graph_in(alloc, words, &opened.entries);
            drop(opened);
        }
        Err(TableFault::Memory) => words.fail(RowFault::Memory),
        Err(fault) => add_refusal(alloc, words, &fault),
    }
}

fn add_graph_in(alloc: Global, words: &mut Words, entries: &Entries) {
    match read_graph(alloc, entries) {
        Ok((graph, prints)) => {
            graph.say(alloc, words);
            drop((graph, prints));
        }
        Err(GraphFault::Memory) => words.fail(RowFault::Memory),
        Err(fault) => add_refusal(alloc, words, &fault),
    }
}

fn add_refusal<D: Display>(alloc: Global, words: &mut Words, fault: &D) {
    words.put(alloc, b"refused");
    words.show(alloc, fault);
}

impl Say for Nodes {
    fn say(&self, alloc: Global, words: &mut Words) {
        say_files(alloc, words, self);
        say_readings(alloc, words, self);
        say_rules(alloc, words, self);
        say_owned(alloc, words, self);
    }
}

/// The files that were seen, each with its stamp.
fn say_files(alloc: Global, words: &mut Words, graph: &Nodes) {
    words.put(alloc, b"seen");
    for (path, stamp) in graph.files() {
        path.say(alloc, words);
        if graph.seen(path) == Some(*stamp) {
            stamp.say(alloc, words);
        }
    }
}

/// The readings of folders, and the folders that are to be read.
fn say_readings(alloc: Global, words: &mut Words, graph: &Nodes) {
    words.put(alloc, b"readings");
    for (dir, reading) in graph.readings() {
        dir.say(alloc, words);
        if graph.reading(dir) == Some(reading) {
            reading.say(alloc, words);
        }
    }
    words.put(alloc, b"created");
    for (dir, ()) in graph.created() {
        if graph.is_created(dir) {
            dir.say(alloc, words);
        }
    }
}

/// The commands of the rules, each with its run and whether it is flagged.
fn say_rules(alloc: Global, words: &mut Words, graph: &Nodes) {
    words.put(alloc, b"rules");
    for (rule, number) in graph.rules().iter().zip(0..u32::MAX) {
        rule.text.say(alloc, words);
        if graph.flagged(number) {
            words.put(alloc, b"flagged");
        }
        if let Some(run) = graph.run_of(number) {
            named(alloc, words, "ran", run);
        }
    }
}

/// The owned paths, each with its maker and its state.
fn say_owned(alloc: Global, words: &mut Words, graph: &Nodes) {
    words.put(alloc, b"owned");
    for (path, owned) in graph.owned() {
        path.say(alloc, words);
        if graph.owner(path) == Some(*owned) {
            owned.maker.say(alloc, words);
            owned.state.say(alloc, words);
        }
    }
}
