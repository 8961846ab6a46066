//! The calls of `sweep.rows`: a store that is damaged at each of its places in turn.
use crate::bytes::{joined, with_byte};
use crate::graph::add_graph;
use std::alloc::Global;
use tup_rows::{Answers, RowFault, Words};
use tup_stamp::{hex, stamp_of};

/// A store, whose damages are read.
#[derive(Drop)]
pub struct Sweeps {
    store: Vec<u8>,
}

impl Answers for Sweeps {
    fn answer(&mut self, alloc: Global, call: &str, said: &Words) -> Result<Words, RowFault> {
        Ok(match call {
            "store" => self.set_store(alloc, said),
            "each" => self.each(alloc, said),
            "cut" => self.cut(alloc),
            _ => Words::none(alloc, RowFault::NoSuchCall),
        })
    }
}

impl Sweeps {
    /// An empty store.
    pub fn new(alloc: Global) -> Sweeps {
        Sweeps {
            store: Vec::new(alloc),
        }
    }

    fn set_store(&mut self, alloc: Global, said: &Words) -> Words {
        self.store = joined(alloc, said, said.as_slice());
        Words::shown(alloc, &self.store.len())
    }

    /// Reads the store with this byte at each place in turn.
    fn each(&self, alloc: Global, said: &Words) -> Words {
        let mut ends = Ends::new(alloc, &self.store);
        for at in 0..self.store.len() {
            ends.read(
                alloc,
                &with_byte(alloc, said, &self.store, at, said.word_at(0)),
            );
        }
        ends.told(alloc)
    }

    /// Reads the store cut at each place in turn.
    fn cut(&self, alloc: Global) -> Words {
        let mut ends = Ends::new(alloc, &self.store);
        for length in 0..self.store.len() {
            if let Some(front) = self.store.get(..length) {
                ends.read(alloc, front);
            }
        }
        ends.told(alloc)
    }
}

/// How readings of damaged stores end, one after another.
#[derive(Drop)]
struct Ends {
    /// What the store holds without damage.
    whole: Words,
    /// How many readings ended one way, and which; then the next ones.
    runs: Words,
    /// The way of the last readings, and how many they are.
    last: Vec<u8>,
    count: usize,
    /// The words of all readings.
    all: Vec<u8>,
}

impl Ends {
    fn new(alloc: Global, store: &[u8]) -> Ends {
        Ends {
            whole: graph_in(alloc, store),
            runs: Words::new(alloc),
            last: Vec::new(alloc),
            count: 0,
            all: Vec::new(alloc),
        }
    }

    /// Reads a store, and adds how that ended.
    fn read(&mut self, alloc: Global, store: &[u8]) {
        let words = graph_in(alloc, store);
        self.keep(words.as_slice());
        let way = way(&self.whole, &words);
        self.add(alloc, way);
    }

    /// Adds all words of a reading, each with a line end behind it.
    fn keep(&mut self, words: &[Vec<u8>]) {
        for word in words {
            if self.all.extend_from_slice(word).is_err() || self.all.push(b'\n').is_err() {
                self.runs.fail(RowFault::Memory);
            }
        }
    }

    fn add(&mut self, alloc: Global, way: &[u8]) {
        if self.last.as_slice() == way {
            self.count = self.count.saturating_add(1);
            return;
        }
        self.close(alloc);
        match Vec::from_slice(alloc, way) {
            Ok(way) => self.last = way,
            Err(_) => self.runs.fail(RowFault::Memory),
        }
        self.count = 1;
    }

    /// Tells the last readings, if there are any.
    fn close(&mut self, alloc: Global) {
        if self.count > 0 {
            let count = self.count;
            self.runs.show(alloc, &count);
            self.runs.put(alloc, &self.last);
        }
    }

    /// The ways of all readings, and the stamp of all their words.
    fn told(mut self, alloc: Global) -> Words {
        self.close(alloc);
        let stamp = hex(&stamp_of(&self.all));
        self.runs.put(alloc, &stamp);
        self.runs
    }
}

/// The graph that a store holds, or why it holds none.
fn graph_in(alloc: Global, store: &[u8]) -> Words {
    let mut words = Words::new(alloc);
    add_graph(alloc, &mut words, store);
    words
}

/// How a reading ended: with the graph of the whole store, with another one, or refused for a reason.
fn way<'a>(whole: &Words, words: &'a Words) -> &'a [u8] {
    match words.as_slice() {
        [refused, reason] if refused.as_slice() == b"refused".as_slice() => reason.as_slice(),
        words if words == whole.as_slice() => b"same",
        _ => b"another",
    }
}
