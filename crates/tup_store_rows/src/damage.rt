//! A store that is damaged at each of its places, by each byte and by a cut.
use crate::bytes::with_byte;
use crate::table::opened;
use std::alloc::Global;
use tup_rows::{RowFault, Words};
use tup_stamp::{Stamp, hex, stamp_of};

/// Reads a store once for each of its places with each byte there, and once cut before it: how many of these are read, how many
/// are refused, and the stamp of the stamps of their words.
pub fn damaged(alloc: Global, said: &Words, store: &[u8]) -> Words {
    let mut readings = Readings::new(alloc);
    for at in 0..store.len() {
        if let Some(front) = store.get(..at) {
            readings.read(alloc, front);
        }
        for byte in 0..=u8::MAX {
            readings.read(alloc, &with_byte(alloc, said, store, at, &[byte]));
        }
    }
    readings.told(alloc)
}

/// How readings ended.
#[derive(Drop)]
struct Readings {
    read: usize,
    refused: usize,
    stamps: Vec<u8>,
    /// What is told of them.
    words: Words,
}

impl Readings {
    fn new(alloc: Global) -> Readings {
        Readings {
            read: 0,
            refused: 0,
            stamps: Vec::new(alloc),
            words: Words::new(alloc),
        }
    }

    /// Reads bytes as a store.
    fn read(&mut self, alloc: Global, bytes: &[u8]) {
        let words = opened(alloc, bytes);
        if is_refusal(words.as_slice()) {
            self.refused = self.refused.saturating_add(1);
        } else {
            self.read = self.read.saturating_add(1);
        }
        let Some(stamp) = stamp(alloc, words.as_slice()) else {
            self.words.fail(RowFault::Memory);
            return;
        };
        let bytes = stamp.0;
        if self.stamps.extend_from_slice(&bytes).is_err() {
            self.words.fail(RowFault::Memory);
        }
    }

    fn told(mut self, alloc: Global) -> Words {
        self.words.show(alloc, &self.read);
        self.words.show(alloc, &self.refused);
        self.words.put(alloc, &hex(&stamp_of(&self.stamps)));
        self.words
    }
}

/// Whether words are those of a refusal.
fn is_refusal(words: &[Vec<u8>]) -> bool {
    matches!(words.first(), Some(word) if word.as_slice() == b"refused".as_slice())
}

/// The stamp of words, each with a line end behind it.
fn stamp(alloc: Global, words: &[Vec<u8>]) -> Option<Stamp> {
    let mut all = Vec::new(alloc);
    for word in words {
        if all.extend_from_slice(word).is_err() || all.push(b'\n').is_err() {
            return None;
        }
    }
    Some(stamp_of(&all))
}
