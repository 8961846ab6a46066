//! Changes of a store, and how a row names them.
use crate::bytes::bytes;
use std::alloc::Global;
use tup_path::{Bytes, Items};
use tup_rows::{RowFault, Words};
use tup_table::{Change, Entries, Entry, TableFault};

/// The changes that words name, three each.
pub fn changes_of(alloc: Global, said: &Words, words: &[Vec<u8>]) -> Items<Change> {
    let mut changes = Items::new(alloc);
    for words in words.chunks(3) {
        match change(alloc, said, words) {
            Some(change) => said.list(&mut changes, change),
            None => said.fail(RowFault::OtherKind),
        }
    }
    changes
}

/// The change that three words name.
fn change(alloc: Global, said: &Words, words: &[Vec<u8>]) -> Option<Change> {
    match words {
        [kind, key, value] => change_of(alloc, said, kind, (key, value)),
        _ => None,
    }
}

fn change_of(alloc: Global, said: &Words, kind: &[u8], pair: (&[u8], &[u8])) -> Option<Change> {
    match kind {
        b"put" => Some(put(alloc, said, pair.0, pair.1)),
        b"delete" => Some(Change::Delete {
            key: bytes(alloc, said, pair.0),
        }),
        _ => None,
    }
}

/// A key and the value that is put at it.
pub fn put(alloc: Global, said: &Words, key: &[u8], value: &[u8]) -> Change {
    Change::Put {
        key: bytes(alloc, said, key),
        value: bytes(alloc, said, value),
    }
}

/// Adds each key with its value and its origin, in byte order of keys.
pub fn add_entries(alloc: Global, words: &mut Words, entries: &Entries) {
    for (key, slot) in entries.iter() {
        if let Some(entry) = slot {
            add_entry(alloc, words, entries, (key, entry));
        }
    }
}

fn add_entry(alloc: Global, words: &mut Words, entries: &Entries, (key, entry): (&Bytes, &Entry)) {
    words.put(alloc, key.as_slice());
    words.put(alloc, entry.value.as_slice());
    words.show(alloc, &entry.origin);
    if entries.get(key) != Some(&entry.value) || entries.origin(key) != Some(entry.origin) {
        words.put(alloc, b"not found");
    }
}

/// The words of a refusal; want of memory is no answer.
pub fn refused(alloc: Global, fault: TableFault) -> Words {
    match fault {
        TableFault::Memory => Words::none(alloc, RowFault::Memory),
        fault => Words::refusal(alloc, &fault),
    }
}
