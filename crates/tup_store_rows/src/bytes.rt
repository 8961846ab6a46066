//! Bytes, as rows say them.
use std::alloc::Global;
use tup_path::Bytes;
use tup_rows::{RowFault, Words};

/// Some of the words of a row, joined.
pub fn joined(alloc: Global, said: &Words, words: &[Vec<u8>]) -> Vec<u8> {
    let mut bytes = Vec::new(alloc);
    for word in words {
        if bytes.extend_from_slice(word).is_err() {
            said.fail(RowFault::Memory);
        }
    }
    bytes
}

/// The bytes of a word, to keep.
pub fn bytes(alloc: Global, said: &Words, word: &[u8]) -> Bytes {
    Bytes::new(said.copy_of(alloc, word))
}

/// A store with another byte at a place.
pub fn with_byte(alloc: Global, said: &Words, store: &[u8], at: usize, byte: &[u8]) -> Vec<u8> {
    let mut store = said.copy_of(alloc, store);
    match (store.get_mut(at), byte) {
        (Some(place), [byte]) => *place = *byte,
        _ => said.fail(RowFault::OtherKind),
    }
    store
}
