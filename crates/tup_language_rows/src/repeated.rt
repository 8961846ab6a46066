//! Long arguments, which a row says shortly.
use std::alloc::Global;
use tup_path::Text;
use tup_rows::{RowFault, Words};

/// A file that is a front, a text so many times, and a back.
pub(crate) fn file(alloc: Global, said: &Words) -> Vec<u8> {
    let mut file = said.bytes_at(alloc, 0);
    for _ in 0..said.number_at(2) {
        add(said, &mut file, said.word_at(1));
    }
    add(said, &mut file, said.word_at(3));
    file
}

/// Adds bytes at the end.
pub(crate) fn add(said: &Words, bytes: &mut Vec<u8>, more: &[u8]) {
    if bytes.extend_from_slice(more).is_err() {
        said.fail(RowFault::Memory);
    }
}

/// A text that is a front, a letter so many times, and a back.
pub(crate) fn text(
    alloc: Global,
    said: &Words,
    (front, letter, count, back): (&str, &str, u64, &str),
) -> Text {
    let mut text = String::new(alloc);
    add_many(said, &mut text, front, 1);
    add_many(said, &mut text, letter, count);
    add_many(said, &mut text, back, 1);
    Text::from_string(text)
}

fn add_many(said: &Words, text: &mut String, more: &str, count: u64) {
    for _ in 0..count {
        if text.push_str(more).is_err() {
            said.fail(RowFault::Memory);
        }
    }
}
