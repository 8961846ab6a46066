//! The call of `record.rows`: it reads a record.
use crate::bytes::{bytes, joined};
use crate::say::Say;
use std::alloc::Global;
use tup_field::RecordFault;
use tup_path::Bytes;
use tup_record::{Record, decode};
use tup_rows::{Answers, RowFault, Words};

/// Reads records.
#[derive(Drop)]
pub struct Records;

impl Answers for Records {
    fn answer(&mut self, alloc: Global, call: &str, said: &Words) -> Result<Words, RowFault> {
        Ok(match call {
            "record" => record(alloc, said),
            _ => Words::none(alloc, RowFault::NoSuchCall),
        })
    }
}

fn record(alloc: Global, said: &Words) -> Words {
    let key = Bytes::new(said.bytes_at(alloc, 0));
    let value = value(alloc, said);
    match decode(alloc, &key, &value) {
        Ok(record) => {
            let words = words_of(alloc, &record);
            drop(record);
            words
        }
        Err(RecordFault::Memory) => Words::none(alloc, RowFault::Memory),
        Err(fault) => Words::refusal(alloc, &fault),
    }
}

fn words_of(alloc: Global, record: &Record) -> Words {
    let mut words = Words::new(alloc);
    record.say(alloc, &mut words);
    words
}

/// The words behind the first, joined.
fn value(alloc: Global, said: &Words) -> Bytes {
    match said.as_slice().split_first() {
        Some((_, value)) => Bytes::new(joined(alloc, said, value)),
        None => Bytes::new(Vec::new(alloc)),
    }
}

/// The record that a key and a value spell.
pub fn record_of(alloc: Global, said: &Words, key: &[u8], value: &[u8]) -> Option<Record> {
    let key = bytes(alloc, said, key);
    decode(alloc, &key, &bytes(alloc, said, value)).ok()
}
