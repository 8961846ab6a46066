//! The arguments of transactions.
use crate::bytes::joined;
use std::alloc::Global;
use tup_field::{Field, Reader};
use tup_path::Path;
use tup_record::RunRecord;
use tup_rows::{RowFault, Words};

/// The number that the first word is.
pub fn number(said: &Words) -> u32 {
    number_at(said, 0)
}

/// The number that a word is, from 0 to 2.
fn number_at(said: &Words, at: usize) -> u32 {
    match said.str_at(at) {
        "0" => 0,
        "1" => 1,
        "2" => 2,
        _ => {
            said.fail(RowFault::OtherKind);
            0
        }
    }
}

/// The numbers that so many words are.
pub fn numbers(alloc: Global, said: &Words, count: usize) -> Vec<u32> {
    let mut numbers = Vec::new(alloc);
    for at in 0..count {
        if numbers.push(number_at(said, at)).is_err() {
            said.fail(RowFault::Memory);
        }
    }
    numbers
}

/// The paths that so many words name from the top directory.
pub fn paths(alloc: Global, said: &Words, count: usize) -> Vec<Path> {
    let mut paths = Vec::new(alloc);
    for at in 0..count {
        if paths.push(said.path_at(alloc, at)).is_err() {
            said.fail(RowFault::Memory);
        }
    }
    paths
}

/// The run that the words behind the first spell.
pub fn run(alloc: Global, said: &Words, words: &[Vec<u8>]) -> Result<RunRecord, RowFault> {
    let Some((_, spelled)) = words.split_first() else {
        return Err(RowFault::TooFew);
    };
    match RunRecord::read(alloc, &mut Reader::new(&joined(alloc, said, spelled))) {
        Ok(run) => Ok(run),
        Err(_) => Err(RowFault::OtherKind),
    }
}
