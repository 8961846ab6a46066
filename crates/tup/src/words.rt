//! The words of the command line.
use std::alloc::{AllocError, Global};
use std::env::{Env, FillError};
use tup_path::Text;
use tup_top::{Status, Word};

// The length of a word in bytes that is still read.
const LONGEST: usize = 4096;

/// The words after the program's name. One that is longer than 4096 bytes, or isn't UTF-8, is a usage fault.
pub(crate) fn words(rt: &impl Env, alloc: Global) -> Result<Vec<Word>, Status> {
    let mut words = Vec::new(alloc);
    let mut buffer = [0; LONGEST];
    for place in 1..u32::MAX {
        let len = match rt.arg(place as usize, &mut buffer) {
            Ok(len) => len,
            Err(FillError::NotPresent) => break,
            Err(FillError::TooLong) => return Err(Status::Usage { place }),
        };
        let Ok(word) = str::from_utf8(&buffer[..len]) else {
            return Err(Status::Usage { place });
        };
        if add(&mut words, alloc, word).is_err() {
            return Err(Status::Memory);
        }
    }
    Ok(words)
}

fn add(words: &mut Vec<Word>, alloc: Global, word: &str) -> Result<(), AllocError> {
    words.push(Word(Text::from_str(alloc, word)?))?;
    Ok(())
}
