//! The word that has an update read each file. It is taken out of the words before they are read, as it changes no answer.
use std::alloc::{AllocError, Global};
use tup_top::Word;

/// The word.
const DIGEST: &str = "--digest";

/// The place of the first such word among the options of an update, counted from 1.
pub(crate) fn place(words: &[Word]) -> Option<u32> {
    let mut before = "upd";
    let mut place: u32 = 1;
    for word in words {
        let word = word.0.as_str();
        match before {
            "--proc" | "-j" => {}
            _ if word == DIGEST => return Some(place),
            _ if place == 1 && word != "upd" && !word.starts_with('-') => return None,
            _ => {}
        }
        before = word;
        place = place.saturating_add(1);
    }
    None
}

/// The words without that at a place.
pub(crate) fn without(alloc: Global, words: &[Word], place: u32) -> Result<Vec<Word>, AllocError> {
    let mut plain = Vec::new(alloc);
    let mut at: u32 = 1;
    for word in words {
        if at != place {
            plain.push(Word(word.0.clone()?))?;
        }
        at = at.saturating_add(1);
    }
    Ok(plain)
}

/// Where a word stood before the one at a place was taken out.
pub(crate) fn place_with(taken: u32, place: u32) -> u32 {
    if place < taken {
        place
    } else {
        place.saturating_add(1)
    }
}
