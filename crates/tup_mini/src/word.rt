//! The words of a small command.
ghost use Rattle.std.specs.Prelude.{◌≡◌, ◌↔◌, IfOk};
ghost use Rattle.std.specs.Bool.{IsTrue};
ghost use Rattle.tup_mini.specs.Words.{words as words_of, is_arrow as arrow_test, has_stray_arrow as stray_arrow_test, redirected as redirection, status_of};

use std::alloc::{AllocError, Global};
use tup_path::{Items, Text};

/// The words of a command's text, which its blanks part; a tab is part of a word.
pub fn words(alloc: Global, text: &Text) -> Result<Vec<Text>, AllocError>
    ensures { IfOk result (λ found. found.items ≡ words_of text.now) }
{
    let mut found = Vec::new(alloc);
    for part in text.as_str().split(' ') {
        if !part.is_empty() {
            found.push(Text::from_str(alloc, part)?)?;
        }
    }
    Ok(found)
}

/// Whether a word is the arrow `>`.
pub(crate) fn is_arrow(word: &Text) -> bool
    ensures { result ≡ arrow_test word.now }
{
    word.as_str() == ">"
}

/// Whether an arrow stands anywhere but as the last word but one.
pub(crate) fn has_stray_arrow(words: &[Text]) -> bool
    ensures { result ≡ stray_arrow_test words.now }
{
    for (at, word) in words.iter().enumerate() {
        if is_arrow(word) && words.len() - at != 2 {
            return true;
        }
    }
    false
}

/// Words, an arrow and one more word, as the words before and the one behind.
pub(crate) fn redirected(
    alloc: Global,
    words: &[Text],
) -> Result<Option<(Items<Text>, Text)>, AllocError>
    ensures { IfOk result (λ parts. parts ≡ redirection words.now) }
{
    match words {
        [front @ .., arrow, to] if is_arrow(arrow) => {
            let front = Items::from_vec(front.to_vec(alloc)?);
            Ok(Some((front, to.clone()?)))
        }
        _ => Ok(None),
    }
}

/// The status that a word names: 1 to 255 in decimal without a leading zero, else 2.
pub(crate) fn status(word: &Text) -> u8
    ensures { result ≡ status_of word.now }
{
    let digits = word.as_str();
    match digits.as_bytes() {
        [b'1'..=b'9', ..] => digits.parse().unwrap_or(2),
        _ => 2,
    }
}
