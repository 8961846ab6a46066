//! The letters and the display text in front of a command.
ghost use Rattle.std.specs.Prelude.{◌≡◌, ◌==◌, IfOk};
ghost use Rattle.std.specs.List.{list_all, list_any};
ghost use Rattle.tup_rule_line.specs.Caret as specs;

use std::alloc::{AllocError, Global};
use tup_lex::trimmed;
use tup_path::Text;

/// A command, what is shown in its place, and whether its outputs are compared.
#[derive(Drop)]
pub(crate) struct Command {
    pub(crate) text: Text,
    pub(crate) display: Option<Text>,
    pub(crate) compare: bool,
}

/// A command with what stands in front of it, or `None` where that is wrong.
pub(crate) fn command_of(alloc: Global, text: &str) -> Result<Option<Command>, AllocError>
    ensures { IfOk result (λ command. command ≡ specs.command_of text.now) }
{
    match text.strip_prefix("^") {
        Some(rest) => behind_caret(alloc, rest),
        None => Ok(Some(Command {
            text: Text::from_str(alloc, text)?,
            display: None,
            compare: false,
        })),
    }
}

/// A command behind its first caret, if there is a second one.
fn behind_caret(alloc: Global, text: &str) -> Result<Option<Command>, AllocError>
    ensures { IfOk result (λ command. command ≡ specs.behind_caret text.now) }
{
    match text.split_once('^') {
        None => Ok(None),
        Some((front, command)) => {
            let (letters, shown) = between_carets(front);
            lettered(alloc, letters, shown, command)
        }
    }
}

/// The letters, and what is shown, between two carets.
fn between_carets(text: &str) -> (&str, &str)
    ensures { (result.0.now, result.1.now) ≡ specs.between_carets text.now }
{
    match text.split_once(' ') {
        Some(parts) => parts,
        None => (text, ""),
    }
}

/// A command with letters and what is shown in its place, if all letters are known.
fn lettered(
    alloc: Global,
    letters: &str,
    shown: &str,
    command: &str,
) -> Result<Option<Command>, AllocError>
    ensures { IfOk result (λ found. found ≡ specs.lettered letters.now shown.now command.now) }
{
    if !are_letters(letters.as_bytes()) {
        return Ok(None);
    }
    Ok(Some(Command {
        text: Text::from_str(alloc, trimmed(command))?,
        display: unless_empty(alloc, trimmed(shown))?,
        compare: has_compare(letters.as_bytes()),
    }))
}

/// Whether all of these are letters that a command may have.
fn are_letters(letters: &[u8]) -> bool
    ensures { result ≡ list_all specs.is_letter letters.now }
{
    letters.iter().all(|byte| is_letter(*byte))
}

/// Whether a command may have this letter.
fn is_letter(byte: u8) -> bool
    ensures { result ≡ specs.is_letter byte }
{
    byte == b'o' || byte == b'b' || byte == b'c' || byte == b'j' || byte == b's'
}

/// Whether one of the letters has outputs compared.
fn has_compare(letters: &[u8]) -> bool
    ensures { result ≡ list_any (λ byte. byte == 111) letters.now }
{
    letters.iter().any(|byte| *byte == b'o')
}

/// A copy of a text, or `None` where it is empty.
fn unless_empty(alloc: Global, text: &str) -> Result<Option<Text>, AllocError>
    ensures { IfOk result (λ copy. copy ≡ specs.unless_empty text.now) }
{
    if text.is_empty() {
        return Ok(None);
    }
    Ok(Some(Text::from_str(alloc, text)?))
}
