//! How a line is cut into words.
use crate::fault::RowFault;
use std::alloc::Global;

/// A word of a line, and whether it stood in quotes.
#[derive(Drop)]
pub(crate) struct Token {
    pub(crate) word: Vec<u8>,
    pub(crate) quoted: bool,
}

impl Token {
    /// Whether this is the `=` that divides a row.
    pub(crate) fn divides(&self) -> bool {
        !self.quoted && self.word.as_slice() == b"=".as_slice()
    }
}

/// Where the reading of a line stands.
#[derive(Clone, Copy)]
enum Place {
    Between,
    Bare,
    Quoted,
    /// Behind a backslash.
    Escaped,
    /// Behind `\x`.
    High,
    /// Behind `\x` and this digit.
    Low(u8),
    /// Behind a closing quote.
    Closed,
}

/// The words of a line.
pub(crate) fn tokens(alloc: Global, line: &[u8]) -> Result<Vec<Token>, RowFault> {
    let mut tokens = Vec::new(alloc);
    let mut word = Vec::new(alloc);
    let mut place = Place::Between;
    for byte in line {
        let next = step(place, *byte, &mut word)?;
        if matches!(&next, Place::Between) {
            end(place, &mut tokens, &mut word, alloc)?;
        }
        place = next;
    }
    end(place, &mut tokens, &mut word, alloc)?;
    Ok(tokens)
}

/// Takes one byte in; a byte of a word is added to it.
fn step(place: Place, byte: u8, word: &mut Vec<u8>) -> Result<Place, RowFault> {
    match (place, byte) {
        (Place::Between | Place::Bare | Place::Closed, b' ') => Ok(Place::Between),
        (Place::Between, b'"') => Ok(Place::Quoted),
        (Place::Quoted, b'"') => Ok(Place::Closed),
        (Place::Quoted, b'\\') => Ok(Place::Escaped),
        (Place::Escaped, b'x') => Ok(Place::High),
        (Place::Escaped, _) => added(word, escaped(byte)?, Place::Quoted),
        (Place::High, _) => Ok(Place::Low(digit(byte)?)),
        (Place::Low(high), _) => added(word, (high << 4) | digit(byte)?, Place::Quoted),
        (Place::Quoted, _) => added(word, byte, Place::Quoted),
        (Place::Between | Place::Bare, b'"' | b'\\') => Err(RowFault::Unreadable),
        (Place::Between | Place::Bare, _) => added(word, byte, Place::Bare),
        (Place::Closed, _) => Err(RowFault::Unreadable),
    }
}

fn added(word: &mut Vec<u8>, byte: u8, place: Place) -> Result<Place, RowFault> {
    word.push(byte)?;
    Ok(place)
}

/// The byte that an escape stands for.
fn escaped(byte: u8) -> Result<u8, RowFault> {
    match byte {
        b'n' => Ok(b'\n'),
        b't' => Ok(b'\t'),
        b'r' => Ok(b'\r'),
        b'\\' | b'"' => Ok(byte),
        _ => Err(RowFault::Unreadable),
    }
}

/// The value of a digit of base 16.
fn digit(byte: u8) -> Result<u8, RowFault> {
    match byte {
        b'0'..=b'9' => Ok(byte - b'0'),
        b'a'..=b'f' => Ok(byte - b'a' + 10),
        b'A'..=b'F' => Ok(byte - b'A' + 10),
        _ => Err(RowFault::Unreadable),
    }
}

/// Ends the word that the line stood in, if it stood in one.
fn end(
    place: Place,
    tokens: &mut Vec<Token>,
    word: &mut Vec<u8>,
    alloc: Global,
) -> Result<(), RowFault> {
    match place {
        Place::Between => Ok(()),
        Place::Bare | Place::Closed => {
            let quoted = matches!(&place, Place::Closed);
            let word = std::mem::replace(word, Vec::new(alloc));
            tokens.push(Token { word, quoted })?;
            Ok(())
        }
        Place::Quoted | Place::Escaped | Place::High | Place::Low(_) => Err(RowFault::Unreadable),
    }
}
