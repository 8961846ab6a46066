//! One row.
use crate::fault::RowFault;
use crate::token::{Token, tokens};
use crate::words::Words;
use std::alloc::Global;

/// One row: a call with its arguments, and the answer that is wanted.
#[derive(Drop)]
pub struct Row {
    pub call: String,
    pub arguments: Words,
    pub wanted: Words,
}

/// The part of a row to which its next word belongs.
enum Part {
    Call,
    Arguments,
    Wanted,
}

impl Row {
    /// Reads a line. `None` where it is empty or a comment.
    pub fn read(alloc: Global, line: &str) -> Result<Option<Row>, RowFault> {
        let line = line.trim();
        if line.is_empty() || line.starts_with('#') {
            return Ok(None);
        }
        let mut row = Row::new(alloc);
        row.fill(alloc, tokens(alloc, line.as_bytes())?)?;
        Ok(Some(row))
    }

    fn new(alloc: Global) -> Row {
        Row {
            call: String::new(alloc),
            arguments: Words::new(alloc),
            wanted: Words::new(alloc),
        }
    }

    /// Takes in the words of a line.
    fn fill(&mut self, alloc: Global, tokens: Vec<Token>) -> Result<(), RowFault> {
        let mut part = Part::Call;
        for token in tokens {
            part = self.take(alloc, part, token)?;
        }
        match part {
            Part::Wanted => Ok(()),
            Part::Call | Part::Arguments => Err(RowFault::Unreadable),
        }
    }

    /// Takes in one word, and tells the part of the one behind it.
    fn take(&mut self, alloc: Global, part: Part, token: Token) -> Result<Part, RowFault> {
        match part {
            Part::Call => self.name(alloc, token),
            Part::Arguments if token.divides() => Ok(Part::Wanted),
            Part::Arguments => {
                self.arguments.push(token.word);
                Ok(Part::Arguments)
            }
            Part::Wanted => {
                self.wanted.push(token.word);
                Ok(Part::Wanted)
            }
        }
    }

    /// Takes in the first word, the call's name.
    fn name(&mut self, alloc: Global, token: Token) -> Result<Part, RowFault> {
        if token.divides() {
            return Err(RowFault::Unreadable);
        }
        self.call = text(alloc, &token.word)?;
        Ok(Part::Arguments)
    }
}

fn text(alloc: Global, word: &[u8]) -> Result<String, RowFault> {
    match str::from_utf8(word) {
        Ok(text) => Ok(String::from_str(alloc, text)?),
        Err(_) => Err(RowFault::Unreadable),
    }
}
