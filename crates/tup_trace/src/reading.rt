//! How a line is cut into its parts.
ghost use Rattle.std.specs.Prelude.{◌≡◌, ◌++◌, [], ◌∷◌, IfOk, OnOk};
ghost use Rattle.tup_trace.specs.Line.{is_gap, token_of, begun, with_word, within, read_byte, part_ended, tokens_read, line_begun, is_new};

use crate::quoting::{Escape, Unquoting};
use crate::token::Token;
use std::alloc::{AllocError, Global};
use std::mem;
use tup_path::{Bytes, Items};

/// What is being read.
#[derive(Clone, Copy)]
pub(crate) enum Kind {
    /// Nothing yet, or what parts words.
    Gap,
    Word,
    Quoted,
    Place,
}

/// A line, as far as it was read.
#[derive(Drop)]
pub(crate) struct Reading {
    pub(crate) tokens: Items<Token>,
    pub(crate) kind: Kind,
    pub(crate) part: Unquoting,
}

impl Reading {
    /// A line begins.
    pub(crate) fn new(alloc: Global) -> Reading
        ensures { result ≡ line_begun }
    {
        Reading {
            tokens: Items::new(alloc),
            kind: Kind::Gap,
            part: Unquoting::new(alloc),
        }
    }

    /// Reads a byte.
    pub(crate) fn read(&mut self, alloc: Global, byte: u8) -> Result<(), AllocError>
        ensures { OnOk result (self.new ≡ read_byte self.old byte) }
    {
        match self.kind {
            Kind::Gap => self.begin(byte),
            Kind::Word => self.word(alloc, byte),
            Kind::Quoted => self.within(alloc, byte, b'"'),
            Kind::Place => self.within(alloc, byte, b'>'),
        }
    }

    /// Reads a byte that belongs to no part before it.
    fn begin(&mut self, byte: u8) -> Result<(), AllocError>
        ensures { OnOk result (self.new ≡ begun self.old byte) }
    {
        if byte == b'"' {
            self.kind = Kind::Quoted;
            Ok(())
        } else if byte == b'<' {
            self.kind = Kind::Place;
            Ok(())
        } else if is_gap(byte) {
            Ok(())
        } else {
            self.kind = Kind::Word;
            self.part.push(byte)
        }
    }

    /// Reads a byte behind one of a word.
    fn word(&mut self, alloc: Global, byte: u8) -> Result<(), AllocError>
        ensures { OnOk result (self.new ≡ with_word self.old byte) }
    {
        if is_gap(byte) || byte == b'"' || byte == b'<' {
            self.end(alloc)?;
            self.begin(byte)
        } else {
            self.part.push(byte)
        }
    }

    /// Reads a byte of a text that such a byte closes.
    fn within(&mut self, alloc: Global, byte: u8, closing: u8) -> Result<(), AllocError>
        ensures { OnOk result (self.new ≡ within self.old byte closing) }
    {
        if byte == closing && self.part.may_close() {
            self.part.close()?;
            self.end(alloc)
        } else {
            self.part.read(byte)
        }
    }

    /// The part that is being read is over.
    fn end(&mut self, alloc: Global) -> Result<(), AllocError>
        ensures { OnOk result (self.new ≡ part_ended self.old) }
    {
        let part = mem::replace(&mut self.part, Unquoting::new(alloc));
        let token = match self.kind {
            Kind::Gap => return Ok(()),
            Kind::Word => Token::Word(part.text),
            Kind::Quoted => Token::Quoted(part.text),
            Kind::Place => Token::Place(part.text),
        };
        self.kind = Kind::Gap;
        self.tokens.push(token)?;
        Ok(())
    }

    /// The parts of the line, now that it is over. `None` where quotes or angles are left open.
    pub(crate) fn finish(mut self, alloc: Global) -> Result<Option<Items<Token>>, AllocError>
        ensures { IfOk result (λ tokens. tokens ≡ tokens_read self) }
    {
        match self.kind {
            Kind::Gap => Ok(Some(self.tokens)),
            Kind::Word => {
                self.end(alloc)?;
                Ok(Some(self.tokens))
            }
            Kind::Quoted | Kind::Place => Ok(None),
        }
    }

    /// Whether nothing of the line was read but what parts words.
    pub(crate) fn is_new(&self) -> bool
        ensures { result ≡ is_new self.now }
    {
        matches!(self.kind, Kind::Gap) && self.tokens.len() == 0
    }
}

/// Whether a byte parts words.
fn is_gap(byte: u8) -> bool
    ensures { result ≡ is_gap byte }
{
    matches!(byte, b' ' | b',' | b'(' | b')' | b'|')
}
