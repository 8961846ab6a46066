//! Bytes that are read from the front.
ghost use Rattle.std.specs.Prelude.{◌≡◌, ◌↔◌, [], IsTrue, MatchResult};
ghost use Rattle.tup_field.specs.Parts.{taken, byte_at};

use crate::fault::RecordFault;
use std::marker::Model;

/// Bytes that are read from the front. Contracts see the bytes that are left.
#[derive(Drop)]
pub struct Reader<'a> {
    rest: &'a [u8],
}

impl<'a> Model for Reader<'a> {
    ghost use Rattle.std.specs.Prelude.{List, ℕ};

    ghost Value = { List ℕ };

    ghost view = { λ r. r.rest.now };
}

impl<'a> Reader<'a> {
    /// Reads these bytes from the first one on.
    pub fn new(bytes: &'a [u8]) -> Reader<'a>
        ensures { result ≡ bytes.now }
    {
        Reader { rest: bytes }
    }

    /// Whether no bytes are left.
    pub fn is_done(&self) -> bool
        ensures { IsTrue result ↔ (self.now ≡ []) }
    {
        self.rest.is_empty()
    }

    /// The next byte. Where none is left that is `Short`, and nothing is taken.
    pub fn byte(&mut self) -> Result<u8, RecordFault>
        ensures { MatchResult result
            (λ byte. byte_at self.old ≡ Ok (byte, self.new))
            (λ fault. (byte_at self.old ≡ Err fault) × (self.new ≡ self.old)) }
    {
        let Some((byte, rest)) = self.rest.split_first() else {
            return Err(RecordFault::Short);
        };
        self.rest = rest;
        Ok(*byte)
    }

    /// The next `count` bytes. Where fewer are left that is `Short`, and nothing is taken.
    pub fn bytes(&mut self, count: usize) -> Result<&'a [u8], RecordFault>
        ensures { MatchResult result
            (λ bytes. taken count self.old ≡ Ok (bytes.now, self.new))
            (λ fault. (taken count self.old ≡ Err fault) × (self.new ≡ self.old)) }
    {
        let Some((bytes, rest)) = self.rest.split_at_checked(count) else {
            return Err(RecordFault::Short);
        };
        self.rest = rest;
        Ok(bytes)
    }

    /// The next `N` bytes. Where fewer are left that is `Short`, and nothing is taken.
    pub fn array<const N: usize>(&mut self) -> Result<[u8; N], RecordFault>
        ensures { MatchResult result
            (λ bytes. taken N self.old ≡ Ok (bytes, self.new))
            (λ fault. (taken N self.old ≡ Err fault) × (self.new ≡ self.old)) }
    {
        let Some((bytes, rest)) = self.rest.split_first_chunk() else {
            return Err(RecordFault::Short);
        };
        self.rest = rest;
        Ok(*bytes)
    }
}
