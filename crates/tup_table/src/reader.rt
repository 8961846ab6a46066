//! Bytes that are read from the front.
ghost use Rattle.std.specs.Prelude.{◌≡◌, ◌↔◌, [], ◌∷◌, MatchOption, IsTrue};
ghost use Rattle.tup_table.specs.Front.{Front, NoFront};
ghost use Rattle.tup_table.specs.Store.{sized, IsSized};

use crate::sized::{long_at, short_at};
use std::marker::Model;

/// Bytes that are read from the front. Contracts see the bytes that are left.
#[derive(Drop)]
pub(crate) struct Reader<'a> {
    rest: &'a [u8],
}

impl<'a> Model for Reader<'a> {
    ghost use Rattle.std.specs.Prelude.{List, ℕ};

    ghost Value = { List ℕ };

    ghost view = { λ r. r.rest.now };
}

impl<'a> Reader<'a> {
    /// Reads these bytes from the first one on.
    pub(crate) fn new(bytes: &'a [u8]) -> Reader<'a>
        ensures { result ≡ bytes.now }
    {
        Reader { rest: bytes }
    }

    /// Whether no bytes are left.
    pub(crate) fn is_done(&self) -> bool
        ensures { IsTrue result ↔ (self.now ≡ []) }
    {
        self.rest.is_empty()
    }

    /// The bytes that are left.
    pub(crate) fn rest(&self) -> &'a [u8]
        ensures { result.now ≡ self.now }
    {
        self.rest
    }

    /// The next byte, if one is left.
    pub(crate) fn byte(&mut self) -> Option<u8>
        ensures { MatchOption result (self.old ≡ []) (λ byte. self.old ≡ byte ∷ self.new) }
    {
        let (byte, rest) = self.rest.split_first()?;
        self.rest = rest;
        Some(*byte)
    }

    /// The next bytes, behind a length of two bytes, if they are whole.
    pub(crate) fn short(&mut self) -> Option<&'a [u8]>
        ensures { MatchOption result (NoFront (IsSized 2) (sized 2) self.old)
            (λ bytes. Front (IsSized 2) (sized 2) self.old bytes.now self.new) }
    {
        let (bytes, rest) = short_at(self.rest)?;
        self.rest = rest;
        Some(bytes)
    }

    /// The next bytes, behind a length of four bytes, if they are whole.
    pub(crate) fn long(&mut self) -> Option<&'a [u8]>
        ensures { MatchOption result (NoFront (IsSized 4) (sized 4) self.old)
            (λ bytes. Front (IsSized 4) (sized 4) self.old bytes.now self.new) }
    {
        let (bytes, rest) = long_at(self.rest)?;
        self.rest = rest;
        Some(bytes)
    }
}
