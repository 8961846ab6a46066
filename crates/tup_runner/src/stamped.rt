//! A content that carries its stamp.
ghost use Rattle.std.specs.Prelude.{◌≡◌};
ghost use Rattle.tup_stamp.specs.Stamp.{stamp as stamp_of_content};

use std::alloc::AllocError;
use std::marker::Model;
use tup_path::Bytes;
use tup_stamp::{Stamp, stamp_of};

/// A content with its stamp, where somebody has digested it already. Contracts see the content alone.
#[derive(Drop)]
pub struct Stamped {
    bytes: Bytes,
    known: Option<Stamp>,
}

impl Model for Stamped {
    ghost use Rattle.std.specs.Prelude.{List, ℕ, ◌≡◌, Some};
    ghost use Rattle.tup_stamp.specs.Stamp.{stamp};
    ghost use Rattle.tup_stamp.specs.declared.Stamp.{Stamp as StampValue};

    ghost Value = { List ℕ };

    ghost view = { λ s. s.bytes };

    ghost invariant = { λ s. (known : StampValue) → s.known ≡ Some known
        → known ≡ stamp s.bytes };
}

impl Stamped {
    /// A content that nobody has digested yet. It isn't digested here either.
    pub fn new(bytes: Bytes) -> Stamped
        ensures { result ≡ bytes }
    {
        Stamped { bytes, known: None }
    }

    /// A content with its stamp.
    pub fn known(bytes: Bytes, stamp: Stamp) -> Stamped
        requires { stamp ≡ stamp_of_content bytes }
        ensures { result ≡ bytes }
    {
        Stamped {
            bytes,
            known: Some(stamp),
        }
    }

    /// The stamp of the content, which is digested only if its stamp isn't known.
    pub fn stamp(&self) -> Stamp
        ensures { result ≡ stamp_of_content self.now }
    {
        match self.known {
            Some(stamp) => stamp,
            None => stamp_of(self.bytes.as_slice()),
        }
    }

    pub fn as_slice(&self) -> &[u8]
        ensures { result.now ≡ self.now }
    {
        self.bytes.as_slice()
    }

    /// Gives the content back; nothing is copied.
    pub fn into_bytes(self) -> Bytes
        ensures { result ≡ self }
    {
        self.bytes
    }
}

impl Clone for Stamped {
    ghost is_clone = { λ content copy. copy ≡ content };

    fn clone(&self) -> Result<Stamped, AllocError> {
        Ok(Stamped {
            bytes: self.bytes.clone()?,
            known: self.known,
        })
    }
}
