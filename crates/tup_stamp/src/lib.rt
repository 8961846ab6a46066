//! Stamps: what stands for a content wherever two contents are compared.
//!
//! `stamp_of` gives exactly the SHA-256 digest of the bytes, and `hex` exactly its 64 digits in lower case.
#![tactic(auto)]

ghost use Rattle.std.specs.Prelude.{◌≡◌};
ghost use Rattle.tup_stamp.specs.Hex.{hex_text};
ghost use Rattle.tup_stamp.specs.Stamp.{stamp};

use hex::encode_to_slice;
use sha2::{Digest, Sha256};

/// The SHA-256 digest of a content.
#[derive(Clone, Copy, Debug, PartialEq, Eq, PartialOrd, Ord)]
pub struct Stamp(pub [u8; 32]);

/// The stamp of a content.
pub fn stamp_of(bytes: &[u8]) -> Stamp
    ensures { result ≡ stamp bytes.now }
{
    Stamp(Sha256::digest(bytes))
}

/// The stamp as 64 digits in ASCII, with letters in lower case: two for each byte, the high one first.
pub fn hex(stamp: &Stamp) -> [u8; 64]
    ensures { result ≡ hex_text stamp.now.0 }
{
    let mut digits = [0; 64];
    let _ = encode_to_slice(stamp.0, &mut digits);
    digits
}
