//! A text: bytes that are UTF-8.
ghost use Rattle.std.specs.Prelude.{◌≡◌, ◌≤◌, ◌-◌, nat_eq, refl, IsUtf8, MatchOption, IfOk, IfSome, string_bytes, Some, ◌++◌, OnOk, OnErr, length, take, drop, replicate};
ghost use Rattle.std.specs.Cmp.{partial_order_from_own_ties};
ghost use Rattle.std.specs.Cmp.Rules.{comparing};
ghost use Rattle.std.specs.Hash as fed;
ghost use Rattle.std.specs.Hash.{same_Alike};
ghost use Rattle.std.specs.Ordering.{as_partial_cmp};
ghost use Rattle.std.specs.Cmp.Lexicographic.{pointwise, bytes_decides};
ghost use Rattle.tup_path.specs.Body.{high_first};
ghost use Rattle.std.proofs.Common.{rules};
ghost use Rattle.tup_path.specs.Order.{by_bytes};

use crate::bytes::Bytes;
use std::alloc::{AllocError, Global};
use std::cmp::Ordering;
use std::hash::{Hash, Hasher};
use std::marker::Model;
use std::{fmt, str};

/// How many bytes a text may have once its variables or flags are put in.
pub const MAX_EXPANDED: usize = 1_048_576;

/// How many bytes a text has at most that takes no memory of its own: most names of files have no more.
const INSIDE: usize = 24;

/// A list of bytes that is UTF-8. A short one lies in the value itself. Contracts see the bytes.
#[derive(Debug, Drop)]
pub struct Text {
    body: Body,
}

/// Where the bytes of a text lie.
#[derive(Debug, Drop)]
enum Body {
    /// In the value: the first `len` of these, with zeros behind them.
    Short {
        alloc: Global,
        bytes: [u8; INSIDE],
        len: u8,
    },
    /// In memory of their own.
    Long(Vec<u8>),
}

impl Model for Text {
    ghost use Rattle.std.specs.Prelude.{List, ℕ, IsUtf8};
    ghost use Rattle.tup_path.specs.Body.{bytes_in, HasZeros};

    ghost Value = { List ℕ };

    ghost view = { λ t. bytes_in t.body };

    ghost invariant = { λ t. IsUtf8 (bytes_in t.body) × HasZeros t.body };
}

impl Text {
    /// The text of these bytes, or `None` where they aren't UTF-8. Many bytes aren't copied.
    pub fn new(bytes: Bytes) -> Option<Text>
        ensures { MatchOption result (¬ IsUtf8 bytes) (λ text. (text ≡ bytes) × IsUtf8 bytes) }
    {
        match str::from_utf8(bytes.as_slice()) {
            Ok(_) => Some(Text::of_vec(bytes.into_vec())),
            Err(_) => None,
        }
    }

    /// Takes a text over; it isn't copied.
    pub fn from_string(text: String) -> Text
        ensures { result ≡ string_bytes text }
    {
        Text::of_vec(text.into_bytes())
    }

    fn of_vec(bytes: Vec<u8>) -> Text
        requires { IsUtf8 bytes.items }
        ensures { result ≡ bytes.items }
    {
        Text {
            body: Body::Long(bytes),
        }
    }

    /// A copy of a text.
    pub fn from_str(alloc: Global, text: &str) -> Result<Text, AllocError>
        ensures { IfOk result (λ copy. copy ≡ text.now) }
    {
        if text.len() <= INSIDE {
            return Ok(Text::short(alloc, text));
        }
        Ok(Text::of_vec(Vec::from_slice(alloc, text.as_bytes())?))
    }

    /// A copy of a short text.
    fn short(alloc: Global, text: &str) -> Text
        requires { length text.now ≤ 24 }
        ensures { result ≡ text.now }
    {
        let mut bytes = [0; INSIDE];
        bytes[..text.len()].copy_from_slice(text.as_bytes());
        Text {
            body: Body::Short {
                alloc,
                bytes,
                len: text.len() as u8,
            },
        }
    }

    /// A copy of these bytes, or `None` where they aren't UTF-8.
    pub fn from_utf8(alloc: Global, bytes: &[u8]) -> Result<Option<Text>, AllocError>
        ensures { IfOk result (λ found. MatchOption found (¬ IsUtf8 bytes.now)
            (λ text. (text ≡ bytes.now) × IsUtf8 bytes.now)) }
    {
        match str::from_utf8(bytes) {
            Ok(text) => Ok(Some(Text::from_str(alloc, text)?)),
            Err(_) => Ok(None),
        }
    }

    pub fn as_bytes(&self) -> &[u8]
        ensures bytes { result.now ≡ self.now }
        ensures utf8 { IsUtf8 self.now }
    {
        match &self.body {
            Body::Short { bytes, len, .. } => &bytes[..*len as usize],
            Body::Long(bytes) => bytes,
        }
    }

    pub fn as_str(&self) -> &str
        ensures bytes { result.now ≡ self.now }
        ensures utf8 { IsUtf8 self.now }
    {
        unsafe { str::from_utf8_unchecked(self.as_bytes()) }
    }

    /// Adds a text at the end. After a refusal the text is as it was.
    pub fn push_str(&mut self, more: &str) -> Result<(), AllocError>
        ensures ok { OnOk result (self.new ≡ self.old ++ more.now) }
        ensures err { OnErr result (self.new ≡ self.old) }
    {
        if let Body::Long(bytes) = &mut self.body {
            return bytes.extend_from_slice(more.as_bytes());
        }
        let bytes = joined(self.allocator(), self.as_bytes(), more.as_bytes())?;
        self.body = Body::Long(bytes);
        Ok(())
    }

    /// What the text takes memory from.
    fn allocator(&self) -> Global {
        match &self.body {
            Body::Short { alloc, .. } => *alloc,
            Body::Long(bytes) => *bytes.allocator(),
        }
    }

    /// The order of two short texts by their first eight bytes, where it is by them.
    fn front_order(&self, other: &Text) -> Option<Ordering>
        ensures { IfSome result (λ order. order ≡ by_bytes self.now other.now) }
    {
        match (&self.body, &other.body) {
            (
                Body::Short { bytes, len, .. },
                Body::Short {
                    bytes: others,
                    len: many,
                    ..
                },
            ) => order_short(bytes, *len, others, *many),
            _ => None,
        }
    }
}

/// Bytes and others behind them.
fn joined(alloc: Global, bytes: &[u8], more: &[u8]) -> Result<Vec<u8>, AllocError>
    ensures { IfOk result (λ all. all.items ≡ bytes.now ++ more.now) }
{
    let mut all = Vec::with_capacity(alloc, bytes.len().saturating_add(more.len()))?;
    all.extend_from_slice(bytes)?;
    all.extend_from_slice(more)?;
    Ok(all)
}

/// The order of two texts that have zeros behind them, by their first eight bytes, where it is by them.
fn order_short(bytes: &[u8; INSIDE], len: u8, others: &[u8; INSIDE], many: u8) -> Option<Ordering>
    requires first { (len ≤ 24) × (drop len bytes.now ≡ replicate (24 - len) 0) }
    requires second { (many ≤ 24) × (drop many others.now ≡ replicate (24 - many) 0) }
    ensures { IfSome result
        (λ order. order ≡ by_bytes (take len bytes.now) (take many others.now)) }
{
    let (front, back) = (front(bytes), front(others));
    if front != back {
        return Some(front.cmp(&back));
    }
    if len <= 8 && many <= 8 {
        return Some(len.cmp(&many));
    }
    None
}

/// The first eight bytes as a number.
fn front(bytes: &[u8; INSIDE]) -> u64
    ensures { result ≡ high_first 0 (take 8 bytes.now) }
{
    u64::from_be_bytes([
        bytes[0], bytes[1], bytes[2], bytes[3], bytes[4], bytes[5], bytes[6], bytes[7],
    ])
}

impl Clone for Text {
    ghost is_clone = { λ text copy. copy ≡ text };

    fn clone(&self) -> Result<Text, AllocError> {
        Text::from_str(self.allocator(), self.as_str())
    }
}

impl fmt::Display for Text {
    ghost output = { λ text. Some text };

    fn fmt<W: fmt::Write>(&self, f: &mut fmt::Formatter<W>) -> fmt::Result {
        f.write_str(self.as_str())
    }
}

impl PartialEq for Text {
    ghost eq = { pointwise nat_eq };

    ghost laws = { Prim.search (comparing, rules) };

    fn eq(&self, other: &Text) -> bool {
        self.as_str() == other.as_str()
    }
}

impl Eq for Text {
    ghost laws = { Prim.search (comparing, rules) };
}

impl Hash for Text {
    ghost hash_input = { fed.str };

    ghost respects_eq = { (same_Alike fed.str bytes_decides).fed };

    fn hash<H: Hasher>(&self, state: &mut H) {
        self.as_str().hash(state);
    }
}

impl PartialOrd for Text {
    ghost partial_cmp = { as_partial_cmp by_bytes };

    ghost laws = { partial_order_from_own_ties
        (Prim.search (comparing, rules)) (Prim.search (comparing, rules)) };

    fn partial_cmp(&self, other: &Text) -> Option<Ordering> {
        Some(self.cmp(other))
    }
}

impl Ord for Text {
    ghost cmp = { by_bytes };

    ghost total = { Prim.search (comparing, rules) };

    ghost matches_partial_cmp = { λ x y. refl };

    ghost matches_eq = { Prim.search (comparing, rules) };

    fn cmp(&self, other: &Text) -> Ordering {
        match self.front_order(other) {
            Some(order) => order,
            None => self.as_str().cmp(other.as_str()),
        }
    }
}
