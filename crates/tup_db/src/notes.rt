//! The bytes of an epoch's file: a head, and behind it a note of each commit and of each place that was touched.
//!
//! Numbers are of eight bytes, the highest first. Where a note isn't whole none behind it is read.
ghost use Rattle.std.specs.Prelude.{◌<◌, ◌≤◌, length, IfSome};

use std::alloc::{AllocError, Global};
use tup_disk::{sum, sum_behind};

/// How an epoch's file begins; the last digit is the version.
const MAGIC: [u8; 8] = *b"tup-ep1\n";

/// The length of its head.
pub(crate) const HEAD: usize = 32;

/// How a note of a commit begins.
const COMMIT: u8 = 1;

/// How a note of a place begins.
const PLACE: u8 = 2;

/// So many bytes before a gate say which store it is.
pub(crate) const ENOUGH: u64 = 4096;

/// Where a store stood when an epoch began.
#[derive(Clone, Copy)]
pub(crate) struct Head {
    /// Where its last gate stood.
    pub gate: u64,
    /// The sum of the bytes before that.
    pub sum: u64,
}

impl Head {
    /// The bytes of the head.
    pub fn bytes(self, alloc: Global) -> Result<Vec<u8>, AllocError> {
        let mut bytes = Vec::with_capacity(alloc, HEAD)?;
        bytes.extend_from_slice(&MAGIC)?;
        bytes.extend_from_slice(&self.gate.to_be_bytes())?;
        bytes.extend_from_slice(&self.sum.to_be_bytes())?;
        let whole = sum(&bytes);
        bytes.extend_from_slice(&whole.to_be_bytes())?;
        Ok(bytes)
    }

    /// The head of a file, if it is whole, and its notes.
    pub fn of(bytes: &[u8]) -> Option<(Head, &[u8])> {
        let (said, rest) = bytes.split_at_checked(HEAD - 8)?;
        let (whole, notes) = number(rest)?;
        let numbers = said.strip_prefix(&MAGIC)?;
        let (gate, rest) = number(numbers)?;
        let (before, _) = number(rest)?;
        if sum(said) == whole {
            Some((Head { gate, sum: before }, notes))
        } else {
            None
        }
    }

    /// Whether a store is the one with which the epoch began.
    pub fn is_of(self, store: &[u8]) -> bool {
        match store.get(self.gate.saturating_sub(ENOUGH) as usize..self.gate as usize) {
            Some(before) => sum(before) == self.sum && self.gate < store.len() as u64,
            None => false,
        }
    }
}

/// What is noted.
#[derive(Clone, Copy)]
pub(crate) enum Note<'a> {
    /// A commit of so many bytes; the sum of it and all before it.
    Commit { len: u64, sum: u64 },
    /// A place below the top.
    Place(&'a [u8]),
}

impl Note<'_> {
    /// The bytes of the note.
    pub fn bytes(&self, alloc: Global) -> Result<Vec<u8>, AllocError> {
        let mut bytes = Vec::new(alloc);
        match self {
            Note::Commit { len, sum } => {
                bytes.push(COMMIT)?;
                bytes.extend_from_slice(&len.to_be_bytes())?;
                bytes.extend_from_slice(&sum.to_be_bytes())?;
            }
            Note::Place(place) => {
                bytes.push(PLACE)?;
                bytes.extend_from_slice(&(place.len() as u64).to_be_bytes())?;
                bytes.extend_from_slice(place)?;
                bytes.extend_from_slice(&sum(place).to_be_bytes())?;
            }
        }
        Ok(bytes)
    }

    /// The first of some notes, if it is whole, and those behind it.
    pub fn first(notes: &[u8]) -> Option<(Note<'_>, &[u8])>
        ensures { IfSome result (λ found. length found.1.now < length notes.now) }
    {
        let (kind, rest) = notes.split_first()?;
        let (len, rest) = number(rest)?;
        match *kind {
            COMMIT => {
                let (sum, rest) = number(rest)?;
                Some((Note::Commit { len, sum }, rest))
            }
            PLACE => place_of(len, rest),
            _ => None,
        }
    }
}

/// The note of a place of so many bytes, if it is whole, and the notes behind it.
fn place_of(len: u64, bytes: &[u8]) -> Option<(Note<'_>, &[u8])>
    ensures { IfSome result (λ found. length found.1.now ≤ length bytes.now) }
{
    let (place, rest) = bytes.split_at_checked(len as usize)?;
    let (said, rest) = number(rest)?;
    if said == sum(place) {
        Some((Note::Place(place), rest))
    } else {
        None
    }
}

/// The number with which bytes begin, and those behind it.
fn number(bytes: &[u8]) -> Option<(u64, &[u8])>
    ensures { IfSome result (λ found. length found.1.now ≤ length bytes.now) }
{
    let (number, rest) = bytes.split_first_chunk()?;
    Some((u64::from_be_bytes(*number), rest))
}

/// What is whole of what was done in an epoch.
#[derive(Drop)]
pub(crate) struct Kept<'a> {
    /// The gates of the store: the first, and the one behind each commit that is there, one behind the other.
    pub gates: Vec<u64>,
    /// The places that were touched.
    pub places: Vec<&'a [u8]>,
    /// The sum of the last of these commits and all before it.
    sum: u64,
    /// Whether each commit that was noted is there.
    is_whole: bool,
}

impl<'a> Kept<'a> {
    /// What is whole by the notes and the bytes of the store.
    pub fn of(
        alloc: Global,
        head: Head,
        store: &[u8],
        notes: &'a [u8],
    ) -> Result<Kept<'a>, AllocError> {
        let mut kept = Kept {
            gates: vec![in alloc; head.gate]?,
            places: Vec::new(alloc),
            sum: head.sum,
            is_whole: true,
        };
        let mut rest = notes;
        while let Some((note, behind)) = Note::first(rest) {
            kept.take(store, note)?;
            rest = behind;
        }
        Ok(kept)
    }

    fn take(&mut self, store: &[u8], note: Note<'a>) -> Result<(), AllocError> {
        match note {
            Note::Place(place) => self.places.push(place)?,
            Note::Commit { len, sum } => self.take_commit(store, len, sum)?,
        }
        Ok(())
    }

    // One more commit is there if all before it are, and its bytes have the sum that was noted.
    fn take_commit(&mut self, store: &[u8], len: u64, sum: u64) -> Result<(), AllocError> {
        let gate = self.gate();
        let next = gate.saturating_add(len);
        let there = store.get(gate.saturating_add(1) as usize..next as usize);
        self.is_whole = self.is_whole
            && there.is_some_and(|bytes| sum_behind(self.sum, bytes) == sum);
        if self.is_whole {
            self.gates.push(next)?;
            self.sum = sum;
        }
        Ok(())
    }

    // The last gate.
    fn gate(&self) -> u64 {
        match self.gates.last() {
            Some(gate) => *gate,
            None => 0,
        }
    }
}
