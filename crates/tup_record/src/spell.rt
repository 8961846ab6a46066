//! How a record is spelled.
ghost use Rattle.std.specs.Prelude.{◌≡◌, ◌∷◌, MatchResult};
ghost use Rattle.tup_field.specs.Format.{IsUnwritten};
ghost use Rattle.tup_field.specs.Parts.{◌&◌};
ghost use Rattle.tup_record.specs.Spelling.{KeyFits, KeyWritable, ValueFits, ValueWritable, Fits, IsWritable, key_of, value_of};

use crate::record::Record;
use std::alloc::Global;
use tup_field::{Field, RecordFault};
use tup_path::Bytes;

/// The key and the value that spell a record. A record in which a text has 2^32 bytes or more or a list 2^32 members or
/// more is refused as `BadField`, and no other is.
pub fn encode(alloc: Global, entry: &Record) -> Result<(Bytes, Bytes), RecordFault>
    ensures { MatchResult result
        (λ spelled. Fits entry.now × (spelled ≡ (key_of entry.now, value_of entry.now)))
        (IsUnwritten (IsWritable entry.now)) }
{
    let key = key(alloc, entry)?;
    let value = value(alloc, entry)?;
    Ok((key, value))
}

/// The key of a record: the byte of its kind, then what tells it from others of its kind.
fn key(alloc: Global, entry: &Record) -> Result<Bytes, RecordFault>
    ensures { MatchResult result
        (λ key. KeyFits entry.now × (key ≡ key_of entry.now))
        (IsUnwritten (KeyWritable entry.now)) }
{
    match entry {
        Record::Seen { path, .. } => marked(alloc, 1, path),
        Record::Reading { dir, .. } => marked(alloc, 2, dir),
        Record::Rule { number, .. } => marked(alloc, 3, number),
        Record::Run { number, .. } => marked(alloc, 4, number),
        Record::Owned { path, .. } => marked(alloc, 5, path),
        Record::Create { dir } => marked(alloc, 6, dir),
        Record::Modify { number } => marked(alloc, 7, number),
    }
}

/// The value of a record: all that isn't in its key.
fn value(alloc: Global, entry: &Record) -> Result<Bytes, RecordFault>
    ensures { MatchResult result
        (λ value. ValueFits entry.now × (value ≡ value_of entry.now))
        (IsUnwritten (ValueWritable entry.now)) }
{
    match entry {
        Record::Seen { stamp, .. } => alone(alloc, stamp),
        Record::Reading { reading, .. } => alone(alloc, reading),
        Record::Rule { place, rule, .. } => both(alloc, place, rule),
        Record::Run { run, .. } => alone(alloc, run),
        Record::Owned { maker, state, .. } => both(alloc, maker, state),
        Record::Create { .. } | Record::Modify { .. } => Ok(Bytes::new(Vec::new(alloc))),
    }
}

/// A field's spelling behind the byte of a kind.
fn marked<T: Field>(alloc: Global, kind: u8, field: &T) -> Result<Bytes, RecordFault>
    ensures { MatchResult result
        (λ bytes. T.format.Fits field.now × (bytes ≡ kind ∷ T.format.spelling field.now))
        (IsUnwritten (T.format.Writable field.now)) }
{
    let mut bytes = Bytes::new(Vec::new(alloc));
    bytes.extend_from_slice(&[kind])?;
    field.write(&mut bytes)?;
    Ok(bytes)
}

/// A field's spelling.
fn alone<T: Field>(alloc: Global, field: &T) -> Result<Bytes, RecordFault>
    ensures { MatchResult result
        (λ bytes. T.format.Fits field.now × (bytes ≡ T.format.spelling field.now))
        (IsUnwritten (T.format.Writable field.now)) }
{
    let mut bytes = Bytes::new(Vec::new(alloc));
    field.write(&mut bytes)?;
    Ok(bytes)
}

/// The spellings of two fields, one behind the other.
fn both<A: Field, B: Field>(alloc: Global, first: &A, second: &B) -> Result<Bytes, RecordFault>
    ensures { MatchResult result
        (λ bytes. (A.format & B.format).Fits (first.now, second.now)
        × (bytes ≡ (A.format & B.format).spelling (first.now, second.now)))
        (IsUnwritten ((A.format & B.format).Writable (first.now, second.now))) }
{
    let mut bytes = Bytes::new(Vec::new(alloc));
    first.write(&mut bytes)?;
    second.write(&mut bytes)?;
    Ok(bytes)
}
