//! How the spelling of a record is read.
ghost use Rattle.std.specs.Prelude.{◌≡◌, ◌⊎◌, ◌∷◌, ◌<◌, List, ℕ, Ok, Err, IfOk};
ghost use Rattle.tup_path.specs.Gives.{GivesUnless};
ghost use Rattle.tup_record.specs.Reading.{whole as whole_of, parts as parts_of, kinds, record_at, Gives, GoesOn};
ghost use Rattle.tup_record.specs.Spelling.{Fits, IsSpelled, key_of, value_of};
ghost use Rattle.tup_record.specs.declared.record.Record.{Record};

use crate::owned::OwnedState;
use crate::record::Record;
use crate::run::RunRecord;
use std::alloc::Global;
use tup_field::{Field, Reader, RecordFault};
use tup_path::{Bytes, Path};
use tup_rule::{Reading, Rule};
use tup_stamp::Stamp;

/// The record that a key and a value spell. The first place that doesn't fit is refused, from the left, the key
/// before the value: `Short` where a field isn't whole, `BadKind` where the key's first byte isn't 1 to 7, `BadField`
/// where bytes spell no value of their field, `Trailing` where bytes are left behind the last field.
pub fn decode(alloc: Global, key: &Bytes, value: &Bytes) -> Result<Record, RecordFault>
    // What is read is spelled so.
    ensures found { IfOk result (IsSpelled key.now value.now) }
    // What is spelled so is read.
    ensures only { (entry : Record) → IsSpelled key.now value.now entry → Gives result (Ok entry) }
    // A spelling that is cut off is short.
    ensures short_key { (entry : Record) → Fits entry → GoesOn key.now (key_of entry)
        → Gives result (Err RecordFault.Short) }
    ensures short_value { (entry : Record) → Fits entry → key.now ≡ key_of entry
        → GoesOn value.now (value_of entry) → Gives result (Err RecordFault.Short) }
    // Bytes behind a spelling are trailing.
    ensures trailing_key { (entry : Record) → Fits entry → GoesOn (key_of entry) key.now
        → Gives result (Err RecordFault.Trailing) }
    ensures trailing_value { (entry : Record) → Fits entry → key.now ≡ key_of entry
        → GoesOn (value_of entry) value.now → Gives result (Err RecordFault.Trailing) }
    // The kinds are 1 to 7.
    ensures bad_kind { (kind : ℕ) (rest : List ℕ) → (kind ≡ 0) ⊎ (7 < kind) → key.now ≡ kind ∷ rest
        → Gives result (Err RecordFault.BadKind) }
    // Which fault it is.
    ensures exact { Gives result (record_at key.now value.now) }
{
    entry(alloc, key.as_slice(), value.as_slice())
}

/// The record that a key and a value spell.
fn entry(alloc: Global, key: &[u8], value: &[u8]) -> Result<Record, RecordFault>
    ensures found { IfOk result (IsSpelled key.now value.now) }
    ensures exact { Gives result (record_at key.now value.now) }
{
    let Some((kind, key)) = key.split_first() else {
        return Err(RecordFault::Short);
    };
    of_kind(alloc, *kind, key, value)
}

/// The record of a kind.
fn of_kind(alloc: Global, kind: u8, key: &[u8], value: &[u8]) -> Result<Record, RecordFault>
    ensures { Gives result (kinds kind key.now value.now) }
{
    match kind {
        1 => {
            let (path, stamp) = parts::<Path, Stamp>(alloc, key, value)?;
            Ok(Record::Seen { path, stamp })
        }
        2 => {
            let (dir, reading) = parts::<Path, Reading>(alloc, key, value)?;
            Ok(Record::Reading { dir, reading })
        }
        3 => {
            let (number, (place, rule)) = parts::<u32, (u32, Rule)>(alloc, key, value)?;
            Ok(Record::Rule {
                number,
                place,
                rule,
            })
        }
        4 => {
            let (number, run) = parts::<u32, RunRecord>(alloc, key, value)?;
            Ok(Record::Run { number, run })
        }
        5 => {
            let (path, (maker, state)) = parts::<Path, (Option<u32>, OwnedState)>(
                alloc, key, value,
            )?;
            Ok(Record::Owned { path, maker, state })
        }
        6 => {
            let (dir, ()) = parts::<Path, ()>(alloc, key, value)?;
            Ok(Record::Create { dir })
        }
        7 => {
            let (number, ()) = parts::<u32, ()>(alloc, key, value)?;
            Ok(Record::Modify { number })
        }
        _ => Err(RecordFault::BadKind),
    }
}

/// What all bytes of a key and all bytes of a value spell, the key first.
fn parts<K: Field, V: Field>(alloc: Global, key: &[u8], value: &[u8]) -> Result<(K, V), RecordFault>
    ensures { GivesUnless result RecordFault.Memory (parts_of K.format V.format key.now value.now) }
{
    let key = whole::<K>(alloc, key)?;
    let value = whole::<V>(alloc, value)?;
    Ok((key, value))
}

/// What all of the bytes spell.
fn whole<T: Field>(alloc: Global, bytes: &[u8]) -> Result<T, RecordFault>
    ensures { GivesUnless result RecordFault.Memory (whole_of T.format bytes.now) }
{
    let mut reader = Reader::new(bytes);
    let value = T::read(alloc, &mut reader)?;
    if !reader.is_done() {
        return Err(RecordFault::Trailing);
    }
    Ok(value)
}
