//! The changes of a table that edits come to.
ghost use Rattle.std.specs.Prelude.{◌≡◌, ◌≢◌, ◌⊎◌, All, map, MatchResult, IfOk, IfErr, OnOk};
ghost use Rattle.std.specs.FinMap as finite;
ghost use Rattle.tup_record.specs.Spelling.{Fits, IsWritable, key_of as record_key, value_of};
ghost use Rattle.tup_table.specs.Entries.{key_of};
ghost use Rattle.tup_graph.specs.Changes.{last_changes as last_changes_of, changes_it as changes_it_of, needed};
ghost use Rattle.tup_graph.specs.Edits.{change_of as change_of_edit, HasSpelling, IsEditWritable};

use crate::edit::{Edit, Edits};
use crate::fault::GraphFault;
use std::alloc::Global;
use std::collections::BTreeMap;
use tup_field::RecordFault;
use tup_path::Bytes;
use tup_record::{Record, encode};
use tup_table::{Change, Entries};

/// The changes of a table with these entries that edits come to, in the byte order of keys: of each key the last one,
/// and none that changes nothing. `Full` where a list or a text in a record is too long to be spelled.
pub fn changes(alloc: Global, entries: &Entries, edits: &Edits) -> Result<Vec<Change>, GraphFault>
    ensures { MatchResult result
        (λ changes. (changes.items ≡ needed entries.now (map change_of_edit edits.now))
        × All HasSpelling edits.now)
        (λ fault. (fault ≡ GraphFault.Memory)
        ⊎ ((fault ≡ GraphFault.Full) × (¬ All IsEditWritable edits.now))) }
{
    let mut changes = Vec::new(alloc);
    for (_, change) in last_changes(alloc, edits)? {
        if changes_it(entries, &change) {
            changes.push(change)?;
        }
    }
    Ok(changes)
}

/// The last change of each key.
fn last_changes(alloc: Global, edits: &Edits) -> Result<BTreeMap<Bytes, Change>, GraphFault>
    ensures { MatchResult result
        (λ last. (last.entries ≡ finite.entries (last_changes_of (map change_of_edit edits.now)))
        × All HasSpelling edits.now)
        (λ fault. (fault ≡ GraphFault.Memory)
        ⊎ ((fault ≡ GraphFault.Full) × (¬ All IsEditWritable edits.now))) }
{
    let mut last = BTreeMap::new(alloc);
    for edit in edits.as_slice() {
        let (key, change) = keyed(alloc, edit)?;
        last.insert(key, change)?;
    }
    Ok(last)
}

/// The change that an edit is, with its key.
fn keyed(alloc: Global, edit: &Edit) -> Result<(Bytes, Change), GraphFault>
    ensures { MatchResult result
        (λ found. (found.0 ≡ key_of found.1) × (found.1 ≡ change_of_edit edit.now)
        × HasSpelling edit.now)
        (λ fault. (fault ≡ GraphFault.Memory)
        ⊎ ((fault ≡ GraphFault.Full) × (¬ IsEditWritable edit.now))) }
{
    match edit {
        Edit::Put(found) => {
            let (key, value) = spelled(alloc, found)?;
            Ok((key.clone()?, Change::Put { key, value }))
        }
        Edit::Remove(found) => {
            let (key, _) = spelled(alloc, found)?;
            Ok((key.clone()?, Change::Delete { key }))
        }
    }
}

/// The key and the value that spell a record.
fn spelled(alloc: Global, found: &Record) -> Result<(Bytes, Bytes), GraphFault>
    ensures { MatchResult result
        (λ spelled. Fits found.now × (spelled ≡ (record_key found.now, value_of found.now)))
        (λ fault. (fault ≡ GraphFault.Memory)
        ⊎ ((fault ≡ GraphFault.Full) × (¬ IsWritable found.now))) }
{
    match encode(alloc, found) {
        Ok(spelled) => Ok(spelled),
        Err(RecordFault::BadField) => Err(GraphFault::Full),
        Err(_) => Err(GraphFault::Memory),
    }
}

/// Whether another value stands under the key of a change than it leaves.
fn changes_it(entries: &Entries, change: &Change) -> bool
    ensures { result ≡ changes_it_of entries.now change.now }
{
    match change {
        Change::Put { key, value } => entries.get(key) != Some(value),
        Change::Delete { key } => entries.get(key).is_some(),
    }
}
