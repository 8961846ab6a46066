//! How many bytes entries take.
ghost use Rattle.std.specs.Prelude.{◌≡◌, ◌+◌, ◌≤◌, length, cond, List, ℕ, All, Some, IfErr, OnOk, MatchResult};
ghost use Rattle.std.specs.BTreeMap.{get, is_at};
ghost use Rattle.tup_path.specs.Order.{by_bytes};
ghost use Rattle.tup_table.specs.Appending.{HasShortKey};
ghost use Rattle.tup_table.specs.Compact.{size_of, size_known, size_left, live_by};
ghost use Rattle.tup_table.specs.Entries.{committed, key_of as key_of_change};

use crate::change::Change;
use crate::entries::Entries;
use crate::fault::TableFault;
use std::alloc::Global;
use std::collections::BTreeMap;
use tup_path::Bytes;

/// How many bytes a commit takes to put a key of at most 65,535 bytes.
pub(crate) fn put_size(key: &Bytes, value: &Bytes) -> u64
    requires { length key.now ≤ 65535 }
    ensures { result ≡ 7 + length key.now + length value.now }
{
    7 + key.as_slice().len() as u64 + value.as_slice().len() as u64
}

/// More bytes than memory has.
const MAX_SIZE: u64 = 1 << 62;

/// How many bytes a compacted store has whose entries take this many.
pub(crate) fn live_of(size: u64) -> u64
    requires { size ≤ 4611686018427387904 }
    ensures { result ≡ live_by size }
{
    if size == 0 { 18 } else { 23 + size }
}

/// How many bytes the entries take once changes are made. There is no memory for more than `MAX_SIZE`.
pub(crate) fn size_after(
    alloc: Global,
    entries: &Entries,
    changes: &[Change],
) -> Result<u64, TableFault>
    requires { All HasShortKey changes.now }
    ensures { MatchResult result
        (λ size. (size ≤ 4611686018427387904)
        × ((origin : ℕ) → size ≡ size_of (committed origin entries.now changes.now)))
        (λ fault. fault ≡ TableFault.Memory) }
{
    entries.keys_ascend();
    let mut changed = BTreeMap::new(alloc);
    let mut size = entries.size();
    for change in changes {
        let key = key_of(change);
        let before = size_before(entries, &changed, key);
        let after = change_size(change);
        let rest = size - before;
        size = with(rest, after)?;
        note_size(&mut changed, key, after)?;
    }
    Ok(size)
}

/// Notes the size that is left under a key.
fn note_size(changed: &mut BTreeMap<Bytes, u64>, key: &Bytes, size: u64) -> Result<(), TableFault>
    ensures ok { OnOk result ((other : List ℕ) → get by_bytes changed.new other
        ≡ cond (is_at (by_bytes key.now) other) (Some size) (get by_bytes changed.old other)) }
    ensures err { IfErr result (λ fault. fault ≡ TableFault.Memory) }
{
    changed.insert(key.clone()?, size)?;
    Ok(())
}

/// How many bytes the entry of a key takes after changes that left these sizes under their keys.
fn size_before(entries: &Entries, changed: &BTreeMap<Bytes, u64>, key: &Bytes) -> u64
    ensures { result ≡ size_known entries.now (get by_bytes changed.now key.now) key.now }
{
    match changed.get(key) {
        Some(size) => *size,
        None => entries.size_at(key),
    }
}

/// The sum of two sizes, for which there is memory.
pub(crate) fn with(size: u64, more: u64) -> Result<u64, TableFault>
    ensures { MatchResult result
        (λ sum. (sum ≡ size + more) × (sum ≤ 4611686018427387904))
        (λ fault. fault ≡ TableFault.Memory) }
{
    match size.checked_add(more) {
        Some(sum) if sum <= MAX_SIZE => Ok(sum),
        _ => Err(TableFault::Memory),
    }
}

/// The key that a change is about.
fn key_of(change: &Change) -> &Bytes
    ensures { result.now ≡ key_of_change change.now }
{
    match change {
        Change::Put { key, .. } | Change::Delete { key } => key,
    }
}

/// How many bytes the entry takes that a change leaves under its key.
pub(crate) fn change_size(change: &Change) -> u64
    requires { HasShortKey change.now }
    ensures { result ≡ size_left change.now }
{
    match change {
        Change::Put { key, value } => put_size(key, value),
        Change::Delete { .. } => 0,
    }
}
