//! What compacting writes.
ghost use Rattle.std.specs.Prelude.{◌≡◌, [], ◌∷◌, ◌++◌, ◌<◌, ◌≤◌, OnOk, MatchResult};
ghost use Rattle.tup_table.specs.Compact.{EntryFits, compact_area as area_of, compacted, live_size, put_of, puts, size_of};
ghost use Rattle.tup_table.specs.Reading.{opened_of};
ghost use Rattle.tup_table.specs.Spelling.{payload, change_spelling};
ghost use Rattle.tup_table.specs.Store.{most_live};

use crate::entries::Entries;
use crate::entry::Entry;
use crate::fault::TableFault;
use crate::opened::Opened;
use crate::reading::{LOW, read_area};
use crate::sized::{push_long, push_number, push_short};
use std::alloc::{AllocError, Global};
use tup_path::Bytes;

/// What a store is compacted to.
#[derive(Drop)]
pub(crate) struct Snapshot {
    /// The bytes of its low area.
    pub area: Bytes,
    /// What they stand for.
    pub opened: Opened,
}

/// What a store of these entries is compacted to.
pub(crate) fn snapshot_of(alloc: Global, entries: &Entries) -> Result<Snapshot, TableFault>
    requires { live_size entries.now ≤ most_live }
    ensures { MatchResult result
        (λ snapshot. (snapshot.area ≡ area_of entries.now)
        × (snapshot.opened ≡ opened_of (compacted entries.now)))
        (λ fault. fault ≡ TableFault.Memory) }
{
    entries.fit();
    let area = compact_area(alloc, entries)?;
    let opened = read_area(alloc, LOW, area.as_slice())?;
    Ok(Snapshot { area, opened })
}

/// One commit that puts all entries, behind an open gate, where there are any; and a closed gate.
fn compact_area(alloc: Global, entries: &Entries) -> Result<Bytes, TableFault>
    requires { live_size entries.now ≤ most_live }
    ensures { MatchResult result (λ bytes. bytes ≡ area_of entries.now) (λ fault. fault ≡ TableFault.Memory) }
{
    let taken = entries.size();
    if taken == 0 {
        return closed_gate(alloc);
    }
    let size = taken as u32;
    full_area(alloc, entries, size)
}

/// A closed gate alone.
fn closed_gate(alloc: Global) -> Result<Bytes, TableFault>
    ensures { MatchResult result (λ bytes. bytes ≡ 0 ∷ []) (λ fault. fault ≡ TableFault.Memory) }
{
    Ok(Bytes::new(Vec::from_slice(alloc, &[0])?))
}

/// One commit that puts all entries, which take this many bytes, behind an open gate; and a closed gate.
fn full_area(alloc: Global, entries: &Entries, size: u32) -> Result<Bytes, TableFault>
    requires size { size ≡ size_of entries.now }
    requires some { 0 < size }
    ensures { MatchResult result (λ bytes. bytes ≡ area_of entries.now) (λ fault. fault ≡ TableFault.Memory) }
{
    let mut bytes = Vec::with_capacity(alloc, size as usize + 6)?;
    bytes.extend_from_slice(&[1])?;
    push_number(&mut bytes, size)?;
    push_entries(&mut bytes, entries)?;
    bytes.extend_from_slice(&[0])?;
    Ok(Bytes::new(bytes))
}

/// Puts the spellings of the changes that put all entries at the end.
fn push_entries(bytes: &mut Vec<u8>, entries: &Entries) -> Result<(), AllocError>
    ensures { OnOk result (bytes.new.items ≡ bytes.old.items ++ payload (puts entries.now)) }
{
    entries.fit();
    for (key, slot) in entries.iter() {
        if let Some(entry) = slot {
            push_entry(bytes, key, entry)?;
        }
    }
    Ok(())
}

/// Puts the spelling of the change that puts an entry at the end.
fn push_entry(bytes: &mut Vec<u8>, key: &Bytes, entry: &Entry) -> Result<(), AllocError>
    requires { EntryFits (key.now, entry.now) }
    ensures { OnOk result (bytes.new.items
        ≡ bytes.old.items ++ change_spelling (put_of (key.now, entry.now.value))) }
{
    bytes.extend_from_slice(&[1])?;
    push_short(bytes, key.as_slice())?;
    push_long(bytes, entry.value.as_slice())
}
