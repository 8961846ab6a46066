//! How entries are kept in memory.
ghost use Rattle.std.specs.Prelude.{◌≡◌, OnOk, IfErr, MatchResult};
ghost use Rattle.std.specs.BTreeMap.{insert_entry, IsOrdered};
ghost use Rattle.tup_path.specs.Order.{by_bytes};
ghost use Rattle.tup_table.specs.Entries.{changed, committed};
ghost use Rattle.tup_table.specs.Slots.{standing, HasSlot, HasRoom, HaveRoom, RoomStays};

use crate::change::Change;
use crate::entry::Entry;
use crate::fault::TableFault;
use std::alloc::Global;
use std::collections::{BTreeMap, VecDeque};
use tup_path::Bytes;

/// Keys with what stands under them; `None` where a key has room and no value.
pub(crate) type Slots = BTreeMap<Bytes, Option<Entry>>;

/// Makes room for the keys that changes put. What stands there stays, also after a refusal.
pub(crate) fn make_room(
    alloc: Global,
    slots: &mut Slots,
    changes: &[Change],
) -> Result<(), TableFault>
    requires { IsOrdered by_bytes slots.old }
    ensures same { standing slots.new.entries ≡ standing slots.old.entries }
    ensures room { OnOk result (HaveRoom slots.new.entries changes.now) }
    ensures err { IfErr result (λ fault. fault ≡ TableFault.Memory) }
    ensures ordered { IsOrdered by_bytes slots.new }
{
    for change in changes {
        if let Change::Put { key, .. } = change {
            make_slot(alloc, slots, key)?;
        }
    }
    Ok(())
}

/// Makes room for a key. What stands there stays, also after a refusal, and no room goes.
fn make_slot(alloc: Global, slots: &mut Slots, key: &Bytes) -> Result<(), TableFault>
    requires { IsOrdered by_bytes slots.old }
    ensures same { standing slots.new.entries ≡ standing slots.old.entries }
    ensures room { OnOk result (HasSlot slots.new.entries key.now) }
    ensures kept { RoomStays slots.old.entries slots.new.entries }
    ensures err { IfErr result (λ fault. fault ≡ TableFault.Memory) }
    ensures ordered { IsOrdered by_bytes slots.new }
{
    if !slots.contains_key(key) {
        let key = Bytes::new(Vec::from_slice(alloc, key.as_slice())?);
        slots.insert(key, None)?;
    }
    Ok(())
}

/// The changes copied, to be taken in once they are written.
pub(crate) fn copies(alloc: Global, changes: &[Change]) -> Result<VecDeque<Change>, TableFault>
    ensures { MatchResult result
        (λ copies. copies.items ≡ changes.now) (λ fault. fault ≡ TableFault.Memory) }
{
    let mut copies = VecDeque::with_capacity(alloc, changes.len())?;
    for change in changes {
        copies.push_back(change.clone()?)?;
    }
    Ok(copies)
}

/// Takes in the changes of the commit behind the gate at an offset, for which there is room. It takes no memory.
pub(crate) fn settle(slots: &mut Slots, mut changes: VecDeque<Change>, origin: u64)
    requires ordered { IsOrdered by_bytes slots.old }
    requires room { HaveRoom slots.old.entries changes.items }
    ensures committed { standing slots.new.entries
        ≡ committed origin (standing slots.old.entries) changes.items }
    ensures ordered { IsOrdered by_bytes slots.new }
{
    'changes: while let Some(change) = changes.pop_front() {
        settle_change(slots, change, origin);
    }
}

/// Takes in a change for which there is room; no room goes.
fn settle_change(slots: &mut Slots, change: Change, origin: u64)
    requires ordered { IsOrdered by_bytes slots.old }
    requires room { HasRoom slots.old.entries change }
    ensures changed { standing slots.new.entries
        ≡ changed origin (standing slots.old.entries) change }
    ensures kept { RoomStays slots.old.entries slots.new.entries }
    ensures ordered { IsOrdered by_bytes slots.new }
{
    match change {
        Change::Put { key, value } => put(slots, key, Some(Entry { value, origin })),
        Change::Delete { key } => {
            if slots.contains_key(&key) {
                put(slots, key, None);
            }
        }
    }
}

/// Fills a key's slot, which is there, or empties it.
fn put(slots: &mut Slots, key: Bytes, slot: Option<Entry>)
    requires { HasSlot slots.old.entries key }
    ensures entries { slots.new.entries ≡ insert_entry by_bytes slots.old.entries key slot }
    ensures ordered { IsOrdered by_bytes slots.new }
    ensures kept { RoomStays slots.old.entries slots.new.entries }
{
    match slots.insert(key, slot) {
        Ok(_) => {}
        Err(_) => unreachable!(),
    }
}
