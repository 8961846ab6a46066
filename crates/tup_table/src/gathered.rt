//! The entries of a store while it is read.
ghost use Rattle.std.specs.Prelude.{◌≡◌, ◌+◌, ◌≤◌, [], ◌∷◌, ◌++◌, length, IsTrue, OnOk, IfOk, IfErr, MatchResult};
ghost use Rattle.std.specs.BTreeMap.{IsOrdered};
ghost use Rattle.tup_path.specs.Order.{by_bytes};
ghost use Rattle.tup_table.specs.Compact.{size_in, size_of};
ghost use Rattle.tup_table.specs.Entries.{changed};
ghost use Rattle.tup_table.specs.KeyFronts.{AreByFronts, front_by as front_of_first, front_of};
ghost use Rattle.tup_table.specs.Slots.{gathered, IsReplaced, LeaveAlike, standing};
ghost use Rattle.tup_table.specs.Spelling.{ChangeFits};

use crate::entries::Entries;
use crate::entry::Entry;
use crate::fault::TableFault;
use crate::seen::{Seen, SeenSlot};
use crate::size::with;
use crate::slots::Slots;
use byteorder::{BigEndian, ByteOrder};
use std::alloc::{AllocError, Global};
use std::marker::Model;
use tup_path::{Bytes, Items};

/// What changes leave under their keys, in the order of the changes; of a key the last one counts. They are put in order at
/// once, which takes far fewer comparisons than one search for each change, and copied once they are in order. Contracts see
/// the entries that they leave.
#[derive(Drop)]
pub(crate) struct Gathered<'a> {
    slots: Items<SeenSlot<'a>>,
}

impl<'a> Model for Gathered<'a> {
    ghost use Rattle.std.specs.Prelude.{List, ℕ, []};
    ghost use Rattle.tup_table.specs.Compact.{EntriesFit};
    ghost use Rattle.tup_table.specs.Slots.{gathered, standing};
    ghost use Rattle.tup_table.specs.declared.entry.Entry.{Entry};

    ghost Value = { List (List ℕ × Entry) };

    ghost view = { λ g. standing (gathered [] g.slots) };

    ghost invariant = { λ g. EntriesFit (standing (gathered [] g.slots)) };
}

impl<'a> Gathered<'a> {
    /// No changes; it takes no memory.
    pub(crate) fn new(alloc: Global) -> Gathered<'a>
        ensures { result ≡ [] }
    {
        Gathered {
            slots: Items::new(alloc),
        }
    }

    /// Takes in a change of the commit behind the gate at an offset.
    pub(crate) fn apply(&mut self, change: Seen<'a>, origin: u64) -> Result<(), TableFault>
        requires { ChangeFits change }
        ensures ok { OnOk result (self.new ≡ changed origin self.old change.entry) }
        ensures err { IfErr result (λ fault. fault ≡ TableFault.Memory) }
    {
        self.slots.push(SeenSlot { change, origin })?;
        Ok(())
    }

    /// The entries that the changes leave.
    pub(crate) fn into_entries(self, alloc: Global) -> Result<Entries, TableFault>
        ensures { MatchResult result
            (λ entries. entries ≡ self.entry) (λ fault. fault ≡ TableFault.Memory) }
    {
        let slots = in_order(alloc, self.slots.into_vec())?;
        let size = size_taken(&slots)?;
        Ok(Entries { slots, size })
    }
}

/// Slots in the byte order of keys, the last one of each key. Most are in order once their fronts are, which are compared as
/// numbers.
fn in_order(alloc: Global, slots: Vec<SeenSlot<'_>>) -> Result<Slots, AllocError>
    ensures entries { IfOk result (λ map. map.entries ≡ gathered [] slots.entry.items) }
    ensures ordered { IfOk result (IsOrdered by_bytes) }
{
    let sorted = by_fronts(slots)?;
    let kept = last_copied(alloc, sorted.as_slice())?;
    drop(sorted);
    kept.into_iter().collect(alloc)
}

/// Slots in the order of the fronts of their keys; those of one front stay in their order.
fn by_fronts(mut slots: Vec<SeenSlot<'_>>) -> Result<Vec<SeenSlot<'_>>, AllocError>
    ensures { IfOk result (λ sorted. AreByFronts slots.entry.items sorted.items) }
{
    slots.sort_by_cached_key(|slot| front(slot.key()))?;
    Ok(slots)
}

/// Slots copied, but for those that the next one replaces.
fn last_copied(
    alloc: Global,
    slots: &[SeenSlot<'_>],
) -> Result<Vec<(Bytes, Option<Entry>)>, AllocError>
    ensures { IfOk result (λ kept. LeaveAlike kept.items slots.now) }
{
    let mut kept = Vec::with_capacity(alloc, slots.len())?;
    let mut at = 0;
    'left: while at < slots.len() {
        keep(alloc, &mut kept, &slots[at], &slots[at + 1..])?;
        at += 1;
    }
    Ok(kept)
}

/// Adds a slot, unless it is replaced by the first of those behind it.
fn keep(
    alloc: Global,
    kept: &mut Vec<(Bytes, Option<Entry>)>,
    slot: &SeenSlot<'_>,
    behind: &[SeenSlot<'_>],
) -> Result<(), AllocError>
    ensures { OnOk result
        (LeaveAlike (kept.new.items ++ behind.now) (kept.old.items ++ slot.now ∷ behind.now)) }
{
    if is_replaced(slot, behind) {
        return Ok(());
    }
    kept.push(slot.copied(alloc)?)?;
    Ok(())
}

/// Whether a slot is replaced by the next one.
fn is_replaced(slot: &SeenSlot<'_>, behind: &[SeenSlot<'_>]) -> bool
    ensures { IsTrue result → IsReplaced slot.now behind.now }
{
    match behind.first() {
        Some(next) => next.key() == slot.key(),
        None => false,
    }
}

/// The front of a key: its first 16 bytes as a number, or all of them with as many zeros behind them as there are less.
fn front(key: &[u8]) -> u128
    ensures { result ≡ front_of key.now }
{
    if key.len() >= 16 {
        return front_by(key, 16);
    }
    if key.is_empty() {
        return 0;
    }
    front_by(key, key.len())
}

/// So many first bytes of a key as a number, in the place of the highest of 16 bytes.
fn front_by(key: &[u8], count: usize) -> u128
    requires some { 1 ≤ count }
    requires few { count ≤ 16 }
    requires there { count ≤ length key.now }
    ensures { result ≡ front_of_first count key.now }
{
    let number = BigEndian::read_uint128(key, count);
    number.rotate_right(8 * count as u32)
}

/// How many bytes the entries of slots take in a commit.
fn size_taken(slots: &Slots) -> Result<u64, TableFault>
    ensures { MatchResult result
        (λ size. (size ≡ size_of (standing slots.now.entries)) × (size ≤ 4611686018427387904))
        (λ fault. fault ≡ TableFault.Memory) }
{
    let mut size = 0;
    for (key, slot) in slots.iter() {
        size = with_slot(size, key, slot)?;
    }
    Ok(size)
}

/// A size and that of the entry of a slot, if there is one.
fn with_slot(size: u64, key: &Bytes, slot: &Option<Entry>) -> Result<u64, TableFault>
    requires { size ≤ 4611686018427387904 }
    ensures { MatchResult result
        (λ sum. (sum ≡ size + size_in key.now slot.now) × (sum ≤ 4611686018427387904))
        (λ fault. fault ≡ TableFault.Memory) }
{
    match slot {
        Some(entry) => with_entry(size, key, &entry.value),
        None => Ok(size),
    }
}

/// A size and that of the entry of a key with this value.
fn with_entry(size: u64, key: &Bytes, value: &Bytes) -> Result<u64, TableFault>
    ensures { MatchResult result
        (λ sum. (sum ≡ size + (7 + length key.now + length value.now))
        × (sum ≤ 4611686018427387904))
        (λ fault. fault ≡ TableFault.Memory) }
{
    let size = with(size, 7)?;
    let size = with(size, key.as_slice().len() as u64)?;
    let size = with(size, value.as_slice().len() as u64)?;
    Ok(size)
}
