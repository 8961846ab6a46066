//! The entries of a table.
ghost use Rattle.std.specs.Prelude.{◌≡◌, ◌≤◌, [], option_map};
ghost use Rattle.std.specs.Option.{option_copied};
ghost use Rattle.tup_table.specs.Compact.{EntriesFit, live_size, size_at, size_of};
ghost use Rattle.tup_table.specs.Entries.{IsAscending, entry_at};

use crate::entry::Entry;
use crate::size::{live_of, put_size};
use crate::slots::Slots;
use std::alloc::Global;
use std::collections::BTreeMap;
use std::collections::btree_map::Iter;
use std::marker::Model;
use tup_path::Bytes;

/// Keys with what stands under them, in the byte order of keys. Contracts see that list.
#[derive(Drop)]
pub struct Entries {
    pub(crate) slots: Slots,
    /// How many bytes the entries take in a commit.
    pub(crate) size: u64,
}

impl Model for Entries {
    ghost use Rattle.std.specs.Prelude.{List, ℕ};
    ghost use Rattle.std.specs.BTreeMap.{IsOrdered};
    ghost use Rattle.tup_path.specs.Order.{by_bytes};
    ghost use Rattle.tup_table.specs.Slots.{AreSlotsOf, standing};
    ghost use Rattle.tup_table.specs.declared.entry.Entry.{Entry};

    ghost Value = { List (List ℕ × Entry) };

    ghost view = { λ e. standing e.slots.entries };

    ghost invariant = { λ e. IsOrdered by_bytes e.slots × AreSlotsOf e.size e.slots.entries };
}

impl Entries {
    ghost use Rattle.tup_table.specs.Slots.{standing};

    /// No entries; it takes no memory.
    pub fn new(alloc: Global) -> Entries
        ensures { result ≡ [] }
    {
        Entries {
            slots: BTreeMap::new(alloc),
            size: 0,
        }
    }

    /// The value of a key. It takes the logarithm of the number of keys in steps.
    pub fn get(&self, key: &Bytes) -> Option<&Bytes>
        ensures { option_copied result ≡ option_map (λ e. e.value) (entry_at self.now key.now) }
    {
        match self.entry(key) {
            Some(entry) => Some(&entry.value),
            None => None,
        }
    }

    /// The offset of the gate of the commit that put a key's value.
    pub fn origin(&self, key: &Bytes) -> Option<u64>
        ensures { result ≡ option_map (λ e. e.origin) (entry_at self.now key.now) }
    {
        match self.entry(key) {
            Some(entry) => Some(entry.origin),
            None => None,
        }
    }

    /// What stands under a key.
    fn entry(&self, key: &Bytes) -> Option<&Entry>
        ensures { option_copied result ≡ entry_at self.now key.now }
    {
        match self.slots.get(key) {
            Some(slot) => slot.as_ref(),
            None => None,
        }
    }

    /// A law: the keys ascend in byte order, so each stands once.
    pub fn keys_ascend(&self)
        ensures { IsAscending self.now }
    {
        let _slots = &self.slots;
    }

    /// The keys in their byte order, each with what stands under it, or `None` where a key has no value any more.
    pub fn iter(&self) -> Iter<'_, Bytes, Option<Entry>>
        ensures { standing result ≡ self.now }
    {
        self.slots.iter()
    }

    /// How many bytes a store of these entries has once it is compacted.
    pub fn live(&self) -> u64
        ensures { result ≡ live_size self.now }
    {
        live_of(self.size)
    }

    /// A law: each entry can be put by a commit.
    pub(crate) fn fit(&self)
        ensures { EntriesFit self.now }
    {
        let _slots = &self.slots;
    }

    /// How many bytes the entries take in a commit.
    pub(crate) fn size(&self) -> u64
        ensures { (result ≡ size_of self.now) × (result ≤ 4611686018427387904) }
    {
        self.size
    }

    /// How many bytes the entry of a key takes in a commit.
    pub(crate) fn size_at(&self, key: &Bytes) -> u64
        ensures { result ≡ size_at self.now key.now }
    {
        self.fit();
        match self.entry(key) {
            Some(entry) => put_size(key, &entry.value),
            None => 0,
        }
    }
}
