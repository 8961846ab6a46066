//! Changes as they stand in the bytes of a store.
ghost use Rattle.std.specs.Prelude.{◌≡◌, IfOk};

use crate::entry::Entry;
use std::alloc::{AllocError, Global};
use std::marker::Model;
use tup_path::Bytes;

/// A change of a store that is read: its key, and the value that it puts there, if it puts one. Both are pieces of the store's
/// bytes. Contracts see the change.
#[derive(Drop)]
pub(crate) struct Seen<'a> {
    pub(crate) key: &'a [u8],
    pub(crate) value: Option<&'a [u8]>,
}

impl<'a> Model for Seen<'a> {
    ghost use Rattle.std.specs.Option.{option_copied};
    ghost use Rattle.tup_table.specs.Slots.{change_with};
    ghost use Rattle.tup_table.specs.declared.change.Change.{Change};

    ghost Value = { Change };

    ghost view = { λ s. change_with s.key.now (option_copied s.value) };
}

/// A change with the offset of the gate of its commit. Contracts see its key and what it leaves there.
#[derive(Drop)]
pub(crate) struct SeenSlot<'a> {
    pub(crate) change: Seen<'a>,
    pub(crate) origin: u64,
}

impl<'a> Model for SeenSlot<'a> {
    ghost use Rattle.std.specs.Prelude.{List, ℕ, Option};
    ghost use Rattle.tup_table.specs.Slots.{slot_of};
    ghost use Rattle.tup_table.specs.declared.entry.Entry.{Entry};

    ghost Value = { List ℕ × Option Entry };

    ghost view = { λ s. slot_of s.origin s.change };
}

impl<'a> SeenSlot<'a> {
    /// The key.
    pub(crate) fn key(&self) -> &'a [u8]
        ensures { result.now ≡ self.now.0 }
    {
        self.change.key
    }

    /// The key and what the change leaves there, copied.
    pub(crate) fn copied(&self, alloc: Global) -> Result<(Bytes, Option<Entry>), AllocError>
        ensures { IfOk result (λ slot. slot ≡ self.now) }
    {
        let key = Bytes::new(Vec::from_slice(alloc, self.change.key)?);
        let Some(value) = self.change.value else {
            return Ok((key, None));
        };
        let value = Bytes::new(Vec::from_slice(alloc, value)?);
        let entry = Entry {
            value,
            origin: self.origin,
        };
        Ok((key, Some(entry)))
    }
}
