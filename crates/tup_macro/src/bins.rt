//! Bins of paths by their names.
ghost use Rattle.std.specs.Prelude.{◌≡◌, ◌⊎◌, [], Ok, Some, None, Err, IfOk, IfErr, OnOk, ◌↔◌, bytes_eq};
ghost use Rattle.std.specs.List.Sorted.{IsStrictlySortedBy};
ghost use Rattle.tup_path.specs.Order.{by_names};
ghost use Rattle.tup_macro.specs.Gifts.{members_of, with_gift, IsOneMore};

use crate::fault::MacroFault;
use crate::gifts::Gifts;
use std::alloc::Global;
use std::marker::Model;
use tup_path::{Path, Paths, Text};

/// Bins by their names, in the order of their first gifts. Contracts see the list of names with
/// their members.
#[derive(Drop)]
pub struct Bins {
    gifts: Gifts<Text>,
}

impl Model for Bins {
    ghost use Rattle.std.specs.Prelude.{List, ℕ};

    ghost Value = { List (List ℕ × List (List (List ℕ))) };

    ghost view = { λ table. table.gifts };
}

impl Bins {
    /// The table without a bin; it takes no memory.
    pub fn new(alloc: Global) -> Result<Bins, MacroFault>
        ensures { result ≡ Ok [] }
    {
        Ok(Bins {
            gifts: Gifts::new(alloc),
        })
    }

    /// Gives a path to a bin, which holds it once. After a refusal the table is as it was.
    pub fn add(&mut self, name: &Text, path: &Path) -> Result<(), MacroFault>
        ensures given { OnOk result (self.new ≡ with_gift bytes_eq self.old name.now path.now) }
        ensures one_more { OnOk result (IsOneMore bytes_eq self.old self.new name.now path.now) }
        ensures refused { IfErr result (λ fault.
            (fault ≡ MacroFault.Memory) × (self.new ≡ self.old)) }
    {
        self.gifts.add(name.clone()?, path.clone()?)
    }

    /// The paths of a bin in their order. `NoSuchBin` comes just where nothing was given to it.
    pub fn members(&self, alloc: Global, name: &Text) -> Result<Paths, MacroFault>
        ensures members { IfOk result (λ paths.
            members_of bytes_eq self.now name.now ≡ Some paths) }
        ensures ordered { IfOk result (λ paths. IsStrictlySortedBy by_names paths) }
        ensures unknown { (result ≡ Err MacroFault.NoSuchBin)
            ↔ (members_of bytes_eq self.now name.now ≡ None) }
        ensures refused { IfErr result (λ fault.
            (fault ≡ MacroFault.NoSuchBin) ⊎ (fault ≡ MacroFault.Memory)) }
    {
        match self.gifts.members(alloc, name)? {
            Some(members) => Ok(members),
            None => Err(MacroFault::NoSuchBin),
        }
    }
}
