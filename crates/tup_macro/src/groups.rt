//! Groups of paths by their folders and names.
ghost use Rattle.std.specs.Prelude.{◌≡◌, [], Ok, IsSome, IfOk, IfSome, IfErr, OnOk, option_map};
ghost use Rattle.std.specs.List.Sorted.{IsStrictlySortedBy};
ghost use Rattle.tup_path.specs.Order.{by_names};
ghost use Rattle.tup_macro.specs.Gifts.{members_of, same_group, with_gift, IsOneMore};

use crate::fault::MacroFault;
use crate::gifts::Gifts;
use std::alloc::Global;
use std::collections::BTreeSet;
use std::marker::Model;
use tup_path::{Path, Paths};
use tup_rule::GroupRef;

/// Groups, in the order of their first gifts. Contracts see the list of groups with their members.
#[derive(Drop)]
pub struct Groups {
    gifts: Gifts<GroupRef>,
}

impl Model for Groups {
    ghost use Rattle.std.specs.Prelude.{List, ℕ};
    ghost use Rattle.tup_rule.specs.declared.draft.GroupRef.{GroupRef};

    ghost Value = { List (GroupRef × List (List (List ℕ))) };

    ghost view = { λ table. table.gifts };
}

impl Groups {
    /// The table without a group; it takes no memory.
    pub fn new(alloc: Global) -> Result<Groups, MacroFault>
        ensures { result ≡ Ok [] }
    {
        Ok(Groups {
            gifts: Gifts::new(alloc),
        })
    }

    /// Gives a path to a group, which holds it once. After a refusal the table is as it was.
    pub fn add(&mut self, group: &GroupRef, path: &Path) -> Result<(), MacroFault>
        ensures given { OnOk result (self.new ≡ with_gift same_group self.old group.now path.now) }
        ensures one_more { OnOk result (IsOneMore same_group self.old self.new group.now path.now) }
        ensures refused { IfErr result (λ fault.
            (fault ≡ MacroFault.Memory) × (self.new ≡ self.old)) }
    {
        self.gifts.add(group.clone()?, path.clone()?)
    }

    /// The paths of a group in their order, or `None` just where nothing was given to it.
    pub fn members(&self, alloc: Global, group: &GroupRef) -> Result<Option<Paths>, MacroFault>
        ensures members { IfOk result (λ found. found ≡ members_of same_group self.now group.now) }
        ensures ordered { IfOk result (λ found.
            IfSome found (λ paths. IsStrictlySortedBy by_names paths)) }
        ensures refused { IfErr result (λ fault.
            (fault ≡ MacroFault.Memory) × IsSome (members_of same_group self.now group.now)) }
    {
        self.gifts.members(alloc, group)
    }

    /// The set of the paths of a group, or `None` just where nothing was given to it. It takes no memory.
    pub fn get(&self, group: &GroupRef) -> Option<&BTreeSet<Path>>
        ensures { option_map (λ set. set.now.keys) result
            ≡ members_of same_group self.now group.now }
    {
        self.gifts.get(group)
    }
}
