//! Paths that were given to keys.
ghost use Rattle.std.specs.Prelude.{◌≡◌, ◌++◌, ◌∷◌, [], None, IsSome, IfOk, IfErr, IfSome, OnOk, option_map};
ghost use Rattle.std.specs.List.Sorted.{IsStrictlySortedBy};
ghost use Rattle.tup_path.specs.Order.{by_names};
ghost use Rattle.tup_macro.specs.Gifts.{members_of, with_gift};

use crate::fault::MacroFault;
use indexmap::IndexMap;
use std::alloc::{AllocError, Global};
use std::collections::BTreeSet;
use std::hash::Hash;
use std::marker::Model;
use tup_path::{Items, Path, Paths};

/// The paths given to each key, the keys in the order of their first gifts. Contracts see the list
/// of keys with their paths, which are in the order of paths, each once.
#[derive(Drop)]
pub(crate) struct Gifts<K: Eq + Hash> {
    given: IndexMap<K, BTreeSet<Path>>,
}

impl<K: Eq + Hash> Model for Gifts<K> {
    ghost use Rattle.std.specs.Prelude.{List, ℕ, map};
    ghost use Rattle.std.specs.Coded.{coded_list, coded_ℕ, coded×};

    ghost Value = { List (K × List (List (List ℕ))) };

    ghost coded = { coded_list (coded× K.code (coded_list (coded_list (coded_list coded_ℕ)))) };

    ghost view = { λ gifts. map (λ gift. (gift.0, gift.1.keys)) gifts.given.entries };
}

impl<K: Eq + Hash> Gifts<K> {
    /// The table without a gift; it takes no memory.
    pub(crate) fn new(alloc: Global) -> Gifts<K>
        ensures { result ≡ [] }
    {
        Gifts {
            given: IndexMap::new(alloc),
        }
    }

    /// Gives a path to a key. After a refusal the table is as it was.
    pub(crate) fn add(&mut self, key: K, path: Path) -> Result<(), MacroFault>
    where
        K: Drop,
        ensures given { OnOk result (self.new ≡ with_gift K.eq self.old key path) }
        ensures refused { IfErr result (λ fault.
            (fault ≡ MacroFault.Memory) × (self.new ≡ self.old)) }
    {
        let Some(members) = self.given.get_mut(&key) else {
            return self.begin(key, path);
        };
        members.insert(path)?;
        Ok(())
    }

    /// Gives the first path to a key.
    fn begin(&mut self, key: K, path: Path) -> Result<(), MacroFault>
    where
        K: Drop,
        requires { members_of K.eq self.old key ≡ None }
        ensures given { OnOk result (self.new ≡ self.old ++ (key, path ∷ []) ∷ []) }
        ensures refused { IfErr result (λ fault.
            (fault ≡ MacroFault.Memory) × (self.new ≡ self.old)) }
    {
        let mut first = BTreeSet::new(*self.given.allocator());
        first.insert(path)?;
        self.given.insert(key, first)?;
        Ok(())
    }

    /// The paths given to a key, or `None` where there is none.
    pub(crate) fn members(&self, alloc: Global, key: &K) -> Result<Option<Paths>, MacroFault>
        ensures members { IfOk result (λ found. found ≡ members_of K.eq self.now key.now) }
        ensures refused { IfErr result (λ fault.
            (fault ≡ MacroFault.Memory) × IsSome (members_of K.eq self.now key.now)) }
        ensures ordered { IfOk result (λ found.
            IfSome found (λ paths. IsStrictlySortedBy by_names paths)) }
    {
        match self.given.get(key) {
            Some(members) => Ok(Some(listed(alloc, members)?)),
            None => Ok(None),
        }
    }

    /// The set of the paths given to a key, or `None` where there is none.
    pub(crate) fn get(&self, key: &K) -> Option<&BTreeSet<Path>>
        ensures { option_map (λ set. set.now.keys) result ≡ members_of K.eq self.now key.now }
    {
        self.given.get(key)
    }
}

/// The paths of a set in their order, copied.
fn listed(alloc: Global, members: &BTreeSet<Path>) -> Result<Paths, AllocError>
    ensures listed { IfOk result (λ paths. paths ≡ members.now.keys) }
    ensures ordered { IsStrictlySortedBy by_names members.now.keys }
{
    let mut paths = Items::new(alloc);
    for path in members {
        paths.push(path.clone()?)?;
    }
    Ok(paths)
}
