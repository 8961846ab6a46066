//! Values by numbers.
ghost use Rattle.std.specs.Prelude.{◌≡◌, OnOk, OnErr};
ghost use Rattle.std.specs.Option.{option_copied};
ghost use Rattle.std.specs.FinMap as finite;

use std::alloc::{AllocFailed, Global};
use std::collections::BTreeMap;
use std::collections::btree_map::Iter;
use std::marker::Model;

/// Values by numbers, in the order of numbers. Contracts see the finite map.
#[derive(Drop)]
pub struct ByNumber<V> {
    map: BTreeMap<u32, V>,
}

impl<V> Model for ByNumber<V> {
    ghost use Rattle.std.specs.Coded.{coded_ℕ};
    ghost use Rattle.std.specs.FinMap as finite;
    ghost use Rattle.std.specs.Ordering.{nat_cmp};

    ghost Value = { finite.FinMap nat_cmp V };

    ghost coded = { finite.code coded_ℕ V.code };

    ghost view = { λ m. finite.from_entries m.map.entries };
}

impl<V> ByNumber<V> {
    /// No values; it takes no memory.
    pub fn new(alloc: Global) -> ByNumber<V>
        ensures { result ≡ finite.empty }
    {
        ByNumber {
            map: BTreeMap::new(alloc),
        }
    }

    /// The value of a number.
    pub fn get(&self, number: &u32) -> Option<&V>
        ensures { option_copied result ≡ finite.get self.now number.now }
    {
        self.map.get(number)
    }

    /// Whether a number has a value.
    pub fn contains(&self, number: &u32) -> bool
        ensures { result ≡ finite.contains_key self.now number.now }
    {
        self.map.contains_key(number)
    }

    /// The values with their numbers, in the order of numbers.
    pub fn iter(&self) -> Iter<'_, u32, V>
        ensures { result ≡ finite.entries self.now }
    {
        self.map.iter()
    }
}

impl<V: Drop> ByNumber<V> {
    /// Gives a number a value, in the place of the one that it has. After a refusal all is as it was.
    pub(crate) fn insert(&mut self, number: u32, value: V) -> Result<(), AllocFailed<(u32, V)>>
        ensures ok { OnOk result (self.new ≡ finite.insert self.old number value) }
        ensures err { OnErr result (self.new ≡ self.old) }
    {
        self.map.insert(number, value)?;
        Ok(())
    }

    /// Takes the value of a number away, if it has one.
    pub(crate) fn remove(&mut self, number: &u32)
        ensures { self.new ≡ finite.remove self.old number.now }
    {
        self.map.remove(number);
    }
}
