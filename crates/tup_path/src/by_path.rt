//! Values by paths.
ghost use Rattle.std.specs.Prelude.{◌≡◌, IfOk, OnOk, OnErr};
ghost use Rattle.std.specs.Option.{option_copied};
ghost use Rattle.std.specs.FinMap as finite;

use crate::items::Items;
use crate::path::Path;
use std::alloc::{AllocError, AllocFailed, Global};
use std::collections::BTreeMap;
use std::collections::btree_map::Iter;
use std::marker::Model;

/// Values by paths, in the order of paths. Contracts see the finite map.
#[derive(Drop)]
pub struct ByPath<V> {
    map: BTreeMap<Path, V>,
}

impl<V> Model for ByPath<V> {
    ghost use Rattle.std.specs.Coded.{coded_ℕ, coded_list};
    ghost use Rattle.std.specs.FinMap as finite;
    ghost use Rattle.tup_path.specs.Order.{by_names};

    ghost Value = { finite.FinMap by_names V };

    ghost coded = { finite.code (coded_list (coded_list coded_ℕ)) V.code };

    ghost view = { λ m. finite.from_entries m.map.entries };
}

impl<V> ByPath<V> {
    /// No values; it takes no memory.
    pub fn new(alloc: Global) -> ByPath<V>
        ensures { result ≡ finite.empty }
    {
        ByPath {
            map: BTreeMap::new(alloc),
        }
    }

    /// The value of a path.
    pub fn get(&self, path: &Path) -> Option<&V>
        ensures { option_copied result ≡ finite.get self.now path.now }
    {
        self.map.get(path)
    }

    /// Whether a path has a value.
    pub fn contains(&self, path: &Path) -> bool
        ensures { result ≡ finite.contains_key self.now path.now }
    {
        self.map.contains_key(path)
    }

    /// The values with their paths, in the order of paths.
    pub fn iter(&self) -> Iter<'_, Path, V>
        ensures { result ≡ finite.entries self.now }
    {
        self.map.iter()
    }
}

impl<V: Drop> ByPath<V> {
    /// Gives a path a value, in the place of the one that it has. After a refusal all is as it was.
    pub fn insert(&mut self, path: Path, value: V) -> Result<(), AllocFailed<(Path, V)>>
        ensures ok { OnOk result (self.new ≡ finite.insert self.old path value) }
        ensures err { OnErr result (self.new ≡ self.old) }
    {
        self.map.insert(path, value)?;
        Ok(())
    }

    /// The values with their paths, in the order of paths; none is copied.
    pub fn into_items(self, alloc: Global) -> Result<Items<(Path, V)>, AllocError>
        ensures { IfOk result (λ items. items ≡ finite.entries self) }
    {
        Ok(Items::from_vec(self.map.into_iter().collect(alloc)?))
    }

    /// Takes the value of a path away, if it has one.
    pub fn remove(&mut self, path: &Path)
        ensures { self.new ≡ finite.remove self.old path.now }
    {
        self.map.remove(path);
    }
}
