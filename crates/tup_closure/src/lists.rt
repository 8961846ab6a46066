//! Values in lists, one list for each path.
ghost use Rattle.std.specs.Prelude.{◌≡◌, ◌++◌, ◌∷◌, [], false, Some, None, if◌then◌else◌, IsTrue, IfErr, OnOk};
ghost use Rattle.std.specs.Option.{option_copied};
ghost use Rattle.tup_path.specs.Name.{Names};
ghost use Rattle.tup_path.specs.Order.{same_path};
ghost use Rattle.tup_closure.specs.Lists.{last_of, list_in, list_of};

use std::alloc::Global;
use std::collections::BTreeMap;
use tup_graph::GraphFault;
use tup_path::{Items, Path};

/// Values in lists, one list for each path. A path that was given no value has the empty list. Values that come one after
/// another for one path take no look-up but the first.
#[derive(Drop)]
pub struct Lists<V> {
    /// The path that was given a value last, with its list.
    last: Option<(Path, Items<V>)>,
    /// The lists of the others.
    map: BTreeMap<Path, Items<V>>,
}

impl<V> Lists<V> {
    /// Each list is empty; it takes no memory.
    pub fn new(alloc: Global) -> Lists<V>
        ensures lists { (path : Names) → list_of result path ≡ [] }
        ensures last { last_of result ≡ None }
    {
        Lists {
            last: None,
            map: BTreeMap::new(alloc),
        }
    }

    /// The path that was given a value last.
    pub fn last(&self) -> Option<&Path>
        ensures { option_copied result ≡ last_of self.now }
    {
        match &self.last {
            Some((path, _)) => Some(path),
            None => None,
        }
    }

    /// The values of a path, in the order in which they were added.
    pub fn of(&self, path: &Path) -> &[V]
        ensures { result.now ≡ list_of self.now path.now }
    {
        match &self.last {
            Some((known, list)) => {
                if *known == *path {
                    return list.as_slice();
                }
                self.other(path)
            }
            None => self.other(path),
        }
    }

    /// The values of another path than the last one.
    fn other(&self, path: &Path) -> &[V]
        ensures { result.now ≡ list_in self.now.map path.now }
    {
        match self.map.get(path) {
            Some(list) => list.as_slice(),
            None => &[],
        }
    }

    /// Whether a path was given a value last.
    fn is_last(&self, path: &Path) -> bool
        ensures { IsTrue result → last_of self.now ≡ Some path.now }
    {
        match self.last() {
            Some(known) => *known == *path,
            None => false,
        }
    }
}

impl<V: Drop> Lists<V> {
    /// Adds a value at the end of the list of a path.
    pub fn add(&mut self, alloc: Global, path: &Path, value: V) -> Result<(), GraphFault>
        ensures ok { OnOk result ((q : Names) → list_of self.new q ≡ (if same_path q path.now
            then list_of self.old q ++ value ∷ [] else list_of self.old q)) }
        ensures last { OnOk result (last_of self.new ≡ Some path.now) }
        ensures err { IfErr result (λ fault. fault ≡ GraphFault.Memory) }
    {
        self.turn_to(alloc, path)?;
        self.add_to_last(value)
    }

    /// Adds a value at the end of the list of the path that was given one last, if there is such a path.
    pub fn add_to_last(&mut self, value: V) -> Result<(), GraphFault>
        ensures ok { (path : Names) → last_of self.old ≡ Some path
            → OnOk result ((q : Names) → list_of self.new q ≡ (if same_path q path
            then list_of self.old q ++ value ∷ [] else list_of self.old q)) }
        ensures last { OnOk result (last_of self.new ≡ last_of self.old) }
        ensures err { IfErr result (λ fault. fault ≡ GraphFault.Memory) }
    {
        match self.last.take() {
            Some((path, before)) => {
                let mut list = before;
                list.push(value)?;
                self.last = Some((path, list));
                Ok(())
            }
            None => Ok(()),
        }
    }

    /// Makes a path the last one, with its list.
    fn turn_to(&mut self, alloc: Global, path: &Path) -> Result<(), GraphFault>
        ensures lists { OnOk result ((q : Names) → list_of self.new q ≡ list_of self.old q) }
        ensures last { OnOk result (last_of self.new ≡ Some path.now) }
        ensures err { IfErr result (λ fault. fault ≡ GraphFault.Memory) }
    {
        if self.is_last(path) {
            return Ok(());
        }
        self.put_back()?;
        let list = self.take_out(alloc, path);
        self.last = Some((path.clone()?, list));
        Ok(())
    }

    /// Puts the list of the last path among the others.
    fn put_back(&mut self) -> Result<(), GraphFault>
        ensures lists { OnOk result ((q : Names) → list_of self.new q ≡ list_of self.old q) }
        ensures none { OnOk result (self.new.last ≡ None) }
        ensures err { IfErr result (λ fault. fault ≡ GraphFault.Memory) }
    {
        match self.last.take() {
            Some((path, list)) => {
                self.map.insert(path, list)?;
                Ok(())
            }
            None => Ok(()),
        }
    }

    /// Takes the list of a path out of those of the others.
    fn take_out(&mut self, alloc: Global, path: &Path) -> Items<V>
        requires { self.old.last ≡ None }
        ensures list { result ≡ list_of self.old path.now }
        ensures others { (q : Names) → same_path q path.now ≡ false
            → list_of self.new q ≡ list_of self.old q }
        ensures none { self.new.last ≡ None }
    {
        match self.map.remove(path) {
            Some(list) => list,
            None => Items::new(alloc),
        }
    }
}
