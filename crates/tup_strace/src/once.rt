//! Paths, each once.
ghost use Rattle.std.specs.Prelude.{◌≡◌, ◌++◌, ◌∷◌, [], OnOk};
ghost use Rattle.tup_strace.specs.Once as specs;

use std::alloc::{AllocError, Global};
use std::collections::BTreeSet;
use std::marker::Model;
use tup_path::Path;

/// Paths in the order in which they came, each once. Contracts see the list.
#[derive(Drop)]
pub struct Once {
    list: Vec<Path>,
    /// The same paths, to be looked up.
    set: BTreeSet<Path>,
}

impl Model for Once {
    ghost use Rattle.std.specs.Prelude.{List, ℕ};
    ghost use Rattle.std.specs.Coded.{coded_ℕ, coded_list};
    ghost use Rattle.tup_strace.specs.Once.{AreJust};

    ghost Value = { List (List (List ℕ)) };

    ghost coded = { coded_list (coded_list (coded_list coded_ℕ)) };

    ghost view = { λ o. o.list.items };

    ghost invariant = { λ o. AreJust o.list.items o.set };
}

impl Once {
    /// No paths; it takes no memory.
    pub fn new(alloc: Global) -> Once
        ensures { result ≡ [] }
    {
        Once {
            list: Vec::new(alloc),
            set: BTreeSet::new(alloc),
        }
    }

    /// Whether a path is among them.
    pub fn contains(&self, path: &Path) -> bool
        ensures { result ≡ specs.is_among path.now self.now }
    {
        self.set.contains(path)
    }

    /// The paths, in the order in which they came.
    pub fn as_slice(&self) -> &[Path]
        ensures { result.now ≡ self.now }
    {
        &self.list
    }

    /// Adds a path at the end, where it isn't there.
    pub(crate) fn add(&mut self, path: &Path) -> Result<(), AllocError>
        ensures { OnOk result (self.new ≡ specs.with_path self.old path.now) }
    {
        if self.contains(path) {
            return Ok(());
        }
        self.put(path.clone()?, path.clone()?)
    }

    /// Puts a path at the end, which isn't there, with a copy of it.
    fn put(&mut self, path: Path, copy: Path) -> Result<(), AllocError>
        requires { copy ≡ path }
        ensures { OnOk result (self.new ≡ self.old ++ path ∷ []) }
    {
        self.list.reserve(1)?;
        self.set.insert(copy)?;
        self.list.push_reserved(path);
        Ok(())
    }
}
