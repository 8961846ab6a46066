//! Texts by the numbers of processes.
ghost use Rattle.std.specs.Prelude.{◌≡◌, OnOk};
ghost use Rattle.std.specs.Option.{option_copied};
ghost use Rattle.std.specs.FinMap as finite;

use std::alloc::{AllocError, Global};
use std::collections::BTreeMap;
use std::marker::Model;
use tup_path::Bytes;

/// A text of each process. Contracts see the finite map.
#[derive(Drop)]
pub(crate) struct ByProcess {
    map: BTreeMap<Bytes, Bytes>,
}

impl Model for ByProcess {
    ghost use Rattle.std.specs.Prelude.{List, ℕ};
    ghost use Rattle.std.specs.Coded.{coded_ℕ, coded_list};
    ghost use Rattle.std.specs.FinMap as finite;
    ghost use Rattle.tup_path.specs.Order.{by_bytes};

    ghost Value = { finite.FinMap by_bytes (List ℕ) };

    ghost coded = { finite.code (coded_list coded_ℕ) (coded_list coded_ℕ) };

    ghost view = { λ m. finite.from_entries m.map.entries };
}

impl ByProcess {
    /// No texts; it takes no memory.
    pub(crate) fn new(alloc: Global) -> ByProcess
        ensures { result ≡ finite.empty }
    {
        ByProcess {
            map: BTreeMap::new(alloc),
        }
    }

    /// The text of a process.
    pub(crate) fn get(&self, process: &Bytes) -> Option<&Bytes>
        ensures { option_copied result ≡ finite.get self.now process.now }
    {
        self.map.get(process)
    }

    /// Whether a process has a text.
    pub(crate) fn contains(&self, process: &Bytes) -> bool
        ensures { result ≡ finite.contains_key self.now process.now }
    {
        self.map.contains_key(process)
    }

    /// Gives a process a text, in the place of the one that it has.
    pub(crate) fn insert(&mut self, process: &Bytes, text: Bytes) -> Result<(), AllocError>
        ensures { OnOk result (self.new ≡ finite.insert self.old process.now text) }
    {
        let process = process.clone()?;
        self.put(process, text)
    }

    /// The same, with a number of its own.
    fn put(&mut self, process: Bytes, text: Bytes) -> Result<(), AllocError>
        ensures { OnOk result (self.new ≡ finite.insert self.old process text) }
    {
        self.map.insert(process, text)?;
        Ok(())
    }
}
