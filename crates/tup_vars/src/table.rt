//! Names with their values.
ghost use Rattle.std.specs.Prelude.{◌≡◌, [], ◌++◌, OnOk, OnErr};
ghost use Rattle.std.specs.Option.{option_copied};
ghost use Rattle.tup_vars.specs.Table.{look, put, value_of};

use indexmap::IndexMap;
use std::alloc::{AllocError, Global};
use std::marker::Model;
use tup_path::Text;

/// A list of names, each once, in the order in which they came first, and their values.
#[derive(Drop)]
pub(crate) struct Table {
    entries: IndexMap<String, Text>,
}

impl Model for Table {
    ghost use Rattle.tup_vars.specs.Table.{Entries, named};

    ghost Value = { Entries };

    ghost view = { λ t. named t.entries.entries };
}

impl Table {
    pub(crate) fn new(alloc: Global) -> Table
        ensures { result ≡ [] }
    {
        Table {
            entries: IndexMap::new(alloc),
        }
    }

    pub(crate) fn get(&self, name: &str) -> Option<&Text>
        ensures { option_copied result ≡ look self.now name.now }
    {
        self.entries.get(name)
    }

    /// Gives a name its value, in the place of the one that it had.
    pub(crate) fn put(&mut self, alloc: Global, name: &str, value: Text) -> Result<(), AllocError>
        ensures ok { OnOk result (self.new ≡ put self.old name.now value) }
        ensures err { OnErr result (self.new ≡ self.old) }
    {
        self.entries.insert(String::from_str(alloc, name)?, value)?;
        Ok(())
    }

    /// Puts a text behind the value of a name, which it begins where there is none.
    pub(crate) fn extend(&mut self, alloc: Global, name: &str, more: &str) -> Result<(), AllocError>
        ensures ok { OnOk result
            (self.new ≡ put self.old name.now (value_of self.old name.now ++ more.now)) }
        ensures err { OnErr result (self.new ≡ self.old) }
    {
        match self.entries.get_mut(name) {
            Some(value) => value.push_str(more),
            None => self.put(alloc, name, Text::from_str(alloc, more)?),
        }
    }
}
