//! The calls of `table.rows`.
ghost use Rattle.std.specs.Prelude.{IsTrue};
ghost use Rattle.tup_site.specs.Memory.{world_in, moment_of, left_since};
ghost use Rattle.tup_table.specs.Table.{is_fresh, StandsFor};

use crate::bytes::joined;
use crate::changes::{add_entries, changes_of, refused};
use crate::damage::damaged;
use crate::site::site_with;
use std::alloc::Global;
use tup_rows::{Answers, RowFault, Words, set};
use tup_site::MemSite;
use tup_table::{Change, Opened, Table, TableFault, appended, have_short_keys, read};

/// How many calls a site has answered when a table of it is open: the store is written and synced, and then synced,
/// measured and read.
const BEFORE: u64 = 5;

/// Reads stores, spells commits, and changes a store by its table.
#[derive(Drop)]
pub struct Tables {
    store: Vec<u8>,
}

impl Answers for Tables {
    fn answer(&mut self, alloc: Global, call: &str, said: &Words) -> Result<Words, RowFault> {
        Ok(match call {
            "read" => opened(alloc, &joined(alloc, said, said.as_slice())),
            "append" => append(alloc, said),
            "store" => self.set_store(alloc, said),
            "open" | "commit" | "compact" => self.go_on(alloc, call, said),
            "damage" => damaged(alloc, said, &self.store),
            _ => Words::none(alloc, RowFault::NoSuchCall),
        })
    }
}

impl Tables {
    /// An empty store.
    pub fn new(alloc: Global) -> Tables {
        Tables {
            store: Vec::new(alloc),
        }
    }

    fn set_store(&mut self, alloc: Global, said: &Words) -> Words {
        set(&mut self.store, joined(alloc, said, said.as_slice()));
        Words::shown(alloc, &self.store.len())
    }

    /// Makes a call of the table of the store, which becomes what that leaves.
    fn go_on(&mut self, alloc: Global, call: &str, said: &Words) -> Words {
        match site_with(
            alloc,
            Vec::new(alloc),
            &self.store,
            fails(alloc, call, said),
        ) {
            Ok(mut site) => {
                let ended = call_of(alloc, call, said, &mut site);
                set(&mut self.store, said.copy_of(alloc, site.store()));
                drop(site);
                self.told(alloc, ended)
            }
            Err(fault) => Words::none(alloc, fault),
        }
    }

    /// How a call ended, and the store then.
    fn told(&self, alloc: Global, ended: Result<(), TableFault>) -> Words {
        let mut words = Words::new(alloc);
        match ended {
            Ok(()) => words.put(alloc, b"done"),
            Err(TableFault::Memory) => words.fail(RowFault::Memory),
            Err(fault) => words.show(alloc, &fault),
        }
        words.put(alloc, &self.store);
        words
    }
}

/// The call of the site that fails while the store is compacted: the one with this number behind the opening, if there is one.
fn fails(alloc: Global, call: &str, said: &Words) -> Vec<u64> {
    let mut fails = Vec::new(alloc);
    if call == "compact"
        && said.len() > 0
        && fails
            .push(said.number_at(0).saturating_add(BEFORE))
            .is_err()
    {
        said.fail(RowFault::Memory);
    }
    fails
}

/// Opens the table of a site, and makes a call of it.
fn call_of(alloc: Global, call: &str, said: &Words, site: &mut MemSite) -> Result<(), TableFault> {
    let mut table = Table::open(alloc, site)?;
    match call {
        "commit" => commit(alloc, said, &mut table, site),
        "compact" => table.compact(alloc, site),
        _ => Ok(()),
    }
}

/// Commits changes.
fn commit(
    alloc: Global,
    said: &Words,
    table: &mut Table,
    site: &mut MemSite,
) -> Result<(), TableFault>
    requires fresh { IsTrue (is_fresh table.old) }
    requires stands { StandsFor world_in moment_of left_since table.old site.old }
{
    let changes = changes_of(alloc, said, said.as_slice());
    if !have_short_keys(changes.as_slice()) {
        said.fail(RowFault::OtherKind);
        return Ok(());
    }
    table.commit(alloc, site, changes.as_slice())
}

/// What bytes are read as: the offset of the gate at which the next commit goes, and each key with its value and its origin.
pub fn opened(alloc: Global, store: &[u8]) -> Words {
    match read(alloc, store) {
        Ok(opened) => entries(alloc, &opened),
        Err(fault) => refused(alloc, fault),
    }
}

fn entries(alloc: Global, opened: &Opened) -> Words {
    let mut words = Words::shown(alloc, &opened.gate);
    add_entries(alloc, &mut words, &opened.entries);
    words
}

/// What a commit of changes puts behind the gate at an offset.
fn append(alloc: Global, said: &Words) -> Words {
    match said.as_slice().split_first() {
        Some((_, words)) => {
            let changes = changes_of(alloc, said, words);
            append_to(alloc, said.number_at(0), changes.as_slice())
        }
        None => Words::none(alloc, RowFault::TooFew),
    }
}

fn append_to(alloc: Global, gate: u64, changes: &[Change]) -> Words {
    if !have_short_keys(changes) {
        return Words::none(alloc, RowFault::OtherKind);
    }
    match appended(alloc, gate, changes) {
        Ok(bytes) => Words::word(alloc, bytes.as_slice()),
        Err(fault) => refused(alloc, fault),
    }
}
