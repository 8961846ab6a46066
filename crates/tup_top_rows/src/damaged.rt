//! A store that is damaged at each of its bytes.
use crate::table::Table;
use crate::trial::{Step, files, made, updated};
use std::alloc::Global;
use std::sync::Wait;
use std::thread::Threads;
use tup_path::Path;
use tup_rows::{RowFault, Words};
use tup_site::{MemSite, Site};

/// A byte of a store becomes ff, or the store ends before it.
#[derive(Clone, Copy)]
pub(crate) enum Damage {
    Byte,
    Cut,
}

impl Damage {
    fn name(self) -> &'static str {
        match self {
            Damage::Byte => "ff",
            Damage::Cut => "cut",
        }
    }
}

/// Damages the store of a project at each of its bytes, and updates the project. No source changes by that. The words of the row
/// are the sources.
pub(crate) fn damaged<W: Threads + Wait + Sync>(
    rt: &W,
    alloc: Global,
    steps: &[Step],
    said: &Words,
    damage: Damage,
) -> Result<Words, RowFault> {
    let paths = said.paths_at(alloc, 0);
    let (sources, len) = sources_and_len(rt, alloc, steps, paths.as_slice())?;
    let mut table = Table::new(alloc);
    for at in 0..len {
        let (left, exit) = updated_over(rt, alloc, steps, said, damage, at, paths.as_slice())?;
        table.take(exit);
        if left != sources {
            table.blame(alloc, said, damage.name(), at, exit);
        }
    }
    Ok(table.words(alloc, len))
}

/// What the sources hold, and how long the store is.
fn sources_and_len<W: Threads + Wait + Sync>(
    rt: &W,
    alloc: Global,
    steps: &[Step],
    paths: &[Path],
) -> Result<(Vec<u8>, u64), RowFault> {
    match made(rt, alloc, steps, 0) {
        Ok(site) => {
            let sources = files(alloc, &site, paths);
            let len = site.store().len() as u64;
            drop(site);
            Ok((sources?, len))
        }
        Err(fault) => Err(fault),
    }
}

/// What the sources hold behind an update over a damaged store, and its exit number.
fn updated_over<W: Threads + Wait + Sync>(
    rt: &W,
    alloc: Global,
    steps: &[Step],
    said: &Words,
    damage: Damage,
    at: u64,
    paths: &[Path],
) -> Result<(Vec<u8>, u8), RowFault> {
    let mut site = made(rt, alloc, steps, 0)?;
    do_damage(alloc, said, &mut site, damage, at);
    match updated(rt, alloc, site, 1) {
        Ok(left) => {
            let sources = files(alloc, &left.site, paths);
            let exit = left.exit;
            drop(left);
            Ok((sources?, exit))
        }
        Err(fault) => Err(fault),
    }
}

fn do_damage(alloc: Global, said: &Words, site: &mut MemSite, damage: Damage, at: u64) {
    let done = match damage {
        Damage::Cut => site.db_cut(alloc, at),
        Damage::Byte => {
            let mut store = said.copy_of(alloc, site.store());
            if let Some(byte) = store.get_mut(at as usize) {
                *byte = 0xff;
            }
            site.db_write(alloc, 0, &store)
        }
    };
    if done.is_err() {
        said.fail(RowFault::OtherKind);
    }
}
