//! A site in memory with the files and the store of a project.
ghost use Rattle.std.specs.Prelude.{IsTrue};
ghost use Rattle.tup_table.specs.Table.{is_fresh};

use crate::quiet::Quiet;
use std::alloc::Global;
use tup_given::Project;
use tup_path::{Items, Path};
use tup_record::{OwnedState, Record, encode};
use tup_rows::RowFault;
use tup_rule::Rule;
use tup_site::MemSite;
use tup_table::{Change, Table, have_short_keys};

/// A site with the sources of a project, whose store has the project's rules, of which these are flagged, and owns their
/// outputs.
pub(crate) fn site_of(
    alloc: Global,
    project: &Project,
    flagged: &[u32],
) -> Result<Quiet, RowFault> {
    match MemSite::new(alloc, project.sources.clone()?.into_vec(), Vec::new(alloc)) {
        Ok(site) => with_store(alloc, Quiet::new(site), project.rules.as_slice(), flagged),
        Err(_) => Err(RowFault::OtherKind),
    }
}

/// A site with a store of these rules.
fn with_store(
    alloc: Global,
    mut site: Quiet,
    rules: &[Rule],
    flagged: &[u32],
) -> Result<Quiet, RowFault> {
    match write_store(alloc, &mut site, rules, flagged) {
        Ok(()) => Ok(site),
        Err(fault) => {
            drop(site);
            Err(fault)
        }
    }
}

fn write_store(
    alloc: Global,
    site: &mut Quiet,
    rules: &[Rule],
    flagged: &[u32],
) -> Result<(), RowFault> {
    match changes_of(alloc, rules, flagged) {
        Ok(changes) => {
            let done = make_store(alloc, site, changes.as_slice());
            drop(changes);
            done
        }
        Err(fault) => Err(fault),
    }
}

fn make_store(alloc: Global, site: &mut Quiet, changes: &[Change]) -> Result<(), RowFault> {
    match Table::make(alloc, site) {
        Ok(table) => commit(alloc, site, table, changes),
        Err(_) => Err(RowFault::OtherKind),
    }
}

/// Commits the first changes of a store.
fn commit(
    alloc: Global,
    site: &mut Quiet,
    mut table: Table,
    changes: &[Change],
) -> Result<(), RowFault>
    requires { IsTrue (is_fresh table) }
{
    let is_made = have_short_keys(changes) && table.commit(alloc, site, changes).is_ok();
    drop(table);
    if is_made {
        Ok(())
    } else {
        Err(RowFault::OtherKind)
    }
}

/// The records of some rules, of which these are flagged.
fn changes_of(alloc: Global, rules: &[Rule], flagged: &[u32]) -> Result<Items<Change>, RowFault> {
    let mut changes = Items::new(alloc);
    match put_all(alloc, &mut changes, rules, flagged) {
        Ok(()) => Ok(changes),
        Err(fault) => {
            drop(changes);
            Err(fault)
        }
    }
}

fn put_all(
    alloc: Global,
    changes: &mut Items<Change>,
    rules: &[Rule],
    flagged: &[u32],
) -> Result<(), RowFault> {
    put_rules(alloc, changes, rules)?;
    put_flags(alloc, changes, flagged)
}

fn put_rules(alloc: Global, changes: &mut Items<Change>, rules: &[Rule]) -> Result<(), RowFault> {
    for (rule, number) in rules.iter().zip(0..u32::MAX) {
        put_rule(alloc, changes, number, rule.clone()?)?;
        put_outputs(alloc, changes, number, rule.outputs.as_slice())?;
    }
    Ok(())
}

fn put_rule(
    alloc: Global,
    changes: &mut Items<Change>,
    number: u32,
    rule: Rule,
) -> Result<(), RowFault> {
    let place = number;
    let record = Record::Rule {
        number,
        place,
        rule,
    };
    put(alloc, changes, record)
}

/// The outputs of a rule are owned.
fn put_outputs(
    alloc: Global,
    changes: &mut Items<Change>,
    number: u32,
    paths: &[Path],
) -> Result<(), RowFault> {
    for path in paths {
        put_owned(alloc, changes, number, path.clone()?)?;
    }
    Ok(())
}

fn put_owned(
    alloc: Global,
    changes: &mut Items<Change>,
    number: u32,
    path: Path,
) -> Result<(), RowFault> {
    let record = Record::Owned {
        path,
        maker: Some(number),
        state: OwnedState::Never,
    };
    put(alloc, changes, record)
}

fn put_flags(alloc: Global, changes: &mut Items<Change>, flagged: &[u32]) -> Result<(), RowFault> {
    for number in flagged {
        put(alloc, changes, Record::Modify { number: *number })?;
    }
    Ok(())
}

fn put(alloc: Global, changes: &mut Items<Change>, record: Record) -> Result<(), RowFault> {
    let spelled = encode(alloc, &record);
    drop(record);
    match spelled {
        Ok((key, value)) => Ok(changes.push(Change::Put { key, value })?),
        Err(_) => Err(RowFault::OtherKind),
    }
}
