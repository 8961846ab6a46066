//! What a swap puts in: readings, rules, records of runs, owned paths and flags.
ghost use Rattle.std.specs.Prelude.{◌≡◌, ◌∷◌, ◌++◌, ◌+◌, [], Some, Ok, map, slice_get, if◌then◌else◌, IfOk, IfErr, IsTrue, OnOk};
ghost use Rattle.std.specs.FinMap as finite;
ghost use Rattle.tup_path.specs.Gives.{GivesUnless};
ghost use Rattle.tup_path.specs.Name.{Names};
ghost use Rattle.tup_path.specs.Order.{same_path};
ghost use Rattle.tup_graph.specs.Transactions.{flag_edits};
ghost use Rattle.tup_rule_diff.specs.Before.{count_of};
ghost use Rattle.tup_rule_diff.specs.Edits.{HadNumber, PutsNews, WasOwned, more_edits, rule_more, own_so as own_of, read_so as read_of, run_so as run_of};

use crate::before::number_of;
use std::alloc::Global;
use tup_closure::Lists;
use tup_graph::{Edit, Edits, GraphFault, Nodes, Owned};
use tup_path::{ByPath, Path};
use tup_record::{Record, RunRecord};
use tup_rule::{Reading, Rule};

/// Readings are new.
pub(crate) fn push_fresh(edits: &mut Edits, fresh: &[(Path, Reading)]) -> Result<(), GraphFault>
    ensures ok { OnOk result (edits.new ≡ edits.old ++ map read_of fresh.now) }
    ensures err { IfErr result (λ fault. fault ≡ GraphFault.Memory) }
{
    for (dir, reading) in fresh {
        edits.push(read(dir, reading)?)?;
    }
    Ok(())
}

fn read(dir: &Path, reading: &Reading) -> Result<Edit, GraphFault>
    ensures { GivesUnless result GraphFault.Memory (Ok (read_of (dir.now, reading.now))) }
{
    Ok(Edit::Put(Record::Reading {
        dir: dir.clone()?,
        reading: reading.clone()?,
    }))
}

/// Rules come, the first one first, each with its place among those of its folder.
pub(crate) fn push_more(alloc: Global, edits: &mut Edits, rules: &[Rule]) -> Result<(), GraphFault>
    ensures ok { OnOk result (edits.new ≡ edits.old ++ more_edits [] rules.now) }
    ensures err { IfErr result (λ fault. fault ≡ GraphFault.Memory) }
{
    let mut places = Lists::new(alloc);
    for (at, rule) in rules.iter().enumerate() {
        let place = next_place(alloc, &mut places, &rule.dir)?;
        edits.push(more(at, place, rule)?)?;
    }
    Ok(())
}

/// The rule at a place in the list comes, with its place among those of its folder.
fn more(at: usize, place: u32, rule: &Rule) -> Result<Edit, GraphFault>
    ensures { GivesUnless result GraphFault.Memory (Ok
        (rule_more at place rule.now)) }
{
    Ok(Edit::Put(Record::Rule {
        number: number_of(at)?,
        place,
        rule: rule.clone()?,
    }))
}

/// How many rules a folder had so far, and one more now.
fn next_place(alloc: Global, places: &mut Lists<u32>, dir: &Path) -> Result<u32, GraphFault>
    ensures place { IfOk result (λ place. place ≡ count_of places.old dir.now) }
    ensures ok { OnOk result ((folder : Names) → count_of places.new folder
        ≡ count_of places.old folder + (if same_path folder dir.now then 1 else 0)) }
    ensures err { IfErr result (λ fault. fault ≡ GraphFault.Memory) }
{
    let place = number_of(places.of(dir).len())?;
    places.add(alloc, dir, place)?;
    Ok(place)
}

/// Rules have these records.
pub(crate) fn push_runs(edits: &mut Edits, runs: &[(u32, RunRecord)]) -> Result<(), GraphFault>
    ensures ok { OnOk result (edits.new ≡ edits.old ++ map run_of runs.now) }
    ensures err { IfErr result (λ fault. fault ≡ GraphFault.Memory) }
{
    for (number, run) in runs {
        edits.push(recorded(*number, run)?)?;
    }
    Ok(())
}

fn recorded(number: u32, run: &RunRecord) -> Result<Edit, GraphFault>
    ensures { GivesUnless result GraphFault.Memory (Ok (run_of (number, run.now))) }
{
    Ok(Edit::Put(Record::Run {
        number,
        run: run.clone()?,
    }))
}

/// Records of runs are put, save those that stand under these numbers already.
pub(crate) fn push_new_runs(
    edits: &mut Edits,
    befores: &[Option<u32>],
    runs: &[(u32, RunRecord)],
) -> Result<(), GraphFault>
    ensures ok { OnOk result
        (PutsNews (HadNumber befores.now) run_of runs.now edits.old edits.new) }
    ensures err { IfErr result (λ fault. fault ≡ GraphFault.Memory) }
{
    for (number, run) in runs {
        push_if_moved(edits, befores, *number, run)?;
    }
    Ok(())
}

/// The record of a run is put, unless its rule had this number before.
fn push_if_moved(
    edits: &mut Edits,
    befores: &[Option<u32>],
    number: u32,
    run: &RunRecord,
) -> Result<(), GraphFault>
    ensures ok { OnOk result (PutsNews (HadNumber befores.now) run_of ((number, run.now) ∷ [])
        edits.old edits.new) }
    ensures err { IfErr result (λ fault. fault ≡ GraphFault.Memory) }
{
    if had_number(befores, number) {
        return Ok(());
    }
    edits.push(recorded(number, run)?)?;
    Ok(())
}

/// Whether the rule of a number had it before.
fn had_number(befores: &[Option<u32>], number: u32) -> bool
    ensures { IsTrue result → slice_get befores.now number ≡ Some (Some number) }
{
    match befores.get(number as usize) {
        Some(before) => *before == Some(number),
        None => false,
    }
}

/// Owned paths are put, save those that are owned so already.
pub(crate) fn push_new_owned(
    edits: &mut Edits,
    nodes: &Nodes,
    owned: &ByPath<Owned>,
) -> Result<(), GraphFault>
    ensures ok { OnOk result (PutsNews (WasOwned nodes.now) own_of (finite.entries owned.now)
        edits.old edits.new) }
    ensures err { IfErr result (λ fault. fault ≡ GraphFault.Memory) }
{
    for (path, one) in owned.iter() {
        push_if_changed(edits, nodes, path, one)?;
    }
    Ok(())
}

/// An owned path is put, unless it is owned so already.
fn push_if_changed(
    edits: &mut Edits,
    nodes: &Nodes,
    path: &Path,
    one: &Owned,
) -> Result<(), GraphFault>
    ensures ok { OnOk result (PutsNews (WasOwned nodes.now) own_of ((path.now, one.now) ∷ [])
        edits.old edits.new) }
    ensures err { IfErr result (λ fault. fault ≡ GraphFault.Memory) }
{
    if was_owned(nodes, path, one) {
        return Ok(());
    }
    edits.push(own(path, one)?)?;
    Ok(())
}

/// Whether a path was owned so before.
fn was_owned(nodes: &Nodes, path: &Path, one: &Owned) -> bool
    ensures { IsTrue result → finite.get nodes.now.owned path.now ≡ Some one.now }
{
    nodes.owner(path) == Some(*one)
}

fn own(path: &Path, owned: &Owned) -> Result<Edit, GraphFault>
    ensures { GivesUnless result GraphFault.Memory (Ok (own_of (path.now, owned.now))) }
{
    Ok(Edit::Put(Record::Owned {
        path: path.clone()?,
        maker: owned.maker,
        state: owned.state,
    }))
}

/// Rules are to be run.
pub(crate) fn push_flags(edits: &mut Edits, numbers: &[u32]) -> Result<(), GraphFault>
    ensures ok { OnOk result (edits.new ≡ edits.old ++ flag_edits numbers.now) }
    ensures err { IfErr result (λ fault. fault ≡ GraphFault.Memory) }
{
    for number in numbers {
        edits.push(Edit::Put(Record::Modify { number: *number }))?;
    }
    Ok(())
}
