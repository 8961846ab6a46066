//! Whether a record asks what a new rule makes.
ghost use Rattle.std.specs.Prelude.{◌≡◌, false, Contains, IfErr, IfOk, OnOk};
ghost use Rattle.std.specs.List.{list_any};
ghost use Rattle.tup_path.specs.Order.{by_names};
ghost use Rattle.tup_closure.specs.Grows.{Grows};
ghost use Rattle.tup_scan_diff.specs.Sets.{Has};
ghost use Rattle.tup_rule_diff.specs.Edits.{led_by};
ghost use Rattle.tup_rule_diff.specs.Running.{HasNewOutputs, IsNewWith, NoneReadsNew, asks_in, run_asks_in};

use crate::running::is_new;
use std::alloc::Global;
use std::collections::BTreeSet;
use tup_graph::GraphFault;
use tup_path::Path;
use tup_record::RunRecord;
use tup_rule::Rule;

/// Whether one of the records that rules keep asks an output of a new rule.
pub(crate) fn asks_new(
    alloc: Global,
    rules: &[Rule],
    runs: &[(u32, RunRecord)],
    befores: &[Option<u32>],
) -> Result<bool, GraphFault>
    ensures none { IfOk result (λ asks. asks ≡ false
        → NoneReadsNew (led_by rules.now runs.now) befores.now) }
    ensures memory { IfErr result (λ fault. fault ≡ GraphFault.Memory) }
{
    let outputs = new_outputs(alloc, rules, befores)?;
    Ok(one_asks_in(runs, &outputs))
}

/// The outputs of the rules that are new.
fn new_outputs(
    alloc: Global,
    rules: &[Rule],
    befores: &[Option<u32>],
) -> Result<BTreeSet<Path>, GraphFault>
    ensures outputs { IfOk result (HasNewOutputs rules.now befores.now) }
    ensures memory { IfErr result (λ fault. fault ≡ GraphFault.Memory) }
{
    let mut outputs = BTreeSet::new(alloc);
    for (at, rule) in rules.iter().enumerate() {
        add_if_new(&mut outputs, befores, at, rule)?;
    }
    Ok(outputs)
}

/// Adds the outputs of the rule at a place, if that is new.
fn add_if_new(
    outputs: &mut BTreeSet<Path>,
    befores: &[Option<u32>],
    at: usize,
    rule: &Rule,
) -> Result<(), GraphFault>
    ensures added { OnOk result (Grows (IsNewWith befores.now at rule.now)
        (Has by_names outputs.old) (Has by_names outputs.new)) }
    ensures memory { IfErr result (λ fault. fault ≡ GraphFault.Memory) }
{
    if is_new(befores, at) {
        return add_outputs(outputs, rule.outputs.as_slice());
    }
    Ok(())
}

/// Adds some paths.
fn add_outputs(outputs: &mut BTreeSet<Path>, paths: &[Path]) -> Result<(), GraphFault>
    ensures added { OnOk result (Grows (Contains paths.now)
        (Has by_names outputs.old) (Has by_names outputs.new)) }
    ensures memory { IfErr result (λ fault. fault ≡ GraphFault.Memory) }
{
    for path in paths {
        outputs.insert(path.clone()?)?;
    }
    Ok(())
}

/// Whether one of some records asks a path of a set.
fn one_asks_in(runs: &[(u32, RunRecord)], paths: &BTreeSet<Path>) -> bool
    ensures { result ≡ list_any (run_asks_in paths.now) runs.now }
{
    runs.iter().any(|(_, run)| asks_one(run, paths))
}

/// Whether a record asks a path of a set.
fn asks_one(run: &RunRecord, paths: &BTreeSet<Path>) -> bool
    ensures { result ≡ asks_in paths.now run.now }
{
    run.asks
        .as_slice()
        .iter()
        .any(|(path, _)| paths.contains(path))
}
