//! Which rules are to be run after a swap.
ghost use Rattle.std.specs.Prelude.{◌≡◌, ◌↔◌, ◌++◌, ℕ, Contains, IfOk, IfErr, OnErr, OnOk};
ghost use Rattle.tup_graph.specs.Above.{HasAsked};
ghost use Rattle.tup_graph.specs.Swap.{ReadsNew};
ghost use Rattle.tup_closure.specs.Grows.{Grows};
ghost use Rattle.tup_closure.specs.Readers.{AreRunsOfRules, HasAskedOneOf};
ghost use Rattle.tup_closure.specs.Steps.{HasStepped, HasSteppedAtMost};
ghost use Rattle.tup_rule_diff.specs.Before.{AreNumbersBefore};
ghost use Rattle.tup_rule_diff.specs.Edits.{IsToRun, led_by};
ghost use Rattle.tup_rule_diff.specs.Numbered.{numbered};
ghost use Rattle.tup_rule_diff.specs.Running.{ReadsIfNew, ReadsOneNew, flag_at, is_new_at, run_at, was_flagged};

use crate::asked::asks_new;
use crate::before::number_of;
use crate::putting::{push_more, push_runs};
use std::alloc::Global;
use std::sync::ledger::Ledger;
use tup_closure::{Steps, above};
use tup_graph::{Edits, GraphFault, Nodes};
use tup_path::{Items, Path};
use tup_readers::Indexed;
use tup_record::RunRecord;
use tup_rule::Rule;

/// The records of runs that rules keep, under the numbers that they have now.
pub(crate) fn runs_now(
    alloc: Global,
    nodes: &Nodes,
    befores: &[Option<u32>],
) -> Result<Items<(u32, RunRecord)>, GraphFault>
    ensures runs { IfOk result (λ runs. runs ≡ numbered (run_at nodes.now) 0 befores.now) }
    ensures memory { IfErr result (λ fault. fault ≡ GraphFault.Memory) }
{
    let mut runs = Items::new(alloc);
    for (at, before) in befores.iter().enumerate() {
        push_run(&mut runs, nodes, *before, number_of(at)?)?;
    }
    Ok(runs)
}

/// The record that a rule had, under the number that it has now.
fn push_run(
    runs: &mut Items<(u32, RunRecord)>,
    nodes: &Nodes,
    before: Option<u32>,
    number: u32,
) -> Result<(), GraphFault>
    ensures ok { OnOk result (runs.new ≡ runs.old ++ run_at nodes.now number before) }
    ensures err { IfErr result (λ fault. fault ≡ GraphFault.Memory) }
{
    if let Some(before) = before {
        if let Some(run) = nodes.run_of(before) {
            runs.push((number, run.clone()?))?;
        }
    }
    Ok(())
}

/// The graph of the rules and of the records that they keep.
fn led(alloc: Global, rules: &[Rule], runs: &[(u32, RunRecord)]) -> Result<Indexed, GraphFault>
    ensures led { IfOk result (λ led. led ≡ led_by rules.now runs.now) }
    ensures memory { IfErr result (λ fault. fault ≡ GraphFault.Memory) }
{
    let mut edits = Items::new(alloc);
    push_more(alloc, &mut edits, rules)?;
    push_runs(&mut edits, runs)?;
    let mut led = Indexed::empty(alloc)?;
    match led.edit_all(alloc, edits) {
        Ok(()) => Ok(led),
        Err(fault) => {
            drop(led);
            Err(fault)
        }
    }
}

/// The rules that are to be run, where these are the rules now, and these the records that they keep. Where no record asks
/// an output of a new rule, nobody is to be run for what it reads, and no graph of them is made.
pub(crate) fn flags_now<L: Ledger>(
    alloc: Global,
    nodes: &Nodes,
    rules: &[Rule],
    runs: &[(u32, RunRecord)],
    befores: &[Option<u32>],
    steps: &mut Steps<L>,
) -> Result<Items<u32>, GraphFault>
    requires befores { AreNumbersBefore nodes.now (led_by rules.now runs.now).rules befores.now }
    requires runs { AreRunsOfRules (led_by rules.now runs.now) }
    ensures flags { IfOk result (λ flags. (number : ℕ)
        → Contains flags number ↔ IsToRun nodes.now (led_by rules.now runs.now) number) }
    ensures steps { OnOk result (HasStepped (led_by rules.now runs.now)
        (ReadsNew nodes.now (led_by rules.now runs.now)) steps.old steps.new) }
    ensures fewer { OnErr result (HasSteppedAtMost (led_by rules.now runs.now)
        (ReadsNew nodes.now (led_by rules.now runs.now)) steps.old steps.new) }
    ensures memory { IfErr result (λ fault. fault ≡ GraphFault.Memory) }
{
    let asked = asks_new(alloc, rules, runs, befores)?;
    if asked {
        return flags_led(alloc, nodes, rules, runs, befores, steps);
    }
    flags_kept(alloc, nodes, befores)
}

/// The rules that are new, and those that were flagged.
fn flags_kept(
    alloc: Global,
    nodes: &Nodes,
    befores: &[Option<u32>],
) -> Result<Items<u32>, GraphFault>
    ensures flags { IfOk result (λ flags. flags ≡ numbered (flag_at nodes.now) 0 befores.now) }
    ensures memory { IfErr result (λ fault. fault ≡ GraphFault.Memory) }
{
    let mut flags = Items::new(alloc);
    push_flagged(&mut flags, nodes, befores)?;
    Ok(flags)
}

/// The same, where records may ask outputs of new rules: by the graph of the rules and of the records that they keep.
fn flags_led<L: Ledger>(
    alloc: Global,
    nodes: &Nodes,
    rules: &[Rule],
    runs: &[(u32, RunRecord)],
    befores: &[Option<u32>],
    steps: &mut Steps<L>,
) -> Result<Items<u32>, GraphFault>
    requires befores { AreNumbersBefore nodes.now (led_by rules.now runs.now).rules befores.now }
    requires runs { AreRunsOfRules (led_by rules.now runs.now) }
    ensures flags { IfOk result (λ flags. (number : ℕ)
        → Contains flags number ↔ IsToRun nodes.now (led_by rules.now runs.now) number) }
    ensures steps { OnOk result (HasStepped (led_by rules.now runs.now)
        (ReadsNew nodes.now (led_by rules.now runs.now)) steps.old steps.new) }
    ensures fewer { OnErr result (HasSteppedAtMost (led_by rules.now runs.now)
        (ReadsNew nodes.now (led_by rules.now runs.now)) steps.old steps.new) }
    ensures memory { IfErr result (λ fault. fault ≡ GraphFault.Memory) }
{
    let led = led(alloc, rules, runs)?;
    let flags = to_run(alloc, nodes, &led, befores, steps);
    drop(led);
    flags
}

/// The rules that are to be run: those whose records ask an output of a new one, and all that recorded reads lead to from
/// them; new ones, and those that were flagged.
fn to_run<L: Ledger>(
    alloc: Global,
    nodes: &Nodes,
    led: &Indexed,
    befores: &[Option<u32>],
    steps: &mut Steps<L>,
) -> Result<Items<u32>, GraphFault>
    requires befores { AreNumbersBefore nodes.now led.now.rules befores.now }
    requires runs { AreRunsOfRules led.now }
    ensures flags { IfOk result (λ flags. (number : ℕ)
        → Contains flags number ↔ IsToRun nodes.now led.now number) }
    ensures steps { OnOk result
        (HasStepped led.now (ReadsNew nodes.now led.now) steps.old steps.new) }
    ensures fewer { OnErr result
        (HasSteppedAtMost led.now (ReadsNew nodes.now led.now) steps.old steps.new) }
    ensures memory { IfErr result (λ fault. fault ≡ GraphFault.Memory) }
{
    let roots = readers_of_new(alloc, led, led.nodes().rules(), befores)?;
    let mut flags = above(alloc, led, roots.as_slice(), steps)?;
    push_flagged(&mut flags, nodes, befores)?;
    Ok(flags)
}

/// The rules whose records ask an output of a new one.
fn readers_of_new(
    alloc: Global,
    led: &Indexed,
    rules: &[Rule],
    befores: &[Option<u32>],
) -> Result<Items<u32>, GraphFault>
    requires { rules.now ≡ led.now.rules }
    ensures readers { IfOk result (λ found. (number : ℕ)
        → Contains found number ↔ ReadsOneNew led.now befores.now number) }
    ensures memory { IfErr result (λ fault. fault ≡ GraphFault.Memory) }
{
    let mut found = Items::new(alloc);
    for (at, rule) in rules.iter().enumerate() {
        push_if_new(alloc, &mut found, led, befores, at, rule)?;
    }
    Ok(found)
}

/// The rules whose records ask an output of the rule at a place, if that is new.
fn push_if_new(
    alloc: Global,
    found: &mut Items<u32>,
    led: &Indexed,
    befores: &[Option<u32>],
    at: usize,
    rule: &Rule,
) -> Result<(), GraphFault>
    ensures readers { OnOk result (Grows (ReadsIfNew led.now befores.now at rule.now)
        (Contains found.old) (Contains found.new)) }
    ensures memory { IfErr result (λ fault. fault ≡ GraphFault.Memory) }
{
    if is_new(befores, at) {
        return push_readers(alloc, found, led, rule.outputs.as_slice());
    }
    Ok(())
}

/// The rules whose records ask one of some paths.
fn push_readers(
    alloc: Global,
    found: &mut Items<u32>,
    led: &Indexed,
    paths: &[Path],
) -> Result<(), GraphFault>
    ensures readers { OnOk result (Grows (HasAskedOneOf led.now paths.now)
        (Contains found.old) (Contains found.new)) }
    ensures memory { IfErr result (λ fault. fault ≡ GraphFault.Memory) }
{
    for path in paths {
        push_readers_of(alloc, found, led, path)?;
    }
    Ok(())
}

/// The rules whose records ask a path.
fn push_readers_of(
    alloc: Global,
    found: &mut Items<u32>,
    led: &Indexed,
    path: &Path,
) -> Result<(), GraphFault>
    ensures readers { OnOk result (Grows (λ number. HasAsked led.now number path.now)
        (Contains found.old) (Contains found.new)) }
    ensures memory { IfErr result (λ fault. fault ≡ GraphFault.Memory) }
{
    let numbers = led.readers_of(alloc, path)?;
    push_all(found, &numbers)
}

fn push_all(found: &mut Items<u32>, numbers: &[u32]) -> Result<(), GraphFault>
    ensures ok { OnOk result (found.new ≡ found.old ++ numbers.now) }
    ensures err { IfErr result (λ fault. fault ≡ GraphFault.Memory) }
{
    for number in numbers {
        found.push(*number)?;
    }
    Ok(())
}

/// Whether the rule at a place is new.
pub(crate) fn is_new(befores: &[Option<u32>], at: usize) -> bool
    ensures { result ≡ is_new_at befores.now at }
{
    match befores.get(at) {
        Some(before) => before.is_none(),
        None => false,
    }
}

/// Rules that are new, and those that were flagged.
fn push_flagged(
    flags: &mut Items<u32>,
    nodes: &Nodes,
    befores: &[Option<u32>],
) -> Result<(), GraphFault>
    ensures ok { OnOk result (flags.new
        ≡ flags.old ++ numbered (flag_at nodes.now) 0 befores.now) }
    ensures err { IfErr result (λ fault. fault ≡ GraphFault.Memory) }
{
    for (at, before) in befores.iter().enumerate() {
        push_if_flagged(flags, nodes, *before, number_of(at)?)?;
    }
    Ok(())
}

/// A rule, if it is new or was flagged.
fn push_if_flagged(
    flags: &mut Items<u32>,
    nodes: &Nodes,
    before: Option<u32>,
    number: u32,
) -> Result<(), GraphFault>
    ensures ok { OnOk result (flags.new ≡ flags.old ++ flag_at nodes.now number before) }
    ensures err { IfErr result (λ fault. fault ≡ GraphFault.Memory) }
{
    if is_flagged(nodes, before) {
        flags.push(number)?;
    }
    Ok(())
}

/// Whether a rule that had this number is new, or was flagged.
fn is_flagged(nodes: &Nodes, before: Option<u32>) -> bool
    ensures { result ≡ was_flagged nodes.now before }
{
    match before {
        Some(before) => nodes.flagged(before),
        None => true,
    }
}
