//! Which rules are near those that are to be run.
ghost use Rattle.std.specs.Prelude.{◌≡◌, ◌<◌, Contains, length, IfOk, IfErr, OnOk};
ghost use Rattle.std.specs.List.Sorted.{IsStrictlySortedBy};
ghost use Rattle.std.specs.Ordering.{nat_cmp};
ghost use Rattle.tup_graph.specs.Graph.{outputs_of};
ghost use Rattle.tup_core.specs.Sound.{AreNamersOf, IsMadeBy};
ghost use Rattle.tup_closure.specs.Grows.{Grows};
ghost use Rattle.tup_closure.specs.Steps.{IsListOf};
ghost use Rattle.tup_partial.specs.Near.{IsIn, NamesOneOf, NamesOutputOf};

use crate::fault::PartialFault;
use std::alloc::Global;
use std::collections::BTreeSet;
use tup_closure::rule_count;
use tup_core::Numbers;
use tup_graph::Nodes;
use tup_path::Path;
use tup_readers::Indexed;

/// Of so many rules at most it is asked who names what they make.
const FEW: usize = 64;

/// Rules among which all are that declare or make an output of one of these rules, in ascending order: just those that do
/// where these rules are few, and all rules where they are many.
pub(crate) fn near_rules(
    alloc: Global,
    graph: &Indexed,
    numbers: &[u32],
) -> Result<Numbers, PartialFault>
    ensures near { IfOk result
        (AreNamersOf graph.now.rules (IsMadeBy graph.now.rules numbers.now)) }
    ensures memory { IfErr result (λ fault. fault ≡ PartialFault.Memory) }
{
    if numbers.len() > FEW {
        all_rules(alloc, graph.nodes())
    } else {
        namers(alloc, graph, numbers)
    }
}

/// All rules, in ascending order.
fn all_rules(alloc: Global, nodes: &Nodes) -> Result<Numbers, PartialFault>
    ensures all { IfOk result (IsListOf (λ number. number < length nodes.now.rules)) }
    ensures memory { IfErr result (λ fault. fault ≡ PartialFault.Memory) }
{
    let mut numbers = Numbers::new(alloc);
    for number in 0..rule_count(nodes)? {
        numbers.push(number)?;
    }
    Ok(numbers)
}

/// The rules that declare or make an output of one of these rules, in ascending order.
fn namers(alloc: Global, graph: &Indexed, numbers: &[u32]) -> Result<Numbers, PartialFault>
    ensures namers { IfOk result (IsListOf (NamesOutputOf graph.now numbers.now)) }
    ensures memory { IfErr result (λ fault. fault ≡ PartialFault.Memory) }
{
    let mut found = BTreeSet::new(alloc);
    for number in numbers {
        add_namers(alloc, graph, *number, &mut found)?;
    }
    let near = listed(alloc, &found)?;
    Ok(near)
}

/// Adds those that declare or make an output of a rule.
fn add_namers(
    alloc: Global,
    graph: &Indexed,
    number: u32,
    found: &mut BTreeSet<u32>,
) -> Result<(), PartialFault>
    ensures found { OnOk result (Grows
        (NamesOneOf graph.now (outputs_of graph.now number)) (IsIn found.old) (IsIn found.new)) }
    ensures memory { IfErr result (λ fault. fault ≡ PartialFault.Memory) }
{
    match graph.nodes().rules().get(number as usize) {
        Some(rule) => add_namers_of(alloc, graph, rule.outputs.as_slice(), found),
        None => Ok(()),
    }
}

/// Adds those that declare or make one of some paths.
fn add_namers_of(
    alloc: Global,
    graph: &Indexed,
    paths: &[Path],
    found: &mut BTreeSet<u32>,
) -> Result<(), PartialFault>
    ensures found { OnOk result
        (Grows (NamesOneOf graph.now paths.now) (IsIn found.old) (IsIn found.new)) }
    ensures memory { IfErr result (λ fault. fault ≡ PartialFault.Memory) }
{
    for path in paths {
        let numbers = graph.namers_of(alloc, path)?;
        add_numbers(&numbers, found)?;
    }
    Ok(())
}

fn add_numbers(numbers: &[u32], found: &mut BTreeSet<u32>) -> Result<(), PartialFault>
    ensures found { OnOk result (Grows (Contains numbers.now) (IsIn found.old) (IsIn found.new)) }
    ensures memory { IfErr result (λ fault. fault ≡ PartialFault.Memory) }
{
    for number in numbers {
        found.insert(*number)?;
    }
    Ok(())
}

/// The numbers of a set, in ascending order.
fn listed(alloc: Global, set: &BTreeSet<u32>) -> Result<Numbers, PartialFault>
    ensures numbers { IfOk result (λ numbers. numbers ≡ set.now.keys) }
    ensures ascending { IfOk result (λ numbers. IsStrictlySortedBy nat_cmp numbers) }
    ensures memory { IfErr result (λ fault. fault ≡ PartialFault.Memory) }
{
    let mut numbers = Numbers::new(alloc);
    for number in set {
        numbers.push(*number)?;
    }
    Ok(numbers)
}
