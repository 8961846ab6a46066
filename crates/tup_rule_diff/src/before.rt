//! Which rules are the same as rules before.
ghost use Rattle.std.specs.Prelude.{◌≡◌, Some, slice_get, IfOk, IfErr};
ghost use Rattle.std.specs.Bool.{Decides};
ghost use Rattle.tup_rule_diff.specs.Before.{AreNumbersBefore, AreNumbersByPath, IsNumberBefore, path_of as path_of_rule};

use std::alloc::Global;
use tup_closure::Lists;
use tup_graph::{GraphFault, Nodes};
use tup_path::{Items, Path};
use tup_rule::Rule;

/// For each rule the number of the first that was the same before; `None` where it is new.
pub(crate) fn numbers_before(
    alloc: Global,
    nodes: &Nodes,
    rules: &[Rule],
) -> Result<Items<Option<u32>>, GraphFault>
    ensures numbers { IfOk result (AreNumbersBefore nodes.now rules.now) }
    ensures memory { IfErr result (λ fault. fault ≡ GraphFault.Memory) }
{
    let numbers = numbers_by_path(alloc, nodes.rules())?;
    let mut befores = Items::new(alloc);
    for rule in rules {
        befores.push(number_before(nodes, &numbers, rule))?;
    }
    Ok(befores)
}

/// The numbers of rules, each under the path that its rule is looked up by.
fn numbers_by_path(alloc: Global, rules: &[Rule]) -> Result<Lists<u32>, GraphFault>
    ensures numbers { IfOk result (AreNumbersByPath rules.now) }
    ensures memory { IfErr result (λ fault. fault ≡ GraphFault.Memory) }
{
    let mut numbers = Lists::new(alloc);
    for (at, rule) in rules.iter().enumerate() {
        numbers.add(alloc, path_of(rule), number_of(at)?)?;
    }
    Ok(numbers)
}

/// The number of the first rule that was the same before.
fn number_before(nodes: &Nodes, numbers: &Lists<u32>, rule: &Rule) -> Option<u32>
    requires { AreNumbersByPath nodes.now.rules numbers.now }
    ensures { IsNumberBefore nodes.now rule.now result }
{
    for number in numbers.of(path_of(rule)) {
        if is_same(nodes.rules(), *number, rule) {
            return Some(*number);
        }
    }
    None
}

/// Whether the rule of a number is this one.
fn is_same(rules: &[Rule], number: u32, rule: &Rule) -> bool
    ensures { Decides result (slice_get rules.now number ≡ Some rule.now) }
{
    match rules.get(number as usize) {
        Some(other) => other.same(rule),
        None => false,
    }
}

/// The path that a rule is looked up by: its first output, or its folder where it has none.
fn path_of(rule: &Rule) -> &Path
    ensures { result.now ≡ path_of_rule rule.now }
{
    match rule.outputs.as_slice().first() {
        Some(path) => path,
        None => &rule.dir,
    }
}

/// The number of the rule at a place. More than numbers can count have no room in memory.
pub(crate) fn number_of(at: usize) -> Result<u32, GraphFault>
    ensures number { IfOk result (λ number. number ≡ at) }
    ensures memory { IfErr result (λ fault. fault ≡ GraphFault.Memory) }
{
    match u32::try_from(at) {
        Ok(number) => Ok(number),
        Err(_) => Err(GraphFault::Memory),
    }
}
