//! What the graph of a site says is to be done.
ghost use Rattle.std.specs.Prelude.{◌≡◌, ◌++◌, IfOk, OnOk};
ghost use Rattle.tup_todo.specs.Listing as specs;

use std::alloc::{AllocError, Global};
use tup_graph::{Nodes, Owned};
use tup_path::{Items, Path, Paths, Text};
use tup_rule::{Rule, RuleName};

/// A rule that has to be run.
#[derive(Drop)]
pub struct DueRule {
    pub rule: RuleName,
    /// What is printed for it.
    pub label: Text,
}

/// The owned paths that no rule makes any more and at which a file was seen, in their order.
pub(crate) fn vanished(alloc: Global, nodes: &Nodes) -> Result<Paths, AllocError>
    ensures { IfOk result (λ paths. paths ≡ specs.vanished nodes.now) }
{
    let mut paths = Paths::new(alloc);
    for (path, owned) in nodes.owned() {
        if is_vanished(nodes, path, owned) {
            paths.push(path.clone()?)?;
        }
    }
    Ok(paths)
}

/// Whether an owned path has lost its rule, and a file was seen there.
fn is_vanished(nodes: &Nodes, path: &Path, owned: &Owned) -> bool
    ensures { result ≡ specs.is_vanished nodes.now (path.now, owned.now) }
{
    owned.maker.is_none() && nodes.seen(path).is_some()
}

/// The rules that are flagged, in their order.
pub(crate) fn due(alloc: Global, nodes: &Nodes) -> Result<Items<DueRule>, AllocError>
    ensures { IfOk result (λ rules. rules ≡ specs.due_rules nodes.now) }
{
    let mut due = Items::new(alloc);
    for (number, _) in nodes.flags() {
        add_due(alloc, &mut due, nodes.rules(), *number)?;
    }
    Ok(due)
}

/// Adds the rule of a number, where there is one.
fn add_due(
    alloc: Global,
    due: &mut Items<DueRule>,
    rules: &[Rule],
    number: u32,
) -> Result<(), AllocError>
    ensures { OnOk result (due.new ≡ due.old ++ specs.due_at rules.now number) }
{
    if let Some(rule) = rules.get(number as usize) {
        due.push(due_rule(alloc, rule)?)?;
    }
    Ok(())
}

/// A rule as one that has to be run.
fn due_rule(alloc: Global, rule: &Rule) -> Result<DueRule, AllocError>
    ensures { IfOk result (λ due. due ≡ specs.due_of rule.now) }
{
    match (rule.name(alloc), rule.label(alloc)) {
        (Ok(rule), Ok(label)) => Ok(DueRule { rule, label }),
        _ => Err(AllocError),
    }
}
