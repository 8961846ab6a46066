//! The plan of an update.
ghost use Rattle.std.specs.Prelude.{◌≡◌, ◌↔◌, ℕ, true, Contains, IfOk, IfErr, OnErr, OnOk};
ghost use Rattle.std.specs.List.Sorted.{IsStrictlySortedBy};
ghost use Rattle.std.specs.Ordering.{nat_cmp};
ghost use Rattle.tup_graph.specs.Graph.{is_flagged};
ghost use Rattle.tup_core.specs.Sound.{HasNear, IsInRange};
ghost use Rattle.tup_closure.specs.Readers.{AreRunsOfRules};
ghost use Rattle.tup_closure.specs.Steps.{HasStepped, HasSteppedAtMost};
ghost use Rattle.tup_partial.specs.Plan.{AreFlagsOfRules, IsFlagged, IsToRun};

use crate::fault::PartialFault;
use crate::near::near_rules;
use std::alloc::Global;
use std::sync::ledger::Ledger;
use tup_closure::{Steps, above};
use tup_core::{Numbers, Plan};
use tup_graph::Nodes;
use tup_readers::Indexed;

/// The plan of an update: the rules of the graph in their order, and of these the flagged ones and all above them are to be
/// run; near these are the rules that declare or make what they make. It takes the steps of `above` from the flagged rules;
/// after a refusal it has taken no more.
pub fn plan_of<L: Ledger>(
    alloc: Global,
    graph: &Indexed,
    keep_going: bool,
    steps: &mut Steps<L>,
) -> Result<Plan, PartialFault>
    // Both hold of each graph that a store stands for.
    requires runs { AreRunsOfRules graph.now }
    requires flags { AreFlagsOfRules graph.now }

    ensures rules { IfOk result (λ plan. plan.rules ≡ graph.now.rules) }
    ensures reach { IfOk result (λ plan. (number : ℕ)
        → Contains plan.reach number ↔ IsToRun graph.now number) }
    ensures ascending { IfOk result (λ plan. IsStrictlySortedBy nat_cmp plan.reach) }
    ensures range { IfOk result IsInRange }
    ensures near { IfOk result HasNear }
    ensures keep_going { IfOk result (λ plan. plan.keep_going ≡ keep_going) }
    ensures steps { OnOk result
        (HasStepped graph.now (IsFlagged graph.now) steps.old steps.new) }
    ensures fewer { OnErr result
        (HasSteppedAtMost graph.now (IsFlagged graph.now) steps.old steps.new) }
    ensures memory { IfErr result (λ fault. fault ≡ PartialFault.Memory) }
{
    let reach = reach(alloc, graph, steps)?;
    let near = near_rules(alloc, graph, reach.as_slice())?;
    let rules = graph.nodes().shared_rules()?;
    Ok(Plan {
        rules,
        reach,
        near,
        keep_going,
    })
}

/// The flagged rules and all above them.
fn reach<L: Ledger>(
    alloc: Global,
    graph: &Indexed,
    steps: &mut Steps<L>,
) -> Result<Numbers, PartialFault>
    requires runs { AreRunsOfRules graph.now }
    requires flags { AreFlagsOfRules graph.now }
    ensures reach { IfOk result (λ numbers. (number : ℕ)
        → Contains numbers number ↔ IsToRun graph.now number) }
    ensures ascending { IfOk result (λ numbers. IsStrictlySortedBy nat_cmp numbers) }
    ensures steps { OnOk result
        (HasStepped graph.now (IsFlagged graph.now) steps.old steps.new) }
    ensures fewer { OnErr result
        (HasSteppedAtMost graph.now (IsFlagged graph.now) steps.old steps.new) }
    ensures memory { IfErr result (λ fault. fault ≡ PartialFault.Memory) }
{
    let flagged = flagged(alloc, graph.nodes())?;
    let numbers = above(alloc, graph, flagged.as_slice(), steps)?;
    Ok(numbers)
}

/// The flagged rules.
fn flagged(alloc: Global, graph: &Nodes) -> Result<Numbers, PartialFault>
    ensures flagged { IfOk result (λ numbers. (number : ℕ)
        → Contains numbers number ↔ (is_flagged graph.now number ≡ true)) }
    ensures memory { IfErr result (λ fault. fault ≡ PartialFault.Memory) }
{
    let mut numbers = Numbers::new(alloc);
    for (number, _) in graph.flags() {
        numbers.push(*number)?;
    }
    Ok(numbers)
}
