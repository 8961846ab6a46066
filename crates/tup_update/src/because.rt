//! Why the rules were run whose command came to a verdict.
ghost use Rattle.std.specs.Prelude.{◌≡◌, ℕ, List, Option, Some, Contains, IfOk, IfSome, IsSome, is_some};
ghost use Rattle.std.specs.BTreeMap.{get};
ghost use Rattle.std.specs.Ordering.{nat_cmp};
ghost use Rattle.tup_rule.specs.declared.rule.Rule.{Rule as RuleValue};
ghost use Rattle.tup_graph.specs.Graph.{GraphState};
ghost use Rattle.tup_why.specs.Cause.{AreCauses};
ghost use Rattle.tup_why.specs.Reason.{IsPlanned};
ghost use Rattle.tup_update.specs.Because.{AreChainsOf, IsChainOrNone};

use crate::by_rule::ByRule;
use std::alloc::{AllocError, Global};
use std::collections::BTreeMap;
use tup_core::Plan;
use tup_graph::Nodes;
use tup_path::Text;
use tup_why::{Reasons, WhyFault, shown};

/// The chains of the rules that a plan has to run, where they are asked for.
pub(crate) fn chains_of(
    alloc: Global,
    nodes: &Nodes,
    plan: &Plan,
    explain: bool,
) -> Result<Option<ByRule<Option<Text>>>, AllocError>
    ensures asked { IfOk result (λ chains. is_some chains ≡ explain) }
    ensures chains { IfOk result (λ chains. IfSome chains (AreChainsOf nodes.now plan.now)) }
{
    if !explain {
        return Ok(None);
    }
    let waiting = chains(alloc, nodes, plan)?;
    Ok(Some(ByRule::of(alloc, waiting)?))
}

/// The same by their numbers.
fn chains(
    alloc: Global,
    nodes: &Nodes,
    plan: &Plan,
) -> Result<BTreeMap<u32, Option<Text>>, AllocError>
    ensures each { IfOk result (λ chains. (number : ℕ) → Contains plan.now.reach number
        → IsSome (get nat_cmp chains number)) }
    ensures are { IfOk result (λ chains. (number : ℕ) (rule : RuleValue)
        (chain : Option (List ℕ)) → IsPlanned plan.now number rule
        → get nat_cmp chains number ≡ Some chain → IsChainOrNone nodes.now plan.now number chain) }
{
    let Ok(reasons) = Reasons::of(alloc, nodes, plan) else {
        return Err(AllocError);
    };
    let mut chains = BTreeMap::new(alloc);
    for number in plan.reach.as_slice() {
        chains.insert(*number, chain(alloc, plan, &reasons, *number)?)?;
    }
    Ok(chains)
}

/// The chain of a reason of a rule, as it is printed, where it has one.
fn chain(
    alloc: Global,
    plan: &Plan,
    reasons: &Reasons,
    number: u32,
) -> Result<Option<Text>, AllocError>
    ensures { IfOk result (λ chain. (g : GraphState) (rule : RuleValue)
        → AreCauses g plan.now reasons.now → IsPlanned plan.now number rule
        → IsChainOrNone g plan.now number chain) }
{
    match reasons.of_rule(alloc, plan, number) {
        Ok(Some(reason)) => Ok(Some(shown(alloc, plan.rules.as_slice(), &reason)?)),
        Ok(None) => Ok(None),
        Err(WhyFault::Memory) => Err(AllocError),
    }
}
