//! The plan of an update, tested.
ghost use Rattle.std.specs.Prelude.{◌≡◌, ◌↔◌, ◌<◌, ℕ, true, All, Contains, IfOk, IfSome, IsTrue, None, Ok};
ghost use Rattle.std.specs.List.Sorted.{IsStrictlySortedBy};
ghost use Rattle.std.specs.Ordering.{nat_cmp};
ghost use Rattle.tup_core.specs.Sound.{HasNear};
ghost use Rattle.tup_core.specs.declared.plan.Plan.{Plan as PlanValue};
ghost use Rattle.tup_graph.specs.Graph.{is_flagged};
ghost use Rattle.tup_partial.specs.Plan.{IsToRun};
ghost use Rattle.tup_stored_graph.specs.Held.{is_fresh};
ghost use Rattle.tup_board.specs.Outputs.{AreApart};
ghost use Rattle.tup_apart.specs.Run.{IsPlanned, MayRun, OutputsOnce};

use crate::makers::{have_one_maker, makers_of};
use crate::once::name_once;
use crate::place::have_places;
use std::alloc::{AllocError, Global};
use std::marker::Brand;
use std::sync::ledger::{Blank, Ledger};
use tup_closure::{Steps, runs_are_of_rules};
use tup_core::Plan;
use tup_graph::Nodes;
use tup_partial::{flags_are_of_rules, plan_of};
use tup_stored_graph::Graph;

/// The plan that runs the flagged rules of a graph. `None` where no such plan may be run.
pub fn plan_over(alloc: Global, graph: &Graph, keep_going: bool) -> Result<Option<Plan>, AllocError>
    requires { IsTrue (is_fresh graph.now) }

    ensures may_run { IfOk result (λ found. IfSome found (MayRun graph.now.nodes)) }
    ensures ascending { IfOk result (λ found. IfSome found
        (λ plan. IsStrictlySortedBy nat_cmp plan.reach)) }
    ensures keep_going { IfOk result (λ found. IfSome found
        (λ plan. plan.keep_going ≡ keep_going)) }
    ensures none { result ≡ Ok None → (plan : PlanValue) → MayRun graph.now.nodes plan → ⊥ }
{
    let plan = planned(alloc, graph, keep_going)?;
    if may_run(alloc, graph.nodes(), &plan)? {
        Ok(Some(plan))
    } else {
        Ok(None)
    }
}

/// The plan that runs the flagged rules and all above them.
fn planned(alloc: Global, graph: &Graph, keep_going: bool) -> Result<Plan, AllocError>
    requires { IsTrue (is_fresh graph.now) }
    ensures planned { IfOk result (IsPlanned graph.now.nodes) }
    ensures ascending { IfOk result (λ plan. IsStrictlySortedBy nat_cmp plan.reach) }
    ensures keep_going { IfOk result (λ plan. plan.keep_going ≡ keep_going) }
{
    planned_uncounted::<Brand>(alloc, graph, keep_going, Blank::new(1))
}

/// That plan, with a blank of which the steps are made that it takes.
fn planned_uncounted<L: Ledger>(
    alloc: Global,
    graph: &Graph,
    keep_going: bool,
    blank: Blank,
) -> Result<Plan, AllocError>
    requires name { blank.name ≡ L.name }
    requires parts { blank.parts ≡ L.parts }
    requires some { 0 < blank.parts }
    requires fresh { IsTrue (is_fresh graph.now) }
    ensures planned { IfOk result (IsPlanned graph.now.nodes) }
    ensures ascending { IfOk result (λ plan. IsStrictlySortedBy nat_cmp plan.reach) }
    ensures keep_going { IfOk result (λ plan. plan.keep_going ≡ keep_going) }
{
    runs_are_of_rules();
    flags_are_of_rules();
    let mut steps = Steps::<L>::none(blank);
    match plan_of(alloc, graph.indexed(), keep_going, &mut steps) {
        Ok(plan) => Ok(plan),
        Err(_) => Err(AllocError),
    }
}

/// Whether such a plan may be run.
fn may_run(alloc: Global, nodes: &Nodes, plan: &Plan) -> Result<bool, AllocError>
    requires { IsPlanned nodes.now plan.now }
    ensures { IfOk result (λ may. IsTrue may ↔ MayRun nodes.now plan.now) }
{
    if !are_flagged(nodes, plan.reach.as_slice()) {
        return Ok(false);
    }
    if !name_once(alloc, plan.rules.as_slice())? {
        return Ok(false);
    }
    are_apart(alloc, nodes, plan)
}

fn are_flagged(nodes: &Nodes, numbers: &[u32]) -> bool
    ensures { IsTrue result ↔ All (λ number. is_flagged nodes.now number ≡ true) numbers.now }
{
    numbers.iter().all(|number| nodes.flagged(*number))
}

/// Whether the outputs that a plan makes can all be files, beside those that were seen, and each has one maker. Another one
/// would be among the rules that are near.
fn are_apart(alloc: Global, nodes: &Nodes, plan: &Plan) -> Result<bool, AllocError>
    requires { HasNear plan.now }
    ensures { IfOk result (λ apart. IsTrue apart ↔ AreApart plan.now nodes.now) }
{
    let makers = makers_of(alloc, plan)?;
    if !have_one_maker(&makers, plan.rules.as_slice(), plan.near.as_slice()) {
        return Ok(false);
    }
    have_places(alloc, nodes, &makers)
}
