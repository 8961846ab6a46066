//! When each planned rule has a reason.
ghost use Rattle.tup_graph.specs.Graph.{GraphState};
ghost use Rattle.tup_core.specs.Sound.{HasOneMaker, IsAcyclic};
ghost use Rattle.tup_core.specs.declared.plan.Plan.{Plan as PlanValue};
ghost use Rattle.tup_why.specs.Waiting.{HasCircle};

/// A law: where each output has one maker and no rule is its own declared producer, no rule waits for itself. So each planned
/// rule of such a plan has a reason.
pub fn none_waits_for_itself()
    ensures { (g : GraphState) (plan : PlanValue) → HasOneMaker plan → IsAcyclic plan.rules
        → HasCircle g plan → ⊥ }
{}
