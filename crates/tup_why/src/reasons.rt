//! The reasons of the rules of a plan.
ghost use Rattle.std.specs.Prelude.{◌≡◌, ◌++◌, ◌∷◌, [], ℕ, List, Contains, reverse, IfOk, IfErr, IfNone, IfSome, MatchOption, OnOk};
ghost use Rattle.tup_rule.specs.declared.rule.Rule.{Rule as RuleValue};
ghost use Rattle.tup_graph.specs.Graph.{GraphState};
ghost use Rattle.tup_core.specs.declared.plan.Plan.{Plan as PlanValue};
ghost use Rattle.tup_why.specs.Makers.{AreMakers};
ghost use Rattle.tup_why.specs.Reason.{GoesOn, IsPlanned, IsReasonOf, LeadsTo};
ghost use Rattle.tup_why.specs.Waiting.{HasCircle};
ghost use Rattle.tup_why.specs.Cause.{AreCauses, AreCausesAmong};
ghost use Rattle.tup_why.specs.Steps.{StepsTo};

use crate::cause::{Cause, cause_of};
use crate::fault::WhyFault;
use crate::makers::makers_of;
use crate::numbered::rule_at;
use crate::reason::{Link, Reason, Root};
use std::alloc::Global;
use std::collections::BTreeMap;
use tup_closure::Lists;
use tup_core::Plan;
use tup_graph::Nodes;
use tup_path::{Items, Path};

/// What the reasons of all planned rules are read off: the cause of each.
#[derive(Drop)]
pub struct Reasons {
    causes: BTreeMap<u32, Cause>,
}

/// How a walk goes on that goes back from a rule to the root of its reason.
#[derive(Drop)]
enum Step {
    /// It came to the root.
    Begins(Root),
    /// It goes on at this rule.
    Back(u32),
    /// The rule isn't planned.
    Unplanned,
}

/// A reason of a rule of a plan. `None` where the rule isn't planned, or where rules wait for one another in a circle.
pub fn why(
    alloc: Global,
    nodes: &Nodes,
    plan: &Plan,
    number: u32,
) -> Result<Option<Reason>, WhyFault>
    ensures holds { IfOk result (λ found. IfSome found (IsReasonOf nodes.now plan.now number)) }
    ensures circle { IfOk result (λ found. IfNone found ((rule : RuleValue)
        → IsPlanned plan.now number rule → HasCircle nodes.now plan.now)) }
    ensures memory { IfErr result (λ fault. fault ≡ WhyFault.Memory) }
{
    Reasons::of(alloc, nodes, plan)?.of_rule(alloc, plan, number)
}

impl Reasons {
    /// The causes of all planned rules, in one walk over the plan and the records of its rules.
    pub fn of(alloc: Global, nodes: &Nodes, plan: &Plan) -> Result<Reasons, WhyFault>
        ensures causes { IfOk result (AreCauses nodes.now plan.now) }
        ensures memory { IfErr result (λ fault. fault ≡ WhyFault.Memory) }
    {
        let makers = makers_of(alloc, plan)?;
        let mut reasons = Reasons {
            causes: BTreeMap::new(alloc),
        };
        for number in plan.reach.as_slice() {
            reasons.add(nodes, plan, &makers, *number)?;
        }
        Ok(reasons)
    }

    /// Adds the cause of a planned rule.
    fn add(
        &mut self,
        nodes: &Nodes,
        plan: &Plan,
        makers: &Lists<u32>,
        number: u32,
    ) -> Result<(), WhyFault>
        requires makers { AreMakers plan.now makers.now }
        requires reached { Contains plan.now.reach number }
        ensures added { OnOk result ((numbers : List ℕ)
            → AreCausesAmong nodes.now plan.now numbers self.old
            → AreCausesAmong nodes.now plan.now (numbers ++ number ∷ []) self.new) }
        ensures memory { IfErr result (λ fault. fault ≡ WhyFault.Memory) }
    {
        match rule_at(plan.rules.as_slice(), number) {
            Some(rule) => {
                let cause = cause_of(nodes, plan, makers, rule, number)?;
                self.causes.insert(number, cause)?;
                Ok(())
            }
            None => Ok(()),
        }
    }

    /// The reason of a rule of the plan. `None` where the rule isn't planned, or where rules wait for one another in a circle.
    pub fn of_rule(
        &self,
        alloc: Global,
        plan: &Plan,
        number: u32,
    ) -> Result<Option<Reason>, WhyFault>
        ensures holds { IfOk result (λ found. (g : GraphState) → AreCauses g plan.now self.now
            → IfSome found (IsReasonOf g plan.now number)) }
        ensures circle { IfOk result (λ found. (g : GraphState) → AreCauses g plan.now self.now
            → IfNone found ((rule : RuleValue) → IsPlanned plan.now number rule
            → HasCircle g plan.now)) }
        ensures memory { IfErr result (λ fault. fault ≡ WhyFault.Memory) }
    {
        let mut links = Vec::new(alloc);
        match self.trace(plan, number, &mut links)? {
            Some(root) => Ok(Some(Reason {
                root,
                links: forward(alloc, links)?,
            })),
            None => Ok(None),
        }
    }

    /// Goes back from a rule to the root of its reason, and lists the links on its way, the last first.
    fn trace(
        &self,
        plan: &Plan,
        number: u32,
        links: &mut Vec<Link>,
    ) -> Result<Option<Root>, WhyFault>
        requires { links.old.items ≡ [] }
        ensures traced { IfOk result (λ found. (g : GraphState) → AreCauses g plan.now self.now
            → MatchOption found ((rule : RuleValue) → IsPlanned plan.now number rule
            → HasCircle g plan.now)
            (λ root. LeadsTo g plan.now root (reverse links.new.items) number)) }
        ensures memory { IfErr result (λ fault. fault ≡ WhyFault.Memory) }
    {
        let mut at = number;
        for steps in 0..plan.rules.len() {
            match self.step(at, links)? {
                Step::Begins(root) => return Ok(Some(root)),
                Step::Back(maker) => at = maker,
                Step::Unplanned => return Ok(None),
            }
        }
        Ok(None)
    }

    /// Goes one step back, from a rule to the root or to the rule for which it waits, and adds the links of the step.
    fn step(&self, at: u32, links: &mut Vec<Link>) -> Result<Step, WhyFault>
        ensures step { IfOk result (λ step. (g : GraphState) (plan : PlanValue)
            (number : ℕ) → AreCauses g plan self.now
            → GoesOn g plan at (reverse links.old.items) number
            → StepsTo g plan at number (reverse links.new.items) step) }
        ensures memory { IfErr result (λ fault. fault ≡ WhyFault.Memory) }
    {
        match self.causes.get(&at) {
            None => Ok(Step::Unplanned),
            Some(Cause::New) => Ok(Step::Begins(Root::NewRule(at))),
            Some(Cause::Unfinished) => Ok(Step::Begins(Root::Unfinished(at))),
            Some(Cause::Changed(path)) => {
                links.push(Link::Reads(at))?;
                Ok(Step::Begins(Root::Changed(path.clone()?)))
            }
            Some(Cause::ReadsNew { maker, path }) => {
                add_read(links, at, path)?;
                Ok(Step::Begins(Root::NewRule(*maker)))
            }
            Some(Cause::Waits { maker, path }) => {
                add_read(links, at, path)?;
                Ok(Step::Back(*maker))
            }
        }
    }
}

/// Adds, the last first, that a rule reads a path which another writes.
fn add_read(links: &mut Vec<Link>, number: u32, path: &Path) -> Result<(), WhyFault>
    ensures added { OnOk result (links.new.items
        ≡ (links.old.items ++ Link.Reads number ∷ []) ++ Link.Writes path.now ∷ []) }
    ensures memory { IfErr result (λ fault. fault ≡ WhyFault.Memory) }
{
    links.push(Link::Reads(number))?;
    links.push(Link::Writes(path.clone()?))?;
    Ok(())
}

/// The links the other way round.
fn forward(alloc: Global, mut backward: Vec<Link>) -> Result<Items<Link>, WhyFault>
    ensures reversed { IfOk result (λ links. links ≡ reverse backward.items) }
    ensures memory { IfErr result (λ fault. fault ≡ WhyFault.Memory) }
{
    let mut links = Items::new(alloc);
    'links: while let Some(link) = backward.pop() {
        links.push(link)?;
    }
    Ok(links)
}
