//! Whether a command may ask for a text. The graph tells who makes a path: to look through all rules would take longer.
ghost use Rattle.std.specs.Prelude.{◌≡◌, ◌↔◌, ◌<◌, [], ℕ, true, Contains, Ok, Some, IfOk, IsTrue, length, slice_get};
ghost use Rattle.tup_path.specs.Gives.{GivesUnless};
ghost use Rattle.tup_rule.specs.Rule.{is_generated, writes};
ghost use Rattle.tup_rule.specs.declared.rule.Rule.{Rule as RuleValue};
ghost use Rattle.tup_access.specs.Access.{access as access_of, may_read as may_read_of};
ghost use Rattle.tup_core.specs.Outputs.{access_to_path};
ghost use Rattle.tup_schedule.specs.Course.{GoesOn, RunsRule};
ghost use Rattle.tup_board.specs.Board.{course_of, plan_of, state};
ghost use Rattle.tup_board.specs.Seat.{is_granted};

use crate::board::Board;
use std::alloc::{AllocError, Global};
use std::collections::BTreeSet;
use tup_access::{Access, AccessFault, Inputs, MAX_ASKS, Verdict, allowed};
use tup_core::{Plan, Running};
use tup_path::{Path, Text};
use tup_readers::Indexed;
use tup_rule::Rule;
use tup_runner::Runner;
use tup_schedule::Course;
use tup_site::Site;

/// So many are few.
const FEW: usize = 16;

impl<S: Site, R: Runner> Board<S, R> {
    /// Whether the command that a seat runs may ask for a text. After a lost commit the graph isn't asked.
    pub(crate) fn access(
        &self,
        alloc: Global,
        plan: &Plan,
        seat: u32,
        text: &Text,
    ) -> Result<Access, AllocError>
        requires plan { plan.now ≡ plan_of self.now }
        requires runs { is_granted ((state self.now).seats seat) ≡ true }
        ensures goes { GoesOn (course_of self.now) seat }
        ensures given { IfOk result (λ given. (it : RunsRule (course_of self.now) seat)
            → given ≡ access_of plan.now.rules it.rule (length it.running.asks) text.now) }
    {
        match &self.ground.lost {
            None => access_by(
                alloc,
                self.ground.graph.indexed(),
                plan,
                &self.course,
                seat,
                text,
            ),
            Some(_) => self.course.access(alloc, plan, seat, text),
        }
    }
}

/// The same over a course, and a graph that has the rules of its plan.
fn access_by(
    alloc: Global,
    graph: &Indexed,
    plan: &Plan,
    course: &Course,
    seat: u32,
    text: &Text,
) -> Result<Access, AllocError>
    requires plan { plan.now ≡ course.now.plan }
    requires runs { RunsRule course.now seat }
    requires rules { graph.now.rules ≡ plan.now.rules }
    ensures { IfOk result (λ given. (it : RunsRule course.now seat)
        → given ≡ access_of plan.now.rules it.rule (length it.running.asks) text.now) }
{
    match course.running(seat) {
        Some(running) if are_few(plan, running) => {
            access_running(alloc, graph, plan, running, text)
        }
        _ => course.access(alloc, plan, seat, text),
    }
}

/// Whether a few rules are to be run, and this one declares only a few paths. For many rules the core has a set of the outputs
/// of all, and for many paths one of these.
fn are_few(plan: &Plan, running: &Running) -> bool {
    match plan.rules.as_slice().get(running.rule as usize) {
        Some(rule) => {
            plan.reach.len() < FEW && rule.inputs.len() <= FEW && rule.order.len() <= FEW
        }
        None => false,
    }
}

/// The same of what a seat runs.
fn access_running(
    alloc: Global,
    graph: &Indexed,
    plan: &Plan,
    running: &Running,
    text: &Text,
) -> Result<Access, AllocError>
    requires rule { running.now.rule < length plan.now.rules }
    requires rules { graph.now.rules ≡ plan.now.rules }
    ensures { IfOk result (λ given. (rule : RuleValue)
        → slice_get plan.now.rules running.now.rule ≡ Some rule
        → given ≡ access_of plan.now.rules rule (length running.now.asks) text.now) }
{
    let rule = &plan.rules.as_slice()[running.rule as usize];
    match access_alone(alloc, rule, running, text)? {
        Access::Yes(path) => access_to(alloc, graph, rule, text, path),
        Access::No(verdict) => Ok(Access::No(verdict)),
    }
}

/// What becomes of an ask where no rule makes the path that it names.
fn access_alone(
    alloc: Global,
    rule: &Rule,
    running: &Running,
    text: &Text,
) -> Result<Access, AllocError>
    ensures { IfOk result (λ given. given
        ≡ access_of [] rule.now (length running.now.asks) text.now) }
{
    // whoever asked as often may ask no more
    let asked = running.asks.len().min(MAX_ASKS as usize) as u32;
    match access_after(alloc, rule, text, asked) {
        Ok(given) => Ok(given),
        Err(_) => Err(AllocError),
    }
}

/// The same after so many asks.
fn access_after(alloc: Global, rule: &Rule, text: &Text, asked: u32) -> Result<Access, AccessFault>
    ensures { GivesUnless result AccessFault.Memory
        (Ok (access_of [] rule.now asked text.now)) }
{
    let none = BTreeSet::new(alloc);
    let few = Inputs::few();
    allowed(alloc, rule, &few, &none, text, asked)
}

/// What becomes of an ask that isn't one too many, and whose text names this path.
fn access_to(
    alloc: Global,
    graph: &Indexed,
    rule: &Rule,
    text: &Text,
    path: Path,
) -> Result<Access, AllocError>
    ensures { IfOk result (λ given. given ≡ access_to_path graph.now.rules rule.now text.now path) }
{
    if may_read(alloc, graph, rule, &path)? {
        return Ok(Access::Yes(path));
    }
    Ok(Access::No(Verdict::IllegalRead(text.clone()?)))
}

/// Whether a rule may read a path. The graph is asked only where the rule neither declares nor writes the path.
fn may_read(alloc: Global, graph: &Indexed, rule: &Rule, path: &Path) -> Result<bool, AllocError>
    ensures { IfOk result (λ may. may ≡ may_read_of graph.now.rules rule.now path.now) }
{
    if rule.declares(path) || rule.writes(path) {
        return Ok(true);
    }
    Ok(!is_output(alloc, graph, path)?)
}

/// Whether a path is an output of a rule of a graph.
fn is_output(alloc: Global, graph: &Indexed, path: &Path) -> Result<bool, AllocError>
    ensures { IfOk result (λ is. is ≡ is_generated graph.now.rules path.now) }
{
    match graph.near_namers_of(alloc, path) {
        Ok(numbers) => Ok(one_writes(graph.nodes().rules(), &numbers, path)),
        Err(_) => Err(AllocError),
    }
}

/// Whether one of the rules with these numbers writes a path, where no other does.
fn one_writes(rules: &[Rule], numbers: &[u32], path: &Path) -> bool
    requires { (at : ℕ) (rule : RuleValue) → slice_get rules.now at ≡ Some rule
        → writes rule path.now ≡ true → Contains numbers.now at }
    ensures { result ≡ is_generated rules.now path.now }
{
    for number in numbers {
        if is_written_by(rules, *number, path) {
            return true;
        }
    }
    false
}

/// Whether there is a rule with this number, and it writes a path.
fn is_written_by(rules: &[Rule], number: u32, path: &Path) -> bool
    ensures { IsTrue result ↔ ((rule : RuleValue) × (slice_get rules.now number ≡ Some rule)
        × (writes rule path.now ≡ true)) }
{
    match rules.get(number as usize) {
        Some(rule) => rule.writes(path),
        None => false,
    }
}
