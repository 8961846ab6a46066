//! Whether a reason is one.
ghost use Rattle.std.specs.Prelude.{◌≡◌, ◌≢◌, ◌+◌, ◌<◌, ◌↔◌, ◌⊎◌, ℕ, true, false, All, Contains, Option, None, Some, IsTrue, MatchOption, drop, length, slice_get};
ghost use Rattle.std.specs.FinMap as finite;
ghost use Rattle.std.specs.Option.{option_copied};
ghost use Rattle.tup_path.specs.Name.{Names};
ghost use Rattle.tup_stamp.specs.declared.Stamp.{Stamp as StampValue};
ghost use Rattle.tup_rule.specs.Rule.{writes as writes_in};
ghost use Rattle.tup_rule.specs.declared.rule.Rule.{Rule as RuleValue};
ghost use Rattle.tup_graph.specs.Above.{HasAsked};
ghost use Rattle.tup_graph.specs.Kept.{HasSeenStamps};
ghost use Rattle.tup_why.specs.Cause.{GiveNone, GivesNone, GivesReason, SeesAsks};
ghost use Rattle.tup_why.specs.Reason.{GoesOn, HasOther, IsChanged, IsOtherAsk, IsOtherWrite, IsPlanned, IsReason, IsUnfinished};

use crate::cause::{is_other, is_recorded, is_seen_other};
use crate::numbered::rule_at;
use crate::reason::{Link, Reason, Root};
use tup_core::Plan;
use tup_graph::Nodes;
use tup_path::Path;
use tup_record::RunRecord;
use tup_rule::Rule;
use tup_stamp::Stamp;

/// Whether a chain is a reason: whether it leads from a root to a planned rule. It takes no memory.
pub fn holds(reason: &Reason, nodes: &Nodes, plan: &Plan) -> bool
    ensures { IsTrue result ↔ IsReason nodes.now plan.now reason.now }
{
    let links = reason.links.as_slice();
    match &reason.root {
        Root::Changed(path) => match links.split_first() {
            Some((Link::Reads(first), rest)) => {
                is_changed(nodes, plan, *first, path) && goes_on(nodes, plan, *first, rest)
            }
            _ => false,
        },
        Root::NewRule(first) => {
            is_new(nodes, plan, *first) && goes_on(nodes, plan, *first, links)
        }
        Root::Unfinished(first) => {
            is_unfinished(nodes, plan, *first) && goes_on(nodes, plan, *first, links)
        }
    }
}

/// The rule of a number, if a plan runs it.
fn planned(plan: &Plan, number: u32) -> Option<&Rule>
    ensures { (rule : RuleValue) → (option_copied result ≡ Some rule)
        ↔ IsPlanned plan.now number rule }
{
    if !plan.reach.as_slice().contains(&number) {
        return None;
    }
    rule_at(plan.rules.as_slice(), number)
}

/// Whether a chain goes on from a rule over these links.
fn goes_on(nodes: &Nodes, plan: &Plan, first: u32, links: &[Link]) -> bool
    ensures { IsTrue result ↔ ((last : ℕ) × GoesOn nodes.now plan.now first links.now last) }
{
    let mut number = first;
    let mut at = 0;
    while at < links.len() {
        match hop(nodes, plan, number, links, at) {
            Some(next) => number = next,
            None => return false,
        }
        at += 2;
    }
    true
}

/// The rule to which two links lead from a rule, if they do.
fn hop(nodes: &Nodes, plan: &Plan, number: u32, links: &[Link], at: usize) -> Option<u32>
    requires { at < length links.now }
    ensures { (last : ℕ) → MatchOption result
        (GoesOn nodes.now plan.now number (drop at links.now) last → ⊥)
        (λ next. GoesOn nodes.now plan.now number (drop at links.now) last
        ↔ GoesOn nodes.now plan.now next (drop (at + 2) links.now) last) }
{
    match links.get(at) {
        Some(Link::Writes(path)) => match links.get(at + 1) {
            Some(Link::Reads(next)) if leads(nodes, plan, number, path, *next) => Some(*next),
            _ => None,
        },
        _ => None,
    }
}

/// Whether a path leads from a rule to another: the first is planned and has it as an output, and the other is planned and its
/// record asks it.
fn leads(nodes: &Nodes, plan: &Plan, number: u32, path: &Path, next: u32) -> bool
    ensures { IsTrue result ↔ ((rule : RuleValue) × (reader : RuleValue)
        × IsPlanned plan.now number rule × (writes_in rule path.now ≡ true)
        × IsPlanned plan.now next reader × HasAsked nodes.now next path.now) }
{
    writes(plan, number, path) && reads(nodes, plan, next, path)
}

/// Whether a rule is planned and has a path as an output.
fn writes(plan: &Plan, number: u32, path: &Path) -> bool
    ensures { IsTrue result ↔ ((rule : RuleValue) × IsPlanned plan.now number rule
        × (writes_in rule path.now ≡ true)) }
{
    match planned(plan, number) {
        Some(rule) => rule.writes(path),
        None => false,
    }
}

/// Whether a rule is planned and its record asks a path.
fn reads(nodes: &Nodes, plan: &Plan, number: u32, path: &Path) -> bool
    ensures { IsTrue result ↔ ((rule : RuleValue) × IsPlanned plan.now number rule
        × HasAsked nodes.now number path.now) }
{
    match planned(plan, number) {
        Some(_) => has_asked(nodes, number, path),
        None => false,
    }
}

/// Whether the record of a rule asks a path.
fn has_asked(nodes: &Nodes, number: u32, path: &Path) -> bool
    ensures { IsTrue result ↔ HasAsked nodes.now number path.now }
{
    match nodes.run_of(number) {
        Some(last) => is_among(last.asks.as_slice(), path),
        None => false,
    }
}

/// Whether one of some asks is of a path.
fn is_among(asks: &[(Path, Option<Stamp>)], path: &Path) -> bool
    ensures { IsTrue result ↔ ((given : Option StampValue)
        × Contains asks.now (path.now, given)) }
{
    for (asked, _) in asks {
        if asked == path {
            return true;
        }
    }
    false
}

/// Whether a rule is planned and has no record.
fn is_new(nodes: &Nodes, plan: &Plan, number: u32) -> bool
    ensures { IsTrue result ↔ ((rule : RuleValue) × IsPlanned plan.now number rule
        × (finite.get nodes.now.runs number ≡ None)) }
{
    match planned(plan, number) {
        Some(_) => !is_recorded(nodes, number),
        None => false,
    }
}

/// Whether a rule is planned, and its record has another stamp of a path than the seen one.
fn is_changed(nodes: &Nodes, plan: &Plan, number: u32, path: &Path) -> bool
    ensures { IsTrue result ↔ ((rule : RuleValue) × IsPlanned plan.now number rule
        × IsChanged nodes.now number rule path.now) }
{
    match planned(plan, number) {
        Some(rule) => has_changed(nodes, number, rule, path),
        None => false,
    }
}

/// Whether a rule has a record, and that has another stamp of a path than the seen one.
fn has_changed(nodes: &Nodes, number: u32, rule: &Rule, path: &Path) -> bool
    ensures { IsTrue result ↔ IsChanged nodes.now number rule.now path.now }
{
    match nodes.run_of(number) {
        Some(last) => has_other(nodes, rule, last, path),
        None => false,
    }
}

/// Whether a record has another stamp of a path than the seen one.
fn has_other(nodes: &Nodes, rule: &Rule, run: &RunRecord, path: &Path) -> bool
    ensures { IsTrue result ↔ HasOther nodes.now rule.now run.now path.now }
{
    is_other_ask(nodes, rule, run.asks.as_slice(), path)
        || is_other_write(nodes, run.writes.as_slice(), path)
}

/// Whether one of some asks is of a path and was told another stamp than the seen one.
fn is_other_ask(nodes: &Nodes, rule: &Rule, asks: &[(Path, Option<Stamp>)], path: &Path) -> bool
    ensures { IsTrue result ↔ IsOtherAsk nodes.now rule.now asks.now path.now }
{
    for (asked, given) in asks {
        if is_other_at(nodes, rule, asked, *given, path) {
            return true;
        }
    }
    false
}

/// Whether an ask is of this path and was told another stamp than the seen one.
fn is_other_at(nodes: &Nodes, rule: &Rule, asked: &Path, given: Option<Stamp>, path: &Path) -> bool
    ensures other { result ≡ true → (asked.now ≡ path.now) × (writes_in rule.now path.now ≡ false)
        × (given ≢ finite.get nodes.now.seen path.now) }
    ensures same { result ≡ false → asked.now ≡ path.now → writes_in rule.now path.now ≡ false
        → given ≡ finite.get nodes.now.seen path.now }
{
    asked == path && is_other(nodes, rule, path, given)
}

/// Whether one of some files is at a path and was written with another stamp than the seen one.
fn is_other_write(nodes: &Nodes, files: &[(Path, Stamp)], path: &Path) -> bool
    ensures { IsTrue result ↔ IsOtherWrite nodes.now files.now path.now }
{
    for (wrote, given) in files {
        if is_seen_other_at(nodes, wrote, *given, path) {
            return true;
        }
    }
    false
}

/// Whether a file is at this path and was written with another stamp than the seen one.
fn is_seen_other_at(nodes: &Nodes, wrote: &Path, given: Stamp, path: &Path) -> bool
    ensures other { result ≡ true → (wrote.now ≡ path.now)
        × (finite.get nodes.now.seen path.now ≢ Some given) }
    ensures same { result ≡ false → wrote.now ≡ path.now
        → finite.get nodes.now.seen path.now ≡ Some given }
{
    wrote == path && is_seen_other(nodes, path, given)
}

/// Whether a rule is planned and unfinished.
fn is_unfinished(nodes: &Nodes, plan: &Plan, number: u32) -> bool
    ensures { IsTrue result ↔ ((rule : RuleValue) × IsPlanned plan.now number rule
        × IsUnfinished nodes.now plan.now number rule) }
{
    match planned(plan, number) {
        Some(rule) => gives_no_reason(nodes, plan, number, rule),
        None => false,
    }
}

/// Whether a rule has a record that gives no reason to run it.
fn gives_no_reason(nodes: &Nodes, plan: &Plan, number: u32, rule: &Rule) -> bool
    ensures { IsTrue result ↔ IsUnfinished nodes.now plan.now number rule.now }
{
    match nodes.run_of(number) {
        Some(last) => is_idle(nodes, plan, rule, last),
        None => false,
    }
}

/// Whether a record has the seen stamps alone, and none of the paths that it asks gives a reason.
fn is_idle(nodes: &Nodes, plan: &Plan, rule: &Rule, run: &RunRecord) -> bool
    ensures { IsTrue result ↔ (HasSeenStamps nodes.now rule.now run.now
        × GiveNone nodes.now plan.now rule.now run.now.asks) }
{
    is_same(nodes, rule, run) && give_none(nodes, plan, rule, run.asks.as_slice())
}

/// Whether a record has the seen stamps alone.
fn is_same(nodes: &Nodes, rule: &Rule, run: &RunRecord) -> bool
    ensures { IsTrue result ↔ HasSeenStamps nodes.now rule.now run.now }
{
    sees_asks(nodes, rule, run.asks.as_slice()) && sees_files(nodes, run.writes.as_slice())
}

/// Whether each of some asks, of no output of the rule's own, was told the seen stamp.
fn sees_asks(nodes: &Nodes, rule: &Rule, asks: &[(Path, Option<Stamp>)]) -> bool
    ensures { IsTrue result ↔ SeesAsks nodes.now rule.now asks.now }
{
    for (path, given) in asks {
        if is_other(nodes, rule, path, *given) {
            return false;
        }
    }
    true
}

/// Whether each of some files was written with the seen stamp.
fn sees_files(nodes: &Nodes, files: &[(Path, Stamp)]) -> bool
    ensures { IsTrue result ↔ All (λ (file : Names × StampValue).
        finite.get nodes.now.seen file.0 ≡ Some file.1) files.now }
{
    for (path, given) in files {
        if is_seen_other(nodes, path, *given) {
            return false;
        }
    }
    true
}

/// Whether none of some paths that a rule asked gives a reason.
fn give_none(nodes: &Nodes, plan: &Plan, rule: &Rule, asks: &[(Path, Option<Stamp>)]) -> bool
    ensures { IsTrue result ↔ GiveNone nodes.now plan.now rule.now asks.now }
{
    for (path, _) in asks {
        if !gives_none(nodes, plan, rule, path) {
            return false;
        }
    }
    true
}

/// Whether a path that a rule asked gives no reason: each planned rule that makes it has a record, and the rule doesn't
/// declare it.
fn gives_none(nodes: &Nodes, plan: &Plan, rule: &Rule, path: &Path) -> bool
    ensures { IsTrue result ↔ GivesNone nodes.now plan.now rule.now path.now }
{
    let declares = rule.declares(path);
    let rules = plan.rules.as_slice();
    for number in plan.reach.as_slice() {
        if gives_reason(nodes, rules, *number, declares, path) {
            return false;
        }
    }
    true
}

/// Whether the rule of a number gives one that asked this path a reason: it has the path as an output, and it has no record or
/// the other declares the path.
fn gives_reason(nodes: &Nodes, rules: &[Rule], number: u32, declares: bool, path: &Path) -> bool
    ensures { IsTrue result ↔ GivesReason nodes.now rules.now declares path.now number }
{
    writes_at(rules, number, path) && is_reason(nodes, number, declares)
}

/// Whether a rule that makes a path gives one that asked it a reason: it has no record, or the other declares the path.
fn is_reason(nodes: &Nodes, number: u32, declares: bool) -> bool
    ensures { IsTrue result ↔ ((declares ≡ true) ⊎ (finite.get nodes.now.runs number ≡ None)) }
{
    declares || !is_recorded(nodes, number)
}

/// Whether the rule of a number has a path as an output.
fn writes_at(rules: &[Rule], number: u32, path: &Path) -> bool
    ensures { IsTrue result ↔ ((rule : RuleValue) × (slice_get rules.now number ≡ Some rule)
        × (writes_in rule path.now ≡ true)) }
{
    match rule_at(rules, number) {
        Some(rule) => rule.writes(path),
        None => false,
    }
}
