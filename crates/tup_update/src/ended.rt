//! What became of the commands of an update.
ghost use Rattle.std.specs.Prelude.{◌≡◌, ◌≢◌, ℕ, false, IfOk, IfErr, IfSome, Some, slice_get, slice_set, ◌++◌, [], OnErr, OnOk};
ghost use Rattle.tup_rule.specs.Rule.{label_of, name_of as name_in};
ghost use Rattle.tup_rule.specs.declared.rule.Rule.{Rule as RuleValue};
ghost use Rattle.tup_access.specs.declared.verdict.Verdict.TheVariants.{Good};
ghost use Rattle.tup_clean.specs.Clean.{is_good};
ghost use Rattle.tup_promise.specs.Stopped.{no_memory};
ghost use Rattle.tup_update.specs.Ended.{TellsAll, TellsFor, TellsFront, claimed_by, ends, ends_at, told_ends};
ghost use Rattle.tup_update.specs.Run.{IsBadRule, IsEnd, IsLower, IsLowest, OfBads, StopsBy};

use crate::names::name_of;
use std::alloc::{AllocError, Global};
use tup_access::Verdict;
use tup_board::Drained;
use tup_core::{Cause, CoreEvent, Plan};
use tup_path::Items;
use tup_promise::{EndedRule, Stop};
use tup_rule::Rule;
use tup_site::SiteFailed;

/// How many seats there are.
pub(crate) const SEATS: usize = 16;

/// Why an update stopped that ended so on a board. What became of its commands is added in the order in which they ended, as
/// far as there is memory. Want of it is answered unless something else stopped the update.
pub(crate) fn stopped_by(
    alloc: Global,
    plan: &Plan,
    history: &[CoreEvent],
    drained: Drained,
    ended: &mut Items<EndedRule>,
) -> Option<Stop>
    ensures stops { OfBads plan.now history.now (StopsBy plan.now.rules drained result) }
    ensures tells { let told = told_ends plan.now.rules (ends history.now) in
        TellsFor told ended.old ended.new result }
{
    let told = told(alloc, plan, history, ended);
    match drained {
        Drained::Done | Drained::Left(Cause::Bad) => or_memory(told),
        Drained::Left(Cause::Site) => Some(Stop::Outside(SiteFailed::Fault)),
        Drained::Left(Cause::TooLarge(bytes)) => Some(Stop::Outside(SiteFailed::TooLarge(bytes))),
        Drained::Left(Cause::Full) => Some(Stop::Full),
        Drained::Left(Cause::Run) => Some(Stop::Run),
        Drained::Left(Cause::Memory) => Some(Stop::Outside(SiteFailed::Memory)),
    }
}

/// What was told, or that there was no memory to tell it.
fn or_memory(told: Result<Option<Stop>, AllocError>) -> Option<Stop>
    ensures told { IfOk told (λ stopped. result ≡ stopped) }
    ensures memory { IfErr told (λ _. result ≡ Some no_memory) }
{
    match told {
        Ok(stopped) => stopped,
        Err(failed) => Some(Stop::from(failed)),
    }
}

/// Adds what became of the commands, and gives the stop at the first bad verdict in the order of the rules, where there is one.
fn told(
    alloc: Global,
    plan: &Plan,
    history: &[CoreEvent],
    ended: &mut Items<EndedRule>,
) -> Result<Option<Stop>, AllocError>
    ensures stops { IfOk result (λ stopped.
        OfBads plan.now history.now (λ bad. IsEnd plan.now.rules bad stopped)) }
    ensures front { let told = told_ends plan.now.rules (ends history.now) in
        TellsFront told ended.old ended.new }
    ensures all { let told = told_ends plan.now.rules (ends history.now) in
        OnOk result (TellsAll told ended.old ended.new) }
{
    add_ended(alloc, plan.rules.as_slice(), history, ended)?;
    match first_bad(plan, history) {
        Some(bad) => Ok(Some(Stop::Bad(name_of(alloc, bad.rule)?, bad.verdict.clone()?))),
        None => Ok(None),
    }
}

/// Adds what became of the commands, in the order in which they ended.
fn add_ended(
    alloc: Global,
    rules: &[Rule],
    history: &[CoreEvent],
    ended: &mut Items<EndedRule>,
) -> Result<(), AllocError>
    ensures front { let told = told_ends rules.now (ends history.now) in
        TellsFront told ended.old ended.new }
    ensures all { let told = told_ends rules.now (ends history.now) in
        OnOk result (TellsAll told ended.old ended.new) }
{
    let mut claimed = [None; SEATS];
    for event in history {
        match event {
            CoreEvent::Claim { seat, rule } => claim_at(&mut claimed, *seat, *rule),
            CoreEvent::Finish { seat, verdict, .. } => {
                add_verdict(alloc, rules, claimed_at(&claimed, *seat), verdict, ended)?;
            }
            _ => {}
        }
    }
    Ok(())
}

/// A seat has claimed this rule, of what each seat claimed last.
pub(crate) fn claim_at(claimed: &mut [Option<u32>], seat: u32, rule: u32)
    ensures { claimed.new ≡ slice_set claimed.old seat (Some rule) }
{
    let at = seat as usize;
    if at < claimed.len() {
        claimed[at] = Some(rule);
    }
}

/// What a seat claimed last.
pub(crate) fn claimed_at(claimed: &[Option<u32>], seat: u32) -> Option<u32>
    ensures { result ≡ claimed_by claimed.now seat }
{
    match claimed.get(seat as usize) {
        Some(last) => *last,
        None => None,
    }
}

/// Adds what became of the command of a rule, if there is one.
fn add_verdict(
    alloc: Global,
    rules: &[Rule],
    number: Option<u32>,
    verdict: &Verdict,
    ended: &mut Items<EndedRule>,
) -> Result<(), AllocError>
    ensures ok { OnOk result
        (ended.new ≡ ended.old ++ told_ends rules.now (ends_at number verdict.now [])) }
    ensures err { OnErr result (ended.new ≡ ended.old) }
{
    let Some(at) = number else {
        return Ok(());
    };
    match rules.get(at as usize) {
        Some(rule) => Ok(ended.push(ended_rule(alloc, rule, verdict)?)?),
        None => Ok(()),
    }
}

/// What is told of a rule whose command came to this verdict.
fn ended_rule(alloc: Global, rule: &Rule, verdict: &Verdict) -> Result<EndedRule, AllocError>
    ensures { IfOk result (λ ended. ended
        ≡ record { rule = name_in rule.now; label = label_of rule.now; verdict = verdict.now }) }
{
    let Ok(label) = rule.label(alloc) else {
        return Err(AllocError);
    };
    Ok(EndedRule {
        rule: name_of(alloc, rule)?,
        label,
        verdict: verdict.clone()?,
    })
}

/// A rule whose command came to a bad verdict.
#[derive(Clone, Copy)]
struct BadRule<'a> {
    number: u32,
    rule: &'a Rule,
    verdict: &'a Verdict,
}

/// The first rule in the order of the rules whose command came to a bad verdict.
fn first_bad<'a>(plan: &'a Plan, history: &'a [CoreEvent]) -> Option<BadRule<'a>>
    ensures lowest { OfBads plan.now history.now (λ bad. IsLowest plan.now.rules bad result) }
    ensures bad { IfSome result (λ one. is_good (Some one.verdict.now) ≡ false) }
{
    let rules = plan.rules.as_slice();
    let mut claimed = [None; SEATS];
    let mut first = None;
    for event in history {
        match event {
            CoreEvent::Claim { seat, rule } => claim_at(&mut claimed, *seat, *rule),
            CoreEvent::Finish { seat, verdict, .. } => {
                first = lower(first, bad_at(rules, claimed_at(&claimed, *seat), verdict));
            }
            _ => {}
        }
    }
    first
}

/// The rule with this number, where the verdict is bad.
fn bad_at<'a>(rules: &'a [Rule], number: Option<u32>, verdict: &'a Verdict) -> Option<BadRule<'a>>
    ensures good { verdict.now ≡ Good → result ≡ None }
    ensures bad { verdict.now ≢ Good → (at : ℕ) (rule : RuleValue) → number ≡ Some at
        → slice_get rules.now at ≡ Some rule → IsBadRule at rule verdict.now result }
    ensures is_bad { IfSome result (λ one. is_good (Some one.verdict.now) ≡ false) }
{
    match verdict {
        Verdict::Good => None,
        _ => {
            let number = number?;
            let rule = rules.get(number as usize)?;
            Some(BadRule {
                number,
                rule,
                verdict,
            })
        }
    }
}

/// That of two rules which comes first, and of one rule its later verdict.
fn lower<'a>(first: Option<BadRule<'a>>, other: Option<BadRule<'a>>) -> Option<BadRule<'a>>
    ensures { IsLower first.entry other.entry result }
{
    match (first, other) {
        (Some(first), Some(other)) if other.number <= first.number => Some(other),
        (None, other) => other,
        (first, _) => first,
    }
}
