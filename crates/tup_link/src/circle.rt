//! Rules that wait for each other.
ghost use Rattle.std.specs.Prelude.{◌≡◌, ◌⊎◌, ℕ, List, ◌<◌, ◌++◌, ◌∷◌, [], length, IfOk, IfErr, OnOk};
ghost use Rattle.tup_rule.specs.Rule.{name_of};
ghost use Rattle.tup_link.specs.Circle.{NoneWaitsForItself, names_at};
ghost use Rattle.tup_link.specs.Faults.{IsCircular};
ghost use Rattle.tup_link.specs.Walk.{IsTurned};

use crate::fault::{LinkFault, RuleNames};
use crate::makers::producers;
use crate::places::{Places, add_all, index_of_least};
use crate::walk::way_round;
use std::alloc::{AllocError, Global};
use tup_path::Items;
use tup_rule::{Rule, RuleName};

/// Whether no rule waits for itself. Else the fault names rules that wait for each other in a circle.
pub(crate) fn no_circle(alloc: Global, rules: &[Rule]) -> Result<(), LinkFault>
    ensures none { OnOk result (NoneWaitsForItself rules.now) }
    ensures fault { IfErr result (λ fault.
        (fault ≡ LinkFault.Memory) ⊎ IsCircular rules.now fault) }
{
    let graph = producers(alloc, rules)?;
    match way_round(alloc, &graph)? {
        Some(round) => Err(circular(alloc, rules, round.as_slice())?),
        None => Ok(()),
    }
}

/// The fault of rules at these places, which wait for each other.
fn circular(alloc: Global, rules: &[Rule], round: &[usize]) -> Result<LinkFault, AllocError>
    requires { 0 < length round.now }
    ensures { IfOk result (λ fault. (places : List ℕ) × IsTurned round.now places
        × (fault ≡ LinkFault.CircularCommands (names_at rules.now places))) }
{
    let places = from_least(alloc, round)?;
    Ok(LinkFault::CircularCommands(names(alloc, rules, places.as_slice())?))
}

/// The places of a circle from the least one on.
fn from_least(alloc: Global, circle: &[usize]) -> Result<Places, AllocError>
    requires { 0 < length circle.now }
    ensures { IfOk result (λ turned. IsTurned circle.now turned) }
{
    let at = index_of_least(circle);
    let mut turned = Items::new(alloc);
    add_all(&mut turned, &circle[at..])?;
    add_all(&mut turned, &circle[..at])?;
    Ok(turned)
}

/// The names of the rules at these places.
fn names(alloc: Global, rules: &[Rule], places: &[usize]) -> Result<RuleNames, AllocError>
    ensures { IfOk result (λ names. names ≡ names_at rules.now places.now) }
{
    let mut names = Items::new(alloc);
    for at in places {
        add_name(alloc, &mut names, rules, *at)?;
    }
    Ok(names)
}

/// Adds the name of the rule at a place.
fn add_name(
    alloc: Global,
    names: &mut RuleNames,
    rules: &[Rule],
    at: usize,
) -> Result<(), AllocError>
    ensures { OnOk result (names.new ≡ names.old ++ names_at rules.now (at ∷ [])) }
{
    match rules.get(at) {
        Some(rule) => add(names, name(alloc, rule)?),
        None => Ok(()),
    }
}

/// Adds a name.
fn add(names: &mut RuleNames, name: RuleName) -> Result<(), AllocError>
    ensures { OnOk result (names.new ≡ names.old ++ name ∷ []) }
{
    names.push(name)?;
    Ok(())
}

/// The name of a rule.
fn name(alloc: Global, rule: &Rule) -> Result<RuleName, AllocError>
    ensures { IfOk result (λ name. name ≡ name_of rule.now) }
{
    match rule.name(alloc) {
        Ok(name) => Ok(name),
        Err(_) => Err(AllocError),
    }
}
