//! The names of the rules that were begun.
ghost use Rattle.std.specs.Prelude.{◌≡◌, ℕ, IfOk, Contains, option_map, slice_get};
ghost use Rattle.std.specs.BTreeMap.{get};
ghost use Rattle.std.specs.Ordering.{nat_cmp};
ghost use Rattle.tup_rule.specs.Rule.{name_of as name_in};
ghost use Rattle.tup_core.specs.Sound.{IsInRange};
ghost use Rattle.tup_update.specs.Names.{AreNamesOf};

use crate::by_rule::ByRule;
use std::alloc::{AllocError, Global};
use std::collections::BTreeMap;
use tup_core::Plan;
use tup_rule::{Rule, RuleName};

/// The names of the rules that a plan has to run.
pub(crate) fn names_of(alloc: Global, plan: &Plan) -> Result<ByRule<RuleName>, AllocError>
    requires { IsInRange plan.now }
    ensures { IfOk result (AreNamesOf plan.now) }
{
    let waiting = waiting(alloc, plan)?;
    ByRule::of(alloc, waiting)
}

/// The same by their numbers.
fn waiting(alloc: Global, plan: &Plan) -> Result<BTreeMap<u32, RuleName>, AllocError>
    requires { IsInRange plan.now }
    ensures { IfOk result (λ names. (number : ℕ) → Contains plan.now.reach number
        → get nat_cmp names number ≡ option_map name_in (slice_get plan.now.rules number)) }
{
    let rules = plan.rules.as_slice();
    let mut names = BTreeMap::new(alloc);
    for number in plan.reach.as_slice() {
        names.insert(*number, name_of(alloc, &rules[*number as usize])?)?;
    }
    Ok(names)
}

/// The name of a rule, copied.
pub(crate) fn name_of(alloc: Global, rule: &Rule) -> Result<RuleName, AllocError>
    ensures { IfOk result (λ name. name ≡ name_in rule.now) }
{
    match rule.name(alloc) {
        Ok(name) => Ok(name),
        Err(_) => Err(AllocError),
    }
}
