//! The plan that a row gives.
ghost use Rattle.std.specs.Prelude.{◌≡◌, true, length, IfOk};
ghost use Rattle.tup_core.specs.Sound.{HasNear, IsInRange};
ghost use Rattle.tup_core_rows.specs.Places.{AreBelow};

use std::alloc::Global;
use tup_core::{Numbers, Plan};
use tup_path::Shared;
use tup_rows::RowFault;
use tup_rule::{Rule, Rules};

/// The plan of these rules that runs those of a reach. `OtherKind` where a number of the reach is none of a rule.
pub(crate) fn planned(
    alloc: Global,
    rules: &Rules,
    reach: Numbers,
    keep_going: bool,
) -> Result<Plan, RowFault>
    ensures range { IfOk result IsInRange }
    ensures near { IfOk result HasNear }
{
    let plan = Plan {
        near: all_places(alloc, rules.as_slice())?,
        rules: Shared::new(rules.clone()?)?,
        reach,
        keep_going,
    };
    if is_in_range(&plan) {
        Ok(plan)
    } else {
        Err(RowFault::OtherKind)
    }
}

/// The places of all rules, ascending.
fn all_places(alloc: Global, rules: &[Rule]) -> Result<Numbers, RowFault>
    ensures { IfOk result (AreBelow (length rules.now)) }
{
    let Ok(count) = u32::try_from(rules.len()) else {
        return Err(RowFault::Memory);
    };
    let mut places = Numbers::new(alloc);
    for place in 0..count {
        places.push(place)?;
    }
    Ok(places)
}

/// Whether the numbers of the reach are places of rules.
fn is_in_range(plan: &Plan) -> bool
    ensures { result ≡ true → IsInRange plan.now }
{
    for number in plan.reach.as_slice() {
        if *number as usize >= plan.rules.len() {
            return false;
        }
    }
    true
}
