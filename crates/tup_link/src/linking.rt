//! The rules of a project.
ghost use Rattle.std.specs.Prelude.{◌≡◌, None, map, IfOk, IfErr, OnOk};
ghost use Rattle.tup_link.specs.Circle.{NoneWaitsForItself};
ghost use Rattle.tup_link.specs.Faults.{Tells, HasCause, early_fault, fault_in, fault_of_groups, fault_of_rules};
ghost use Rattle.tup_link.specs.Groups.{listed};
ghost use Rattle.tup_link.specs.Linked as specs;

use crate::circle::no_circle;
use crate::fault::LinkFault;
use crate::groups::groups;
use crate::limits::few_commands;
use crate::missing::all_given;
use crate::placed::{Placed, all_placed};
use crate::repeats::no_repeat;
use crate::rules::rules;
use std::alloc::Global;
use tup_macro::Groups;
use tup_path::Path;
use tup_rule::{Reading, Rules};

/// The rules that the readings of all folders come to, in the order of the readings and of their drafts. In each
/// command the members of a group stand where it is named, and they stand at the end of the order-only inputs.
///
/// Refusals are looked for in this order: `TooMany` commands, `NoSuchGroup` for the first group that a draft
/// takes and none gives to, `TooMany` declared inputs, counted rule by rule until there are too many,
/// `DuplicateCommand` for the first rule with the command of an earlier one of its folder, and
/// `CircularCommands`. A `Memory` may come at any time. Nothing is kept of a refused call.
pub fn link(alloc: Global, readings: &[(Path, Reading)]) -> Result<Rules, LinkFault>
    ensures rules { IfOk result (λ rules. rules ≡ specs.rules_of readings.now) }
    ensures early { OnOk result (early_fault readings.now ≡ None) }
    ensures order { IfOk result NoneWaitsForItself }
    ensures cause { IfErr result (HasCause readings.now) }
{
    let all = all_placed(alloc, readings)?;
    let rules = linked(alloc, &all)?;
    no_circle(alloc, rules.as_slice())?;
    Ok(rules)
}

/// The rules of drafts, circles aside.
fn linked(alloc: Global, all: &[Placed]) -> Result<Rules, LinkFault>
    ensures rules { IfOk result (λ rules. rules ≡ specs.rules_in all.now) }
    ensures fault { Tells (fault_in all.now) result }
{
    few_commands(all.len())?;
    grouped(alloc, all)
}

/// The rules of drafts, if each group that they take has a member.
fn grouped(alloc: Global, all: &[Placed]) -> Result<Rules, LinkFault>
    ensures rules { IfOk result (λ rules. rules ≡ specs.rules_in all.now) }
    ensures fault { Tells (fault_of_groups all.now) result }
{
    let groups = groups(alloc, all)?;
    all_given(&groups, all)?;
    ruled(alloc, &groups, all)
}

/// The rules of drafts, where this is what their groups have.
fn ruled(alloc: Global, groups: &Groups, all: &[Placed]) -> Result<Rules, LinkFault>
    ensures rules { IfOk result (λ rules. rules
        ≡ map (specs.rule_of (listed groups.now)) all.now) }
    ensures fault { Tells
        (fault_of_rules all.now (map (specs.rule_of (listed groups.now)) all.now)) result }
{
    let rules = rules(alloc, groups, all)?;
    no_repeat(alloc, all, rules.as_slice())?;
    Ok(rules)
}
