//! The rules of drafts.
ghost use Rattle.std.specs.Prelude.{◌≡◌, ◌^◌, ◌<◌, map, IfOk};
ghost use Rattle.tup_link.specs.Faults.{Tells, too_many_links};
ghost use Rattle.tup_link.specs.Faults as faults;
ghost use Rattle.tup_link.specs.Groups.{listed};
ghost use Rattle.tup_link.specs.Linked as specs;
ghost use Rattle.tup_link.specs.Linked.{with_paths};
ghost use Rattle.std.specs.List.{flat_map};

use crate::fault::{LinkFault, What};
use crate::limits::MAX_LINKS;
use crate::order::order_of;
use crate::placed::Placed;
use crate::texts::{display_of, text_of};
use std::alloc::{AllocError, Global};
use tup_macro::Groups;
use tup_path::{Items, Paths, Text};
use tup_rule::{Draft, Rule, Rules};

/// The rules of drafts, as long as they don't declare too many paths.
pub(crate) fn rules(alloc: Global, groups: &Groups, all: &[Placed]) -> Result<Rules, LinkFault>
    ensures rules { IfOk result (λ rules. rules
        ≡ map (specs.rule_of (listed groups.now)) all.now) }
    ensures fault { Tells
        (too_many_links 0 (map (specs.rule_of (listed groups.now)) all.now)) result }
{
    let mut rules = Items::new(alloc);
    let mut count: u64 = 0;
    for one in all {
        let rule = rule_of(alloc, groups, one)?;
        count += links(&rule);
        rules.push(rule)?;
        few_links(count)?;
    }
    Ok(rules)
}

/// Whether so many declared paths are few enough.
fn few_links(count: u64) -> Result<(), LinkFault>
    ensures { Tells (faults.too_many What.Links 4194304 count) result }
{
    if count > MAX_LINKS {
        return Err(LinkFault::TooMany {
            what: What::Links,
            number: count,
        });
    }
    Ok(())
}

/// How many paths a rule declares.
fn links(rule: &Rule) -> u64
    ensures count { result ≡ faults.links rule.now }
    ensures short { result < 2 ^ 63 }
{
    rule.inputs.as_slice().len() as u64 + rule.order.as_slice().len() as u64
}

/// The rule of a draft.
fn rule_of(alloc: Global, groups: &Groups, one: &Placed) -> Result<Rule, AllocError>
    ensures { IfOk result (λ rule. rule ≡ specs.rule_of (listed groups.now) one.now) }
{
    let (text, display) = texts(alloc, groups, one)?;
    let (inputs, order, outputs) = paths(alloc, groups, one.draft())?;
    Ok(Rule {
        dir: one.dir().clone()?,
        text,
        display,
        compare: one.draft().compare,
        inputs,
        order,
        outputs,
    })
}

/// The command and the display text of a draft.
fn texts(alloc: Global, groups: &Groups, one: &Placed) -> Result<(Text, Option<Text>), AllocError>
    ensures text { IfOk result (λ texts. texts.0
        ≡ (specs.rule_of (listed groups.now) one.now).text) }
    ensures display { IfOk result (λ texts. texts.1
        ≡ (specs.rule_of (listed groups.now) one.now).display) }
{
    let (dir, draft) = (one.dir(), one.draft());
    let taken = draft.groups.as_slice();
    let text = text_of(alloc, groups, dir, taken, draft.pieces.as_slice())?;
    let display = display_of(alloc, groups, dir, taken, &draft.display)?;
    Ok((text, display))
}

/// The inputs, the order-only inputs and the outputs of a draft.
fn paths(alloc: Global, groups: &Groups, draft: &Draft) -> Result<(Paths, Paths, Paths), AllocError>
    ensures inputs { IfOk result (λ paths. paths.0 ≡ draft.now.inputs) }
    ensures order { IfOk result (λ paths. paths.1
        ≡ with_paths draft.now.order (flat_map (listed groups.now) draft.now.groups)) }
    ensures outputs { IfOk result (λ paths. paths.2 ≡ draft.now.outputs) }
{
    let order = order_of(alloc, groups, draft.groups.as_slice(), &draft.order)?;
    Ok((draft.inputs.clone()?, order, draft.outputs.clone()?))
}
