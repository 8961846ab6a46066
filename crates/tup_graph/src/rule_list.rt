//! The rules of a graph, which plans share.
ghost use Rattle.std.specs.Prelude.{◌≡◌, ◌++◌, ◌∷◌, [], length, take, None, IfOk, OnOk};
ghost use Rattle.tup_graph.specs.RuleList.{rules_in};

use crate::editing::first;
use std::alloc::{AllocError, Global};
use std::marker::Model;
use std::mem;
use tup_path::Shared;
use tup_rule::{Rule, Rules};

/// Rules in their order. They are the list's own until `share`, which copies none. Shared ones are copied for the next change,
/// and are the list's own again from then on: so they are copied once at most between two calls of `share`, whatever the number
/// of changes. Contracts see the list itself.
#[derive(Drop)]
pub(crate) struct RuleList {
    alloc: Global,
    /// The rules, unless they are in `shared`.
    own: Rules,
    shared: Option<Shared<Rule>>,
}

impl Model for RuleList {
    ghost use Rattle.std.specs.Prelude.{List};
    ghost use Rattle.std.specs.Coded.{coded_list};
    ghost use Rattle.tup_rule.specs.contracts.rule.Rule as of_rule;
    ghost use Rattle.tup_rule.specs.declared.rule.Rule.{Rule};
    ghost use Rattle.tup_graph.specs.RuleList.{rules_in};

    ghost Value = { List Rule };

    ghost coded = { coded_list of_rule.the_row.coded };

    ghost view = { λ l. rules_in l.shared l.own };
}

impl RuleList {
    /// No rules; it takes no memory.
    pub(crate) fn new(alloc: Global) -> RuleList
        ensures { result ≡ [] }
    {
        RuleList {
            alloc,
            own: Rules::new(alloc),
            shared: None,
        }
    }

    pub(crate) fn as_slice(&self) -> &[Rule]
        ensures { result.now ≡ self.now }
    {
        match &self.shared {
            Some(rules) => rules.as_slice(),
            None => self.own.as_slice(),
        }
    }

    pub(crate) fn len(&self) -> usize
        ensures { result ≡ length self.now }
    {
        self.as_slice().len()
    }

    /// Adds a rule at the end. After a refusal the list is of no use.
    pub(crate) fn push(&mut self, rule: Rule) -> Result<(), AllocError>
        ensures { OnOk result (self.new ≡ self.old ++ rule ∷ []) }
    {
        let mut rules = taken(self.alloc, &mut self.own, &mut self.shared)?;
        rules.push(rule)?;
        self.own = rules;
        Ok(())
    }

    /// Leaves so many of the first rules. After a refusal the list is of no use.
    pub(crate) fn cut(&mut self, count: usize) -> Result<(), AllocError>
        ensures { OnOk result (self.new ≡ take count self.old) }
    {
        let rules = taken(self.alloc, &mut self.own, &mut self.shared)?;
        self.own = first(rules, count);
        Ok(())
    }

    /// From now on the rules are shared, until the next change. None is copied. After a refusal the list is of no use.
    pub(crate) fn share(&mut self) -> Result<(), AllocError>
        ensures { OnOk result (self.new ≡ self.old) }
    {
        if self.shared.is_some() {
            return Ok(());
        }
        let rules = taken(self.alloc, &mut self.own, &mut self.shared)?;
        self.shared = Some(Shared::new(rules)?);
        Ok(())
    }

    /// The same rules. They are copied where they aren't shared.
    pub(crate) fn shared(&self) -> Result<Shared<Rule>, AllocError>
        ensures { IfOk result (λ rules. rules ≡ self.now) }
    {
        match &self.shared {
            Some(rules) => rules.clone(),
            None => Shared::new(copies(self.alloc, self.own.as_slice())?),
        }
    }
}

/// The rules of a list, which has none then. Shared ones are copied.
fn taken(
    alloc: Global,
    own: &mut Rules,
    shared: &mut Option<Shared<Rule>>,
) -> Result<Rules, AllocError>
    ensures rules { IfOk result (λ rules. rules ≡ rules_in shared.old own.old) }
    ensures none { shared.new ≡ None }
{
    match shared.take() {
        Some(rules) => copies(alloc, rules.as_slice()),
        None => Ok(mem::replace(own, Rules::new(alloc))),
    }
}

/// The same rules again.
fn copies(alloc: Global, rules: &[Rule]) -> Result<Rules, AllocError>
    ensures { IfOk result (λ copies. copies ≡ rules.now) }
{
    let mut copies = Rules::with_room(alloc, rules.len())?;
    for rule in rules {
        copies.push(rule.clone()?)?;
    }
    Ok(copies)
}
