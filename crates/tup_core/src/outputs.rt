//! The outputs of all rules, as a core knows them when a command asks.
ghost use Rattle.std.specs.Prelude.{◌≡◌, List, Ok};
ghost use Rattle.tup_path.specs.Gives.{GivesUnless};
ghost use Rattle.tup_rule.specs.declared.rule.Rule.{Rule as RuleValue};
ghost use Rattle.tup_rule.specs.Rule.{is_generated};
ghost use Rattle.tup_access.specs.Access.{access as access_of, may_read as may_read_of};
ghost use Rattle.tup_access.specs.Inputs.{AreInputs};
ghost use Rattle.tup_core.specs.Outputs.{AreOutputs, access_to_path};

use crate::plan::Plan;
use std::alloc::Global;
use std::collections::BTreeSet;
use tup_access::{Access, AccessFault, Inputs, Verdict, allowed};
use tup_clean::generated;
use tup_path::{Path, Text};
use tup_rule::Rule;

/// From so many asks on, the set of all outputs is made.
const FEW: usize = 16;

/// The outputs of all rules. Where rules are many, the set of their outputs takes longer than the update of a few. So it is
/// made only once there were more than a few asks.
#[derive(Drop)]
pub(crate) struct Outputs {
    set: Option<BTreeSet<Path>>,
    /// The asks that came, and one for each rule to be run, as it will ask something. From `FEW` on they aren't counted.
    asks: usize,
}

impl Outputs {
    /// Those of a plan's rules, before the first ask; it takes no memory.
    pub(crate) fn of(plan: &Plan) -> Outputs
        ensures { (rules : List RuleValue) → AreOutputs rules result }
    {
        Outputs {
            set: None,
            asks: plan.reach.len(),
        }
    }

    /// Counts one more ask. If there were few before it, that is all; else the set of the outputs of these rules is made. Where
    /// memory is wanting the next ask tries again.
    pub(crate) fn note_ask(&mut self, alloc: Global, rules: &[Rule])
        ensures { AreOutputs rules.now self.old → AreOutputs rules.now self.new }
    {
        if self.asks < FEW {
            self.asks += 1;
            return;
        }
        if self.set.is_none() {
            self.set = generated(alloc, rules).ok();
        }
    }

    /// Whether the command of one of these rules may ask for a text, after so many asks. `inputs` is what the rule declares.
    pub(crate) fn access(
        &self,
        alloc: Global,
        rules: &[Rule],
        rule: &Rule,
        inputs: &Inputs,
        text: &Text,
        asked: u32,
    ) -> Result<Access, AccessFault>
        ensures { AreOutputs rules.now self.now → AreInputs rule.now inputs.now
            → GivesUnless result AccessFault.Memory
            (Ok (access_of rules.now rule.now asked text.now)) }
    {
        match &self.set {
            Some(set) => allowed(alloc, rule, inputs, set, text, asked),
            None => access_among(alloc, rules, rule, text, asked),
        }
    }
}

/// The same without a set: all rules are looked through.
fn access_among(
    alloc: Global,
    rules: &[Rule],
    rule: &Rule,
    text: &Text,
    asked: u32,
) -> Result<Access, AccessFault>
    ensures { GivesUnless result AccessFault.Memory
        (Ok (access_of rules.now rule.now asked text.now)) }
{
    // as if no rule made anything
    let none = BTreeSet::new(alloc);
    let few = Inputs::few();
    match allowed(alloc, rule, &few, &none, text, asked)? {
        Access::Yes(path) => access_to(rules, rule, text, path),
        Access::No(verdict) => Ok(Access::No(verdict)),
    }
}

/// Whether it may ask for a text that names this path, and wasn't asked too often.
fn access_to(rules: &[Rule], rule: &Rule, text: &Text, path: Path) -> Result<Access, AccessFault>
    ensures { GivesUnless result AccessFault.Memory
        (Ok (access_to_path rules.now rule.now text.now path)) }
{
    if may_read(rules, rule, &path) {
        return Ok(Access::Yes(path));
    }
    Ok(Access::No(Verdict::IllegalRead(text.clone()?)))
}

/// Whether a rule may read a path. The other rules are looked through only where it neither declares nor writes the path.
fn may_read(rules: &[Rule], rule: &Rule, path: &Path) -> bool
    ensures { result ≡ may_read_of rules.now rule.now path.now }
{
    rule.declares(path) || rule.writes(path) || !is_output(rules, path)
}

/// Whether a path is an output of one of these rules.
fn is_output(rules: &[Rule], path: &Path) -> bool
    ensures { result ≡ is_generated rules.now path.now }
{
    for rule in rules {
        if rule.writes(path) {
            return true;
        }
    }
    false
}
