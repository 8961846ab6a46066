//! What a rule declares, as its command asks for it.
ghost use Rattle.std.specs.Prelude.{◌≡◌, ◌||◌, IfOk, OnOk};
ghost use Rattle.std.specs.BTreeSet.{contains};
ghost use Rattle.tup_path.specs.Name.{Names};
ghost use Rattle.tup_path.specs.Order.{by_names};
ghost use Rattle.tup_rule.specs.Rule.{among, declares};
ghost use Rattle.tup_rule.specs.declared.rule.Rule.{Rule as RuleValue};
ghost use Rattle.tup_access.specs.Inputs.{AreInputs};

use std::alloc::{AllocError, Global};
use std::collections::BTreeSet;
use tup_path::Path;
use tup_rule::Rule;

/// So many paths are compared one after another.
const FEW: usize = 16;

/// What a rule declares: as a set, where that is more than a few paths. So an ask of a command with thousands of inputs
/// doesn't go over all of them.
#[derive(Drop)]
pub struct Inputs {
    many: Option<BTreeSet<Path>>,
}

impl Inputs {
    /// Those of any rule, which are compared one after another; it takes no memory.
    pub fn few() -> Inputs
        ensures { (rule : RuleValue) → AreInputs rule result }
    {
        Inputs { many: None }
    }

    /// Those of a rule. It takes memory where they are many.
    pub fn of(alloc: Global, rule: &Rule) -> Result<Inputs, AllocError>
        ensures { IfOk result (AreInputs rule.now) }
    {
        if rule.inputs.len() <= FEW && rule.order.len() <= FEW {
            return Ok(Inputs::few());
        }
        let set = declared(alloc, rule)?;
        Ok(Inputs { many: Some(set) })
    }

    /// Whether the rule declares a path.
    pub(crate) fn declare(&self, rule: &Rule, path: &Path) -> bool
        ensures { AreInputs rule.now self.now → result ≡ declares rule.now path.now }
    {
        match &self.many {
            Some(paths) => paths.contains(path),
            None => rule.declares(path),
        }
    }
}

/// The paths that a rule declares.
fn declared(alloc: Global, rule: &Rule) -> Result<BTreeSet<Path>, AllocError>
    ensures { IfOk result (λ set. (path : Names)
        → contains by_names set path ≡ declares rule.now path) }
{
    let mut set = BTreeSet::new(alloc);
    add_paths(&mut set, rule.inputs.as_slice())?;
    add_paths(&mut set, rule.order.as_slice())?;
    Ok(set)
}

/// Adds paths to a set.
pub fn add_paths(set: &mut BTreeSet<Path>, paths: &[Path]) -> Result<(), AllocError>
    ensures { OnOk result ((path : Names) → contains by_names set.new path
        ≡ (contains by_names set.old path || among path paths.now)) }
{
    for path in paths {
        set.insert(path.clone()?)?;
    }
    Ok(())
}
