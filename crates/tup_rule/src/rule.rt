//! A rule of a Tupfile, ready to be run.
ghost use Rattle.std.specs.Prelude.{◌≡◌, ◌↔◌, Ok, IsTrue};
ghost use Rattle.tup_path.specs.Gives.{GivesUnless};
ghost use Rattle.tup_rule.specs.Rule.{among};

use crate::fault::RuleFault;
use std::alloc::Global;
use tup_path::{Items, Path, Paths, Text};

/// One command with its folder, the files that it may read and those that it makes.
#[derive(Clone, Drop, PartialEq, Eq)]
pub struct Rule {
    /// The folder in which the command runs.
    pub dir: Path,
    /// The command.
    pub text: Text,
    /// What is printed in the command's place.
    pub display: Option<Text>,
    /// Whether outputs are compared, so that an unchanged one starts nothing.
    pub compare: bool,
    /// The inputs, in the order of the rule line.
    pub inputs: Paths,
    /// The order-only inputs, in the order of the rule line.
    pub order: Paths,
    /// The outputs, extra ones included, in the order of the rule line.
    pub outputs: Paths,
}

/// What a rule is called by.
#[derive(Clone, Debug, Drop, PartialEq, Eq)]
pub struct RuleName {
    /// The folder in which the command runs.
    pub dir: Path,
    /// The command.
    pub text: Text,
}

/// Rules, in the order of their folders and of their lines.
pub type Rules = Items<Rule>;

impl Rule {
    ghost use Rattle.tup_rule.specs.Rule.{declares, writes, name_of, label_of};
    ghost use Rattle.tup_rule.specs.declared.fault.RuleFault.{RuleFault};

    /// Whether two rules are the same in every field. It takes no memory.
    pub fn same(&self, other: &Rule) -> bool
        ensures { IsTrue result ↔ (self.now ≡ other.now) }
    {
        self == other
    }

    /// Whether a path is an input or an order-only input of the rule. It takes no memory.
    pub fn declares(&self, path: &Path) -> bool
        ensures { result ≡ declares self.now path.now }
    {
        has(&self.inputs, path) || has(&self.order, path)
    }

    /// Whether a path is an output of the rule. It takes no memory.
    pub fn writes(&self, path: &Path) -> bool
        ensures { result ≡ writes self.now path.now }
    {
        has(&self.outputs, path)
    }

    /// The rule's folder and its command, copied.
    pub fn name(&self, alloc: Global) -> Result<RuleName, RuleFault>
        ensures { GivesUnless result RuleFault.Memory (Ok (name_of self.now)) }
    {
        Ok(RuleName {
            dir: self.dir.copy(alloc).map_err(|_| RuleFault::Memory)?,
            text: Text::from_str(alloc, self.text.as_str())?,
        })
    }

    /// What is printed for the rule, copied: its display text, or its command where there is none.
    pub fn label(&self, alloc: Global) -> Result<Text, RuleFault>
        ensures { GivesUnless result RuleFault.Memory (Ok (label_of self.now)) }
    {
        let label = self.display.as_ref().unwrap_or(&self.text);
        Ok(Text::from_str(alloc, label.as_str())?)
    }
}

fn has(paths: &Paths, path: &Path) -> bool
    ensures { result ≡ among path.now paths.now }
{
    paths.as_slice().iter().any(|one| path == one)
}
