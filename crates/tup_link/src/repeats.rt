//! Commands that stand twice in a folder.
ghost use Rattle.std.specs.Prelude.{◌≡◌, IfOk, length};
ghost use Rattle.tup_link.specs.Faults as specs;
ghost use Rattle.tup_link.specs.Faults.{Tells, duplicate};

use crate::fault::LinkFault;
use crate::placed::Placed;
use std::alloc::{AllocError, Global};
use std::collections::BTreeSet;
use tup_rule::Rule;

/// Whether no rule has the command of an earlier one of its folder.
pub(crate) fn no_repeat(alloc: Global, all: &[Placed], rules: &[Rule]) -> Result<(), LinkFault>
    requires { length all.now ≡ length rules.now }
    ensures { Tells (duplicate all.now rules.now) result }
{
    let mut known = BTreeSet::new(alloc);
    for (at, rule) in rules.iter().enumerate() {
        if !known.insert((rule.dir.clone()?, rule.text.clone()?))? {
            return Err(twice(&all[at])?);
        }
    }
    Ok(())
}

/// The fault at the later one of two rules with one command.
fn twice(one: &Placed) -> Result<LinkFault, AllocError>
    ensures { IfOk result (λ fault. fault ≡ specs.twice one.now) }
{
    Ok(LinkFault::DuplicateCommand {
        dir: one.dir().clone()?,
        file: one.draft().file.clone()?,
        line: one.draft().line,
    })
}
