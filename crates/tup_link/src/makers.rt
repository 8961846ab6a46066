//! For which rules each rule waits.
ghost use Rattle.std.specs.Prelude.{◌≡◌, IfOk};
ghost use Rattle.tup_link.specs.Makers.{all_producers};

use crate::places::Places;
use std::alloc::{AllocError, Global};
use tup_path::Items;
use tup_rule::{Rule, makers, producers_of};

/// For each rule, the makers of the paths that it declares.
pub(crate) fn producers(alloc: Global, rules: &[Rule]) -> Result<Vec<Places>, AllocError>
    ensures { IfOk result (λ all. all.items ≡ all_producers rules.now) }
{
    let makers = makers(alloc, rules)?;
    let mut all = Vec::new(alloc);
    for rule in rules {
        all.push(Items::from_vec(producers_of(alloc, &makers, rule)?))?;
    }
    Ok(all)
}
