//! Whether no rule names an output twice.
ghost use Rattle.std.specs.Prelude.{◌≡◌, ◌↔◌, IfOk, IsTrue};
ghost use Rattle.std.specs.List.{IsDistinct};
ghost use Rattle.tup_path.specs.Order.{same_path};
ghost use Rattle.tup_apart.specs.Run.{OutputsOnce};

use std::alloc::{AllocError, Global};
use std::collections::BTreeSet;
use tup_path::Path;
use tup_rule::Rule;

pub(crate) fn name_once(alloc: Global, rules: &[Rule]) -> Result<bool, AllocError>
    ensures { IfOk result (λ once. IsTrue once ↔ OutputsOnce rules.now) }
{
    for rule in rules {
        if !are_distinct(alloc, rule.outputs.as_slice())? {
            return Ok(false);
        }
    }
    Ok(true)
}

fn are_distinct(alloc: Global, paths: &[Path]) -> Result<bool, AllocError>
    ensures { IfOk result (λ distinct. IsTrue distinct ↔ IsDistinct same_path paths.now) }
{
    if paths.len() < 2 {
        return Ok(true);
    }
    let mut before = BTreeSet::new(alloc);
    for path in paths {
        if !before.insert(path)? {
            return Ok(false);
        }
    }
    Ok(true)
}
