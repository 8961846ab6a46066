//! Which rule makes a path, and for which rules a rule waits.
ghost use Rattle.std.specs.Prelude.{◌≡◌, ◌++◌, IfOk, OnOk};
ghost use Rattle.tup_rule.specs.Makers.{HasMakers, SetsMaker, makers_in, producers_in};

use crate::rule::Rule;
use std::alloc::{AllocError, Global};
use std::collections::BTreeMap;
use tup_path::Path;

/// The place of the rule that makes a path, for each path that a rule makes.
pub type Makers = BTreeMap<Path, usize>;

/// The makers of all paths: the first rule that has a path as an output.
///
/// The last rule is noted first. The outputs of most projects ascend from rule to rule, and a path that comes before all of a map
/// finds its place there by one comparison in each node.
pub fn makers(alloc: Global, rules: &[Rule]) -> Result<Makers, AllocError>
    ensures { IfOk result (HasMakers rules.now) }
{
    let mut makers = BTreeMap::new(alloc);
    for at in (0..rules.len()).rev() {
        set_maker(&mut makers, rules[at].outputs.as_slice(), at)?;
    }
    Ok(makers)
}

/// Notes a rule as the maker of its outputs, in the place of the rule that was.
fn set_maker(makers: &mut Makers, outputs: &[Path], at: usize) -> Result<(), AllocError>
    ensures { OnOk result (SetsMaker outputs.now at makers.old makers.new) }
{
    for output in outputs {
        makers.insert(output.clone()?, at)?;
    }
    Ok(())
}

/// The makers of the paths that a rule declares, one for each path that has one.
pub fn producers_of(alloc: Global, makers: &Makers, rule: &Rule) -> Result<Vec<usize>, AllocError>
    ensures { IfOk result (λ found. found.items ≡ producers_in makers.now rule.now) }
{
    let mut found = Vec::new(alloc);
    add_makers(&mut found, makers, rule.inputs.as_slice())?;
    add_makers(&mut found, makers, rule.order.as_slice())?;
    Ok(found)
}

/// Adds the makers of some paths, one for each that has one.
fn add_makers(found: &mut Vec<usize>, makers: &Makers, paths: &[Path]) -> Result<(), AllocError>
    ensures { OnOk result (found.new.items ≡ found.old.items ++ makers_in makers.now paths.now) }
{
    for path in paths {
        if let Some(at) = makers.get(path) {
            found.push(*at)?;
        }
    }
    Ok(())
}
