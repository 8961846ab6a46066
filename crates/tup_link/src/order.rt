//! Order-only inputs with the members of groups behind them.
ghost use Rattle.std.specs.Prelude.{◌≡◌, IfOk, OnOk};
ghost use Rattle.std.specs.List.{flat_map};
ghost use Rattle.tup_link.specs.Groups.{listed};
ghost use Rattle.tup_link.specs.Known.{Knows};
ghost use Rattle.tup_link.specs.Linked.{with_path, with_paths};

use std::alloc::{AllocError, Global};
use std::collections::BTreeSet;
use tup_macro::Groups;
use tup_path::{Path, Paths};
use tup_rule::GroupRef;

/// Some paths, with those behind them that groups have and that aren't there yet.
pub(crate) fn order_of(
    alloc: Global,
    groups: &Groups,
    taken: &[GroupRef],
    order: &Paths,
) -> Result<Paths, AllocError>
    ensures { IfOk result (λ paths. paths
        ≡ with_paths order.now (flat_map (listed groups.now) taken.now)) }
{
    let copy = order.clone()?;
    if taken.is_empty() {
        return Ok(copy);
    }
    let mut all = Distinct::new(alloc, copy)?;
    for group in taken {
        all.add_group(groups, group)?;
    }
    Ok(all.paths)
}

/// Paths in the order in which they came, and the set of them.
#[derive(Drop)]
struct Distinct {
    paths: Paths,
    known: BTreeSet<Path>,
}

impl Distinct {
    /// Takes some paths over.
    fn new(alloc: Global, paths: Paths) -> Result<Distinct, AllocError>
        ensures paths { IfOk result (λ all. all.paths ≡ paths) }
        ensures known { IfOk result (λ all. Knows all.known all.paths) }
    {
        let known = known(alloc, paths.as_slice())?;
        Ok(Distinct { paths, known })
    }

    /// Adds what a group has and isn't there yet.
    fn add_group(&mut self, groups: &Groups, group: &GroupRef) -> Result<(), AllocError>
        requires { Knows self.old.known self.old.paths }
        ensures paths { OnOk result (self.new.paths
            ≡ with_paths self.old.paths (listed groups.now group.now)) }
        ensures known { OnOk result (Knows self.new.known self.new.paths) }
    {
        match groups.get(group) {
            Some(members) => self.add_all(members),
            None => Ok(()),
        }
    }

    /// Adds the paths that aren't there yet.
    fn add_all(&mut self, paths: &BTreeSet<Path>) -> Result<(), AllocError>
        requires { Knows self.old.known self.old.paths }
        ensures paths { OnOk result (self.new.paths ≡ with_paths self.old.paths paths.now.keys) }
        ensures known { OnOk result (Knows self.new.known self.new.paths) }
    {
        for path in paths {
            self.add(path)?;
        }
        Ok(())
    }

    /// Adds a path, unless it is there.
    fn add(&mut self, path: &Path) -> Result<(), AllocError>
        requires { Knows self.old.known self.old.paths }
        ensures paths { OnOk result (self.new.paths ≡ with_path self.old.paths path.now) }
        ensures known { OnOk result (Knows self.new.known self.new.paths) }
    {
        if self.known.insert(path.clone()?)? {
            self.paths.push(path.clone()?)?;
        }
        Ok(())
    }
}

/// The set of some paths.
fn known(alloc: Global, paths: &[Path]) -> Result<BTreeSet<Path>, AllocError>
    ensures { IfOk result (λ known. Knows known paths.now) }
{
    let mut known = BTreeSet::new(alloc);
    for path in paths {
        known.insert(path.clone()?)?;
    }
    Ok(known)
}
