//! What input words give.
ghost use Rattle.std.specs.Prelude.{◌≡◌, ◌++◌, IfOk, OnOk};
ghost use Rattle.tup_rule_line.specs.Found as specs;

use std::alloc::{AllocError, Global};
use tup_path::{Items, Path, Paths, Text};
use tup_rule::{GroupRef, GroupRefs};

/// An input, and what the first operator of a glob matched where a glob gave it.
#[derive(Drop)]
pub(crate) struct Input {
    pub(crate) path: Path,
    pub(crate) glob: Option<Text>,
}

/// A list of inputs.
pub(crate) type Inputs = Items<Input>;

/// What words give: files, each at its first place, and groups.
#[derive(Drop)]
pub(crate) struct Found {
    pub(crate) inputs: Inputs,
    pub(crate) groups: GroupRefs,
}

impl Found {
    /// Nothing was found yet.
    pub(crate) fn new(alloc: Global) -> Found
        ensures { result ≡ specs.nothing_found }
    {
        Found {
            inputs: Items::new(alloc),
            groups: Items::new(alloc),
        }
    }

    /// Files alone.
    pub(crate) fn inputs_alone(alloc: Global, inputs: Inputs) -> Found
        ensures { result ≡ specs.inputs_alone inputs }
    {
        Found {
            inputs,
            groups: Items::new(alloc),
        }
    }

    /// A file alone.
    pub(crate) fn one_input(alloc: Global, path: Path) -> Result<Found, AllocError>
        ensures { IfOk result (λ found. found ≡ specs.one_input path) }
    {
        let mut inputs = Items::new(alloc);
        inputs.push(Input { path, glob: None })?;
        Ok(Found::inputs_alone(alloc, inputs))
    }

    /// A group alone.
    pub(crate) fn one_group(alloc: Global, group: GroupRef) -> Result<Found, AllocError>
        ensures { IfOk result (λ found. found ≡ specs.one_group group) }
    {
        let mut groups = Items::new(alloc);
        groups.push(group)?;
        Ok(Found {
            inputs: Items::new(alloc),
            groups,
        })
    }
}

/// Adds groups at the end.
pub(crate) fn add_groups(groups: &mut GroupRefs, more: GroupRefs) -> Result<(), AllocError>
    ensures { OnOk result (groups.new ≡ groups.old ++ more) }
{
    for group in more.into_vec() {
        groups.push(group)?;
    }
    Ok(())
}
