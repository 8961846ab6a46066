//! Where the machine of an update begins.
ghost use Rattle.std.specs.Prelude.{IfOk};
ghost use Rattle.tup_core_rows.specs.Machine.{IsOfPlan};

use crate::machine::Machine;
use crate::plan::planned;
use std::alloc::{AllocError, Global};
use tup_core::{Numbers, Stamps};
use tup_given::Project;
use tup_path::{ByPath, Files, Items};
use tup_rows::{RowFault, Words};
use tup_stamp::{Stamp, stamp_of};

/// A core where the rules of a reach are to be run. `OtherKind` where a number of the reach is
/// none of a rule.
pub(crate) fn opening(
    alloc: Global,
    project: &Project,
    reach: Numbers,
    keep_going: bool,
) -> Result<Machine, RowFault>
    ensures { IfOk result IsOfPlan }
{
    let files = by_path(alloc, stamps_of(alloc, &project.sources)?)?;
    let plan = planned(alloc, &project.rules, reach, keep_going)?;
    Machine::new(alloc, plan, files)
}

/// Files with their stamps.
pub(crate) fn stamps_of(alloc: Global, files: &Files) -> Result<Stamps, AllocError> {
    let mut stamps = Items::new(alloc);
    for (path, content) in files.as_slice() {
        stamps.push((path.clone()?, stamp_of(content.as_slice())))?;
    }
    Ok(stamps)
}

/// Stamps by their paths; of two for one path the last stands.
pub(crate) fn by_path(alloc: Global, stamps: Stamps) -> Result<ByPath<Stamp>, AllocError> {
    let mut files = ByPath::new(alloc);
    for (path, stamp) in stamps.into_vec() {
        files.insert(path, stamp)?;
    }
    Ok(files)
}

/// The numbers of rules that a word of a row is, parted by blanks.
pub(crate) fn reach_at(alloc: Global, said: &Words, at: usize) -> Numbers {
    let mut numbers = Items::new(alloc);
    for word in said.str_at(at).split_ascii_whitespace() {
        match word.parse() {
            Ok(number) => said.list(&mut numbers, number),
            Err(_) => said.fail(RowFault::OtherKind),
        }
    }
    numbers
}
