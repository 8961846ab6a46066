//! The drafts of all folders in one list.
ghost use Rattle.std.specs.Prelude.{◌≡◌, ◌++◌, map, IfOk, OnOk};
ghost use Rattle.tup_link.specs.Placed as specs;

use std::alloc::{AllocError, Global};
use std::marker::Model;
use tup_path::Path;
use tup_rule::{Draft, Reading};

/// A draft, and the folder whose Tupfile it comes from.
#[derive(Drop)]
pub(crate) struct Placed<'r> {
    dir: &'r Path,
    draft: &'r Draft,
}

impl<'r> Model for Placed<'r> {
    ghost use Rattle.tup_link.specs.Placed.{Placed as Place, placed_in};

    ghost Value = { Place };

    ghost view = { λ p. placed_in p.dir.now p.draft.now };
}

impl<'r> Placed<'r> {
    pub(crate) fn new(dir: &'r Path, draft: &'r Draft) -> Placed<'r>
        ensures { result ≡ specs.placed_in dir.now draft.now }
    {
        Placed { dir, draft }
    }

    pub(crate) fn dir(&self) -> &'r Path
        ensures { result.now ≡ self.now.dir }
    {
        self.dir
    }

    pub(crate) fn draft(&self) -> &'r Draft
        ensures { result.now ≡ self.now.draft }
    {
        self.draft
    }
}

/// The drafts of all readings, in the order of their folders and lines.
pub(crate) fn all_placed(
    alloc: Global,
    readings: &[(Path, Reading)],
) -> Result<Vec<Placed<'_>>, AllocError>
    ensures { IfOk result (λ all. all.items ≡ specs.placed readings.now) }
{
    let mut all = Vec::new(alloc);
    for (dir, reading) in readings {
        add(&mut all, dir, reading.drafts.as_slice())?;
    }
    Ok(all)
}

/// Adds the drafts of one folder.
fn add<'r>(all: &mut Vec<Placed<'r>>, dir: &'r Path, drafts: &'r [Draft]) -> Result<(), AllocError>
    ensures { OnOk result (all.new.items
        ≡ all.old.items ++ map (specs.placed_in dir.now) drafts.now) }
{
    for draft in drafts {
        all.push(Placed::new(dir, draft))?;
    }
    Ok(())
}
