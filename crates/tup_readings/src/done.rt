//! The readings that are done, and what their rules make.
ghost use Rattle.std.specs.Prelude.{◌≡◌, IfOk, OnOk};
ghost use Rattle.std.specs.FinMap as finite;
ghost use Rattle.std.specs.Option.{option_copied};
ghost use Rattle.tup_rule_line.specs.Making.{is_made};
ghost use Rattle.tup_readings.specs.Answers.{drafts_of};
ghost use Rattle.tup_readings.specs.Done.{AddsPaths, AreOutputs};

use std::alloc::{AllocError, Global};
use std::collections::BTreeSet;
use std::marker::Model;
use tup_path::{ByPath, Items, Path};
use tup_rule::{Draft, Reading};

/// The readings of folders so far, each with the set of its outputs. Contracts see the readings.
#[derive(Drop)]
pub struct Done {
    readings: ByPath<Reading>,
    /// For each folder that was read, the outputs of its rules.
    outputs: ByPath<BTreeSet<Path>>,
}

impl Model for Done {
    ghost use Rattle.std.specs.Coded.{codes, coded_ℕ, coded_list};
    ghost use Rattle.std.specs.FinMap as finite;
    ghost use Rattle.tup_rule.specs.contracts.question.Reading as reading;
    ghost use Rattle.tup_readings.specs.Answers.{Readings};
    ghost use Rattle.tup_readings.specs.Done.{Know};

    ghost Value = { Readings };

    ghost coded = { finite.code (coded_list (coded_list coded_ℕ))
        (Prim.hlevel (codes, reading.the_row.coded)) };

    ghost view = { λ done. done.readings };

    ghost invariant = { λ done. Know done.readings done.outputs };
}

impl Done {
    /// No reading yet; it takes no memory.
    pub(crate) fn new(alloc: Global) -> Done
        ensures { result ≡ finite.empty }
    {
        Done {
            readings: ByPath::new(alloc),
            outputs: ByPath::new(alloc),
        }
    }

    /// The reading of a folder.
    pub(crate) fn get(&self, dir: &Path) -> Option<&Reading>
        ensures { option_copied result ≡ finite.get self.now dir.now }
    {
        self.readings.get(dir)
    }

    /// Whether a path is an output of the rules of a folder.
    pub(crate) fn makes(&self, dir: &Path, path: &Path) -> bool
        ensures { result ≡ is_made (drafts_of self.now dir.now) path.now }
    {
        match self.outputs.get(dir) {
            Some(outputs) => outputs.contains(path),
            None => false,
        }
    }

    /// The reading of one folder more.
    pub(crate) fn with(self, alloc: Global, dir: Path, reading: Reading) -> Result<Done, AllocError>
        ensures { IfOk result (λ done. done ≡ finite.insert self dir reading) }
    {
        let Done {
            mut readings,
            mut outputs,
        } = self;
        let set = outputs_of(alloc, reading.drafts.as_slice())?;
        outputs.insert(dir.clone()?, set)?;
        readings.insert(dir, reading)?;
        Ok(Done { readings, outputs })
    }

    /// The readings with their folders, in the order of paths.
    pub fn into_items(self, alloc: Global) -> Result<Items<(Path, Reading)>, AllocError>
        ensures { IfOk result (λ items. items ≡ finite.entries self) }
    {
        self.readings.into_items(alloc)
    }
}

/// The outputs of rules.
fn outputs_of(alloc: Global, drafts: &[Draft]) -> Result<BTreeSet<Path>, AllocError>
    ensures { IfOk result (AreOutputs drafts.now) }
{
    let mut outputs = BTreeSet::new(alloc);
    for draft in drafts {
        add_paths(&mut outputs, draft.outputs.as_slice())?;
    }
    Ok(outputs)
}

/// Adds paths to a set.
fn add_paths(set: &mut BTreeSet<Path>, paths: &[Path]) -> Result<(), AllocError>
    ensures { OnOk result (AddsPaths paths.now set.old set.new) }
{
    for path in paths {
        set.insert(path.clone()?)?;
    }
    Ok(())
}
