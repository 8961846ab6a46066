//! The outputs of readings.
ghost use Rattle.std.specs.Prelude.{◌≡◌, ◌⊎◌, Contains, IfOk, IfErr, OnOk};
ghost use Rattle.std.specs.Bool.{Decides};
ghost use Rattle.tup_path.specs.Order.{by_names};
ghost use Rattle.tup_rule.specs.Rule.{among};
ghost use Rattle.tup_graph.specs.Answers.{IsDrafted};
ghost use Rattle.tup_scan_diff.specs.Made.{AreMade, HasOutput, IsGiven, makes};
ghost use Rattle.tup_scan_diff.specs.Sets.{GrowsBy};

use std::alloc::Global;
use std::collections::BTreeSet;
use tup_graph::{GraphFault, Nodes};
use tup_path::{ByPath, Path};
use tup_rule::Draft;

/// So many outputs of a reading are looked through one after another; where there are more, they are put into a set.
const FEW: usize = 32;

/// The outputs of the readings that have many.
#[derive(Drop)]
pub(crate) struct Made {
    /// For each folder whose reading has more than a few outputs, these outputs.
    outputs: ByPath<BTreeSet<Path>>,
}

impl Made {
    /// Those of all readings.
    pub(crate) fn new(alloc: Global, nodes: &Nodes) -> Result<Made, GraphFault>
        ensures made { IfOk result (AreMade nodes.now.readings) }
        ensures memory { IfErr result (λ fault. fault ≡ GraphFault.Memory) }
    {
        let mut made = Made {
            outputs: ByPath::new(alloc),
        };
        for (dir, reading) in nodes.readings() {
            made.give_many(alloc, dir, reading.drafts.as_slice())?;
        }
        Ok(made)
    }

    /// The reading of a folder has these drafts. Where they have few outputs nothing is kept of them.
    fn give_many(&mut self, alloc: Global, dir: &Path, drafts: &[Draft]) -> Result<(), GraphFault>
        ensures given { OnOk result ((self.new ≡ self.old)
            ⊎ IsGiven dir.now drafts.now self.old self.new) }
        ensures memory { IfErr result (λ fault. fault ≡ GraphFault.Memory) }
    {
        if have_few(drafts) {
            return Ok(());
        }
        self.give(alloc, dir, drafts)
    }

    /// The reading of a folder has these drafts.
    fn give(&mut self, alloc: Global, dir: &Path, drafts: &[Draft]) -> Result<(), GraphFault>
        ensures given { OnOk result (IsGiven dir.now drafts.now self.old self.new) }
        ensures memory { IfErr result (λ fault. fault ≡ GraphFault.Memory) }
    {
        let mut outputs = BTreeSet::new(alloc);
        add_made(&mut outputs, drafts)?;
        self.outputs.insert(dir.clone()?, outputs)?;
        Ok(())
    }

    /// Whether a path is an output of the reading of a folder.
    pub(crate) fn has(&self, nodes: &Nodes, dir: &Path, path: &Path) -> bool
        requires made { AreMade nodes.now.readings self.now }
        ensures { Decides result (HasOutput nodes.now.readings dir.now path.now) }
    {
        match self.outputs.get(dir) {
            Some(outputs) => outputs.contains(path),
            None => reading_makes(nodes, dir, path),
        }
    }
}

/// Whether drafts have so few outputs that these are looked through.
fn have_few(drafts: &[Draft]) -> bool {
    let mut outputs: usize = 0;
    for draft in drafts {
        outputs = outputs.saturating_add(draft.outputs.as_slice().len());
    }
    outputs <= FEW
}

/// Whether the reading of a folder has this output, which is looked for among all.
fn reading_makes(nodes: &Nodes, dir: &Path, path: &Path) -> bool
    ensures { Decides result (HasOutput nodes.now.readings dir.now path.now) }
{
    match nodes.reading(dir) {
        Some(reading) => make(reading.drafts.as_slice(), path),
        None => false,
    }
}

/// Whether a path is an output of one of some drafts.
fn make(drafts: &[Draft], path: &Path) -> bool
    ensures { result ≡ makes path.now drafts.now }
{
    drafts
        .iter()
        .any(|draft| is_among(draft.outputs.as_slice(), path))
}

/// Whether a path is one of these.
fn is_among(paths: &[Path], path: &Path) -> bool
    ensures { result ≡ among path.now paths.now }
{
    paths.iter().any(|one| path == one)
}

/// Adds the outputs of drafts.
fn add_made(outputs: &mut BTreeSet<Path>, drafts: &[Draft]) -> Result<(), GraphFault>
    ensures outputs { OnOk result
        (GrowsBy by_names (IsDrafted drafts.now) outputs.old outputs.new) }
    ensures memory { IfErr result (λ fault. fault ≡ GraphFault.Memory) }
{
    for draft in drafts {
        add_all(outputs, draft.outputs.as_slice())?;
    }
    Ok(())
}

/// Adds paths.
fn add_all(outputs: &mut BTreeSet<Path>, paths: &[Path]) -> Result<(), GraphFault>
    ensures outputs { OnOk result (GrowsBy by_names (Contains paths.now) outputs.old outputs.new) }
    ensures memory { IfErr result (λ fault. fault ≡ GraphFault.Memory) }
{
    for path in paths {
        outputs.insert(path.clone()?)?;
    }
    Ok(())
}
