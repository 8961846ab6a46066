//! The names of the files in a folder.
ghost use Rattle.std.specs.Prelude.{◌≡◌, ◌↔◌, ◌++◌, ◌∷◌, [], ℕ, List, Contains, IfOk, IfErr, OnOk};
ghost use Rattle.std.specs.BTreeSet.{IsOrdered};
ghost use Rattle.tup_path.specs.Order.{by_bytes};
ghost use Rattle.tup_graph.specs.Answers.{IsFileFor};
ghost use Rattle.tup_graph.specs.Graph.{source};
ghost use Rattle.tup_scan_diff.specs.Names.{IsDraftedIn, IsIn, IsOutputIn};
ghost use Rattle.tup_scan_diff.specs.Present.{IsWhole, graph_of};
ghost use Rattle.tup_scan_diff.specs.Sets.{Has, GrowsBy};
ghost use Rattle.tup_scan_diff.specs.Told.{AreNames};

use crate::present::Present;
use std::alloc::Global;
use std::collections::BTreeSet;
use tup_graph::GraphFault;
use tup_path::{Path, Text, Texts};
use tup_rule::Draft;

impl Present<'_> {
    /// The names of the files in a folder, in byte order, as the reading of a folder is told them.
    pub(crate) fn names(
        &self,
        alloc: Global,
        reader: &Path,
        dir: &Path,
    ) -> Result<Texts, GraphFault>
        requires present { IsWhole self.now }
        ensures names { IfOk result (AreNames self.now reader.now dir.now) }
        ensures memory { IfErr result (λ fault. fault ≡ GraphFault.Memory) }
    {
        listed(alloc, &self.name_set(alloc, reader, dir)?)
    }

    /// The set of these names.
    fn name_set(
        &self,
        alloc: Global,
        reader: &Path,
        dir: &Path,
    ) -> Result<BTreeSet<Text>, GraphFault>
        requires present { IsWhole self.now }
        ensures names { IfOk result (λ names. (name : List ℕ) → Has by_bytes names name
            ↔ IsFileFor (source (graph_of self.now)) self.now.nodes.now.readings
            reader.now dir.now name) }
        ensures ordered { IfOk result (IsOrdered by_bytes) }
        ensures memory { IfErr result (λ fault. fault ≡ GraphFault.Memory) }
    {
        let mut names = BTreeSet::new(alloc);
        add_names(&mut names, self.index.names.of(dir))?;
        self.add_outputs(alloc, &mut names, reader, dir)?;
        Ok(names)
    }

    /// Adds the names of those outputs of the reading of a folder's home that stand in the folder, where the home is another
    /// folder than the one that is read.
    fn add_outputs(
        &self,
        alloc: Global,
        names: &mut BTreeSet<Text>,
        reader: &Path,
        dir: &Path,
    ) -> Result<(), GraphFault>
        requires present { IsWhole self.now }
        ensures names { OnOk result (GrowsBy by_bytes
            (IsOutputIn self.now reader.now dir.now) names.old names.new) }
        ensures memory { IfErr result (λ fault. fault ≡ GraphFault.Memory) }
    {
        let Some(home) = self.other_home(alloc, reader, dir.clone()?)? else {
            return Ok(());
        };
        match self.nodes.reading(&home) {
            Some(reading) => add_drafted(names, dir, reading.drafts.as_slice()),
            None => Ok(()),
        }
    }
}

/// The names of a set, in their order.
fn listed(alloc: Global, names: &BTreeSet<Text>) -> Result<Texts, GraphFault>
    ensures listed { IfOk result (λ list. list ≡ names.now.keys) }
    ensures memory { IfErr result (λ fault. fault ≡ GraphFault.Memory) }
{
    let mut list = Texts::new(alloc);
    for name in names {
        list.push(name.clone()?)?;
    }
    Ok(list)
}

/// Adds names.
fn add_names(names: &mut BTreeSet<Text>, more: &[Text]) -> Result<(), GraphFault>
    ensures names { OnOk result (GrowsBy by_bytes (Contains more.now) names.old names.new) }
    ensures memory { IfErr result (λ fault. fault ≡ GraphFault.Memory) }
{
    for name in more {
        names.insert(name.clone()?)?;
    }
    Ok(())
}

/// Adds the names of those outputs of drafts that stand in a folder.
fn add_drafted(names: &mut BTreeSet<Text>, dir: &Path, drafts: &[Draft]) -> Result<(), GraphFault>
    ensures names { OnOk result
        (GrowsBy by_bytes (IsDraftedIn drafts.now dir.now) names.old names.new) }
    ensures memory { IfErr result (λ fault. fault ≡ GraphFault.Memory) }
{
    for draft in drafts {
        add_paths(names, dir, draft.outputs.as_slice())?;
    }
    Ok(())
}

/// Adds the names of those paths that stand in a folder.
fn add_paths(names: &mut BTreeSet<Text>, dir: &Path, paths: &[Path]) -> Result<(), GraphFault>
    ensures names { OnOk result (GrowsBy by_bytes (IsIn paths.now dir.now) names.old names.new) }
    ensures memory { IfErr result (λ fault. fault ≡ GraphFault.Memory) }
{
    for path in paths {
        add_path(names, dir, path)?;
    }
    Ok(())
}

/// Adds the name of a path, if it stands in a folder.
fn add_path(names: &mut BTreeSet<Text>, dir: &Path, path: &Path) -> Result<(), GraphFault>
    ensures names { OnOk result (GrowsBy by_bytes (λ name. path.now ≡ dir.now ++ name ∷ [])
        names.old names.new) }
    ensures memory { IfErr result (λ fault. fault ≡ GraphFault.Memory) }
{
    let Some((name, folder)) = path.names().split_last() else {
        return Ok(());
    };
    if folder != dir.names() {
        return Ok(());
    }
    names.insert(name.clone()?)?;
    Ok(())
}
