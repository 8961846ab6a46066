//! Folders that are to be read again.
ghost use Rattle.std.specs.Prelude.{◌≡◌, ◌↔◌, Option, None, IfOk, IfErr, OnOk};
ghost use Rattle.std.specs.BTreeSet.{IsOrdered};
ghost use Rattle.std.specs.Bool.{Decides};
ghost use Rattle.std.specs.FinMap as finite;
ghost use Rattle.tup_path.specs.Name.{Names, Content};
ghost use Rattle.tup_path.specs.Order.{by_names};
ghost use Rattle.tup_graph.specs.Scan.{IsStale};
ghost use Rattle.tup_scan_diff.specs.Present.{IsPresent, IsWhole, graph_of};
ghost use Rattle.tup_scan_diff.specs.Sets.{Has, GrowsBy};
ghost use Rattle.tup_scan_diff.specs.Stale.{IsOutdated, IsOutdatedIn, IsUnreadIn};

use crate::present::Present;
use std::alloc::Global;
use std::collections::BTreeSet;
use tup_graph::GraphFault;
use tup_path::Path;
use tup_rule::Reading;

impl Present<'_> {
    /// The folders that are to be read again: each that has a Tupfile and no reading, or a reading and no Tupfile, or whose
    /// reading was told what isn't so any more.
    pub(crate) fn stale(&self, alloc: Global) -> Result<BTreeSet<Path>, GraphFault>
        requires present { IsWhole self.now }
        ensures stale { (config : Option Content) → IsPresent config self.now
            → IfOk result (λ dirs. (dir : Names)
            → Has by_names dirs dir ↔ IsStale (graph_of self.now) config dir) }
        ensures ordered { IfOk result (IsOrdered by_names) }
        ensures memory { IfErr result (λ fault. fault ≡ GraphFault.Memory) }
    {
        let mut dirs = BTreeSet::new(alloc);
        self.add_outdated(alloc, &mut dirs)?;
        self.add_unread(&mut dirs)?;
        Ok(dirs)
    }

    /// Adds the folders whose readings don't stand any more.
    fn add_outdated(&self, alloc: Global, dirs: &mut BTreeSet<Path>) -> Result<(), GraphFault>
        requires present { IsWhole self.now }
        ensures added { (config : Option Content) → IsPresent config self.now
            → OnOk result (GrowsBy by_names (IsOutdatedIn config self.now
            (finite.entries self.now.nodes.now.readings)) dirs.old dirs.new) }
        ensures memory { IfErr result (λ fault. fault ≡ GraphFault.Memory) }
    {
        for (dir, reading) in self.nodes.readings() {
            self.add_if_outdated(alloc, dirs, dir, reading)?;
        }
        Ok(())
    }

    /// Adds a folder, if its reading doesn't stand any more.
    fn add_if_outdated(
        &self,
        alloc: Global,
        dirs: &mut BTreeSet<Path>,
        dir: &Path,
        reading: &Reading,
    ) -> Result<(), GraphFault>
        requires present { IsWhole self.now }
        ensures added { (config : Option Content) → IsPresent config self.now
            → OnOk result (GrowsBy by_names (λ other. (other ≡ dir.now)
            × IsOutdated config self.now dir.now reading.now) dirs.old dirs.new) }
        ensures memory { IfErr result (λ fault. fault ≡ GraphFault.Memory) }
    {
        if self.is_outdated(alloc, dir, reading)? {
            dirs.insert(dir.clone()?)?;
        }
        Ok(())
    }

    /// Whether the reading of a folder doesn't stand any more.
    fn is_outdated(&self, alloc: Global, dir: &Path, reading: &Reading) -> Result<bool, GraphFault>
        requires present { IsWhole self.now }
        ensures outdated { (config : Option Content) → IsPresent config self.now
            → IfOk result (λ outdated. Decides outdated
            (IsOutdated config self.now dir.now reading.now)) }
        ensures memory { IfErr result (λ fault. fault ≡ GraphFault.Memory) }
    {
        if !self.index.tupfiles.contains(dir) {
            return Ok(true);
        }
        let beside = self.index.names.of(dir);
        Ok(!self.all_stand(alloc, dir, beside, reading.asked.as_slice())?)
    }

    /// Adds the folders that have a Tupfile and no reading.
    fn add_unread(&self, dirs: &mut BTreeSet<Path>) -> Result<(), GraphFault>
        ensures added { OnOk result (GrowsBy by_names
            (IsUnreadIn self.now self.now.index.tupfiles.keys) dirs.old dirs.new) }
        ensures memory { IfErr result (λ fault. fault ≡ GraphFault.Memory) }
    {
        for dir in &self.index.tupfiles {
            self.add_if_unread(dirs, dir)?;
        }
        Ok(())
    }

    /// Adds a folder, if it has no reading.
    fn add_if_unread(&self, dirs: &mut BTreeSet<Path>, dir: &Path) -> Result<(), GraphFault>
        ensures added { OnOk result (GrowsBy by_names (λ other. (other ≡ dir.now)
            × (finite.get self.now.nodes.now.readings dir.now ≡ None)) dirs.old dirs.new) }
        ensures memory { IfErr result (λ fault. fault ≡ GraphFault.Memory) }
    {
        match self.nodes.reading(dir) {
            Some(_) => Ok(()),
            None => {
                dirs.insert(dir.clone()?)?;
                Ok(())
            }
        }
    }
}
