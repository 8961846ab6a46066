//! The homes of folders.
ghost use Rattle.std.specs.Prelude.{◌≡◌, IfOk, IfErr};
ghost use Rattle.tup_graph.specs.Answers.{Sources};
ghost use Rattle.tup_graph.specs.Graph.{source};
ghost use Rattle.tup_scan_diff.specs.Homes.{AreWithTupfile, IsHomeOf, IsOtherHome};
ghost use Rattle.tup_scan_diff.specs.Present.{IsWhole, graph_of};

use crate::index::parted;
use crate::present::Present;
use std::alloc::Global;
use std::collections::BTreeSet;
use tup_graph::GraphFault;
use tup_path::Path;

impl Present<'_> {
    /// The home of a folder, where it is another folder than the one that is read.
    pub(crate) fn other_home(
        &self,
        alloc: Global,
        reader: &Path,
        dir: Path,
    ) -> Result<Option<Path>, GraphFault>
        requires present { IsWhole self.now }
        ensures home { IfOk result (IsOtherHome (source (graph_of self.now)) reader.now dir) }
        ensures memory { IfErr result (λ fault. fault ≡ GraphFault.Memory) }
    {
        let Some(home) = home_of(alloc, &self.index.tupfiles, dir)? else {
            return Ok(None);
        };
        if home == *reader {
            return Ok(None);
        }
        Ok(Some(home))
    }
}

/// The nearest folder at or above a folder that has a Tupfile. The folders that have one are given.
fn home_of(alloc: Global, tupfiles: &BTreeSet<Path>, dir: Path) -> Result<Option<Path>, GraphFault>
    ensures home { (sources : Sources) → AreWithTupfile sources tupfiles.now
        → IfOk result (IsHomeOf sources dir) }
    ensures memory { IfErr result (λ fault. fault ≡ GraphFault.Memory) }
{
    if tupfiles.contains(&dir) {
        return Ok(Some(dir));
    }
    let Some((above, _)) = parted(alloc, &dir)? else {
        return Ok(None);
    };
    home_of(alloc, tupfiles, above)
}
