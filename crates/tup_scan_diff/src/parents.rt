//! The folders in which folders stand.
ghost use Rattle.std.specs.Prelude.{◌≡◌, IfOk, IfErr, OnOk};
ghost use Rattle.tup_path.specs.Name.{Names};
ghost use Rattle.tup_path.specs.Order.{by_names};
ghost use Rattle.tup_scan_diff.specs.Parents.{AreParents, StandsIn};
ghost use Rattle.tup_scan_diff.specs.Sets.{GrowsBy};

use crate::index::parted;
use std::alloc::Global;
use std::collections::BTreeSet;
use tup_graph::GraphFault;
use tup_path::Path;

/// The folders in which one of some folders stands.
pub(crate) fn parents_of(
    alloc: Global,
    folders: &BTreeSet<Path>,
) -> Result<BTreeSet<Path>, GraphFault>
    ensures parents { IfOk result (AreParents folders.now.keys) }
    ensures memory { IfErr result (λ fault. fault ≡ GraphFault.Memory) }
{
    let mut parents = BTreeSet::new(alloc);
    for folder in folders {
        add_parent(alloc, &mut parents, folder)?;
    }
    Ok(parents)
}

/// Adds the folder in which a folder stands; none for the top.
fn add_parent(alloc: Global, parents: &mut BTreeSet<Path>, folder: &Path) -> Result<(), GraphFault>
    ensures added { OnOk result (GrowsBy by_names
        (λ (dir : Names). StandsIn dir folder.now) parents.old parents.new) }
    ensures memory { IfErr result (λ fault. fault ≡ GraphFault.Memory) }
{
    let Some((dir, _)) = parted(alloc, folder)? else {
        return Ok(());
    };
    parents.insert(dir)?;
    Ok(())
}
