//! Folders of sources that came or went.
ghost use Rattle.std.specs.Prelude.{◌≡◌, ◌⊎◌, ◌↔◌, Contains, IfOk, IfErr, OnOk};
ghost use Rattle.tup_path.specs.Name.{Names};
ghost use Rattle.tup_path.specs.Order.{by_names};
ghost use Rattle.tup_scan_diff.specs.Present.{seeing, stamps_from};
ghost use Rattle.tup_scan_diff.specs.Sets.{Has, GrowsBy};
ghost use Rattle.tup_scan_diff.specs.Turned.{AreAtSamePaths, AreFolders, AreTurned, IsLacking};

use crate::index::Index;
use crate::stamps::Stamps;
use std::alloc::Global;
use std::collections::BTreeSet;
use tup_graph::{GraphFault, Nodes};
use tup_path::Path;

/// The paths that became folders of sources since a graph was scanned, or ceased to be such. These are the folders of the
/// sources that were found. Where no file came or went nothing is looked at.
pub(crate) fn turned_folders(
    alloc: Global,
    nodes: &Nodes,
    stamps: &Stamps,
    folders: &BTreeSet<Path>,
) -> Result<BTreeSet<Path>, GraphFault>
    requires stamps { AreAtSamePaths nodes.now stamps.now }
    requires folders { AreFolders (seeing nodes.now (stamps_from nodes.now stamps.now)) folders.now }
    ensures turned { IfOk result
        (AreTurned nodes.now (seeing nodes.now (stamps_from nodes.now stamps.now))) }
    ensures memory { IfErr result (λ fault. fault ≡ GraphFault.Memory) }
{
    match stamps {
        Stamps::Edited(_) => Ok(BTreeSet::new(alloc)),
        Stamps::Found(_) => in_one(alloc, &Index::seen(alloc, nodes)?.folders, folders),
    }
}

/// The paths that are in just one of two sets.
fn in_one(
    alloc: Global,
    old: &BTreeSet<Path>,
    new: &BTreeSet<Path>,
) -> Result<BTreeSet<Path>, GraphFault>
    ensures paths { IfOk result (λ paths. (path : Names) → Has by_names paths path
        ↔ (IsLacking old.now new.now.keys path ⊎ IsLacking new.now old.now.keys path)) }
    ensures memory { IfErr result (λ fault. fault ≡ GraphFault.Memory) }
{
    let mut paths = BTreeSet::new(alloc);
    add_lacking(&mut paths, old, new)?;
    add_lacking(&mut paths, new, old)?;
    Ok(paths)
}

/// Adds the paths of a set that another one lacks.
fn add_lacking(
    paths: &mut BTreeSet<Path>,
    other: &BTreeSet<Path>,
    set: &BTreeSet<Path>,
) -> Result<(), GraphFault>
    ensures added { OnOk result
        (GrowsBy by_names (IsLacking other.now set.now.keys) paths.old paths.new) }
    ensures memory { IfErr result (λ fault. fault ≡ GraphFault.Memory) }
{
    for path in set {
        add_if_lacking(paths, other, path)?;
    }
    Ok(())
}

/// Adds a path, if a set lacks it.
fn add_if_lacking(
    paths: &mut BTreeSet<Path>,
    other: &BTreeSet<Path>,
    path: &Path,
) -> Result<(), GraphFault>
    ensures added { OnOk result (GrowsBy by_names (λ one. (one ≡ path.now)
        × (Has by_names other.now path.now → ⊥)) paths.old paths.new) }
    ensures memory { IfErr result (λ fault. fault ≡ GraphFault.Memory) }
{
    if !other.contains(path) {
        paths.insert(path.clone()?)?;
    }
    Ok(())
}
