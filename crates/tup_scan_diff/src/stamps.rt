//! The stamps of files, by their paths.
ghost use Rattle.std.specs.Prelude.{◌≡◌, ◌⊎◌, if◌then◌else◌, Some, IfOk, IfErr, IfSome, OnOk};
ghost use Rattle.std.specs.FinMap as finite;
ghost use Rattle.std.specs.Map.Iter.{deref_pair};
ghost use Rattle.std.specs.Option.{option_map};
ghost use Rattle.tup_scan_diff.specs.Present.{over, stamps_from};
ghost use Rattle.tup_scan_diff.specs.Turned.{AreAtSamePaths, AtSamePaths};

use std::alloc::Global;
use tup_graph::{GraphFault, Nodes};
use tup_path::{ByPath, Path};
use tup_stamp::Stamp;

/// The stamps of all files that a scan found, beside a graph.
#[derive(Drop)]
pub(crate) enum Stamps {
    /// The graph has seen just these files. Those of them that have another stamp now.
    Edited(ByPath<Stamp>),
    /// It has seen others. The stamp of each file.
    Found(ByPath<Stamp>),
}

impl Stamps {
    /// The stamp of each file; where a path stands twice, its first stamp. Where the graph has seen just these files no path is
    /// copied but of those that have another stamp.
    pub(crate) fn of(
        alloc: Global,
        nodes: &Nodes,
        files: &[(Path, Stamp)],
    ) -> Result<Stamps, GraphFault>
        ensures stamps { IfOk result
            (λ stamps. stamps_from nodes.now stamps ≡ finite.from_entries files.now) }
        ensures paths { IfOk result (AreAtSamePaths nodes.now) }
        ensures memory { IfErr result (λ fault. fault ≡ GraphFault.Memory) }
    {
        match edited(alloc, nodes, files)? {
            Some(stamps) => Ok(Stamps::Edited(stamps)),
            None => Ok(Stamps::Found(all_stamps(alloc, files)?)),
        }
    }

    /// The stamp of the file at a path.
    pub(crate) fn get(&self, nodes: &Nodes, path: &Path) -> Option<Stamp>
        ensures { result ≡ finite.get (stamps_from nodes.now self.now) path.now }
    {
        match self {
            Stamps::Edited(stamps) => match stamps.get(path) {
                Some(stamp) => Some(*stamp),
                None => nodes.seen(path),
            },
            Stamps::Found(stamps) => stamps.get(path).copied(),
        }
    }
}

/// The files that have another stamp than a graph has seen. `None` where it hasn't seen just these files, in the same order.
fn edited(
    alloc: Global,
    nodes: &Nodes,
    files: &[(Path, Stamp)],
) -> Result<Option<ByPath<Stamp>>, GraphFault>
    ensures edited { IfOk result (λ found. IfSome found
        (λ stamps. over nodes.now.seen stamps ≡ finite.from_entries files.now)) }
    ensures paths { IfOk result (λ found. IfSome found
        (λ stamps. AtSamePaths nodes.now.seen (over nodes.now.seen stamps))) }
    ensures memory { IfErr result (λ fault. fault ≡ GraphFault.Memory) }
{
    let mut stamps = ByPath::new(alloc);
    let mut left = nodes.files();
    for (path, stamp) in files {
        let Some(before) = seen_there(left.next(), path) else {
            return Ok(None);
        };
        add_if_other(&mut stamps, path, before, *stamp)?;
    }
    match left.next() {
        Some(_) => Ok(None),
        None => Ok(Some(stamps)),
    }
}

/// The stamp of a file that was seen, if it is the one at this path.
fn seen_there(seen: Option<(&Path, &Stamp)>, path: &Path) -> Option<Stamp>
    ensures { IfSome result (λ stamp. option_map deref_pair seen.entry ≡ Some (path.now, stamp)) }
{
    match seen {
        Some((known, stamp)) if *known == *path => Some(*stamp),
        _ => None,
    }
}

/// Gives a path a stamp, if that is another one than before.
fn add_if_other(
    stamps: &mut ByPath<Stamp>,
    path: &Path,
    before: Stamp,
    stamp: Stamp,
) -> Result<(), GraphFault>
    ensures stamps { OnOk result (((stamp ≡ before) × (stamps.new ≡ stamps.old))
        ⊎ (stamps.new ≡ finite.insert stamps.old path.now stamp)) }
    ensures memory { IfErr result (λ fault. fault ≡ GraphFault.Memory) }
{
    if stamp != before {
        stamps.insert(path.clone()?, stamp)?;
    }
    Ok(())
}

/// The stamp of each file.
fn all_stamps(alloc: Global, files: &[(Path, Stamp)]) -> Result<ByPath<Stamp>, GraphFault>
    ensures stamps { IfOk result (λ stamps. stamps ≡ finite.from_entries files.now) }
    ensures memory { IfErr result (λ fault. fault ≡ GraphFault.Memory) }
{
    let mut stamps = ByPath::new(alloc);
    for (path, stamp) in files {
        add_stamp(&mut stamps, path, stamp)?;
    }
    Ok(stamps)
}

/// Gives a path a stamp, if it has none.
fn add_stamp(stamps: &mut ByPath<Stamp>, path: &Path, stamp: &Stamp) -> Result<(), GraphFault>
    ensures stamps { OnOk result (stamps.new ≡ (if finite.contains_key stamps.old path.now
        then stamps.old else finite.insert stamps.old path.now stamp.now)) }
    ensures memory { IfErr result (λ fault. fault ≡ GraphFault.Memory) }
{
    if !stamps.contains(path) {
        stamps.insert(path.clone()?, *stamp)?;
    }
    Ok(())
}
