//! What a scan found, beside the graph that it is compared with.
ghost use Rattle.std.specs.Prelude.{◌≡◌, IfOk, IfErr};
ghost use Rattle.std.specs.FinMap as finite;
ghost use Rattle.tup_graph.specs.Answers.{tup_config};
ghost use Rattle.tup_graph.specs.Graph.{source};
ghost use Rattle.tup_scan_diff.specs.Present.{IsPresent, graph_of, seeing, stamps_from, stamps_in};
ghost use Rattle.tup_scan_diff.specs.Turned.{HasTurned};

use crate::index::Index;
use crate::made::Made;
use crate::parents::parents_of;
use crate::settings::Settings;
use crate::stamps::Stamps;
use crate::turned::turned_folders;
use std::alloc::Global;
use std::collections::BTreeSet;
use tup_graph::{GraphFault, Nodes};
use tup_path::Path;
use tup_scan::Seen;
use tup_stamp::Stamp;

/// What a scan found, beside the graph that it is compared with.
#[derive(Drop)]
pub(crate) struct Present<'g> {
    pub(crate) nodes: &'g Nodes,
    pub(crate) stamps: Stamps,
    /// The sources by their folders.
    pub(crate) index: Index,
    /// The folders of sources that came or went since the graph was scanned.
    pub(crate) turned: BTreeSet<Path>,
    /// The folders in which a folder of sources stands.
    pub(crate) parents: BTreeSet<Path>,
    /// The outputs of the readings by their folders.
    pub(crate) made: Made,
    pub(crate) settings: Settings,
}

impl<'g> Present<'g> {
    pub(crate) fn new(
        alloc: Global,
        nodes: &'g Nodes,
        seen: &Seen,
    ) -> Result<Present<'g>, GraphFault>
        ensures nodes { IfOk result (λ present. present.nodes.now ≡ nodes.now) }
        ensures stamps { IfOk result
            (λ present. stamps_in present ≡ finite.from_entries seen.now.files) }
        ensures present { IfOk result (IsPresent seen.now.config) }
        ensures turned { IfOk result HasTurned }
        ensures memory { IfErr result (λ fault. fault ≡ GraphFault.Memory) }
    {
        let stamps = Stamps::of(alloc, nodes, seen.files.as_slice())?;
        let index = Index::new(alloc, nodes, seen.files.as_slice())?;
        let turned = turned_folders(alloc, nodes, &stamps, &index.folders)?;
        let parents = parents_of(alloc, &index.folders)?;
        let made = Made::new(alloc, nodes)?;
        let stamp = config_stamp(alloc, nodes, &stamps)?;
        let settings = Settings::new(alloc, stamp, &seen.config)?;
        Ok(Present {
            nodes,
            stamps,
            index,
            turned,
            parents,
            made,
            settings,
        })
    }

    /// The stamp of the source at a path.
    pub(crate) fn source(&self, path: &Path) -> Option<Stamp>
        ensures { result ≡ source (graph_of self.now) path.now }
    {
        source_at(self.nodes, &self.stamps, path)
    }
}

/// The stamp of the source at a path: that of the file there, which isn't owned.
fn source_at(nodes: &Nodes, stamps: &Stamps, path: &Path) -> Option<Stamp>
    ensures { result ≡ source (seeing nodes.now (stamps_from nodes.now stamps.now)) path.now }
{
    match nodes.owner(path) {
        Some(_) => None,
        None => stamps.get(nodes, path),
    }
}

/// The stamp of tup.config at the top, where it is a source.
fn config_stamp(alloc: Global, nodes: &Nodes, stamps: &Stamps) -> Result<Option<Stamp>, GraphFault>
    ensures stamp { IfOk result (λ stamp. stamp
        ≡ source (seeing nodes.now (stamps_from nodes.now stamps.now)) tup_config) }
    ensures memory { IfErr result (λ fault. fault ≡ GraphFault.Memory) }
{
    match Path::from_top(alloc, "tup.config") {
        Ok(path) => Ok(source_at(nodes, stamps, &path)),
        Err(_) => Err(GraphFault::Memory),
    }
}
