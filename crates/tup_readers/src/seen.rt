//! The stamps of files, for one who asks for many of them.
ghost use Rattle.std.specs.Prelude.{◌≡◌, Some, IfOk, IfSome};
ghost use Rattle.std.specs.FinMap as finite;

use std::alloc::{AllocError, Global};
use std::cmp::Ordering;
use std::marker::Model;
use tup_graph::Nodes;
use tup_path::Path;
use tup_record::RunRecord;
use tup_stamp::Stamp;

/// A file is looked for so far before a place, and as far behind it, before it is looked for among all.
const NEAR: usize = 16;

/// The lengths by which a place is looked for near another one.
const FEW: [usize; 5] = [16, 8, 4, 2, 1];

/// The lengths by which a place is looked for among all: what stands behind 2^22 files is looked up.
const MANY: [usize; 22] = [
    2_097_152, 1_048_576, 524_288, 262_144, 131_072, 65_536, 32_768, 16_384, 8_192, 4_096, 2_048,
    1_024, 512, 256, 128, 64, 32, 16, 8, 4, 2, 1,
];

/// The stamps of the files that were seen. Where these are listed, a file that stands near the one before it takes a few
/// comparisons; else it is looked up. Contracts see the graph.
#[derive(Drop)]
pub(crate) struct SeenFiles<'n> {
    nodes: &'n Nodes,
    /// The files in the order of their paths, or none of them.
    files: Vec<(&'n Path, &'n Stamp)>,
}

impl<'n> Model for SeenFiles<'n> {
    ghost use Rattle.tup_graph.specs.Graph.{GraphState};
    ghost use Rattle.tup_graph.specs.contracts.nodes.Nodes as of_nodes;
    ghost use Rattle.tup_readers.specs.Seen.{AreSeen};

    ghost Value = { GraphState };

    ghost coded = { of_nodes.the_row.coded };

    ghost view = { λ s. s.nodes.now };

    ghost invariant = { λ s. AreSeen s.nodes.now.seen s.files.items };
}

impl<'n> SeenFiles<'n> {
    /// The files in a list.
    pub(crate) fn listed(alloc: Global, nodes: &'n Nodes) -> Result<SeenFiles<'n>, AllocError>
        ensures { IfOk result (λ seen. seen ≡ nodes.now) }
    {
        let mut files = Vec::new(alloc);
        for file in nodes.files() {
            files.push(file)?;
        }
        Ok(SeenFiles { nodes, files })
    }

    /// No list; it takes no memory.
    pub(crate) fn unlisted(alloc: Global, nodes: &'n Nodes) -> SeenFiles<'n>
        ensures { result ≡ nodes.now }
    {
        SeenFiles {
            nodes,
            files: Vec::new(alloc),
        }
    }

    /// The stamp of the file at a path, which may have this place in the list.
    pub(crate) fn at(&self, place: usize, path: &Path) -> Option<Stamp>
        ensures { result ≡ finite.get self.now.seen path.now }
    {
        match self.listed_at(place, path) {
            Some(stamp) => Some(stamp),
            None => self.nodes.seen(path),
        }
    }

    /// The stamp of the file that has this place in the list, if it is the one at this path.
    fn listed_at(&self, place: usize, path: &Path) -> Option<Stamp>
        ensures { IfSome result (λ stamp. finite.get self.now.seen path.now ≡ Some stamp) }
    {
        let Some(file) = self.files.get(place) else {
            return None;
        };
        if *file.0 == *path {
            return Some(*file.1);
        }
        None
    }

    /// The place of the first path that a record asks, or that before it.
    pub(crate) fn place_of(&self, before: usize, run: &RunRecord) -> usize {
        match run.asks.as_slice().first() {
            Some((path, _)) => self.place(before, path),
            None => before,
        }
    }

    /// The place that a path has in the list, if it has one. It is looked for near the place before it first.
    pub(crate) fn place(&self, before: usize, path: &Path) -> usize {
        let near = self.first_from(before.saturating_sub(NEAR), &FEW, path);
        if self.is_at(near, path) {
            return near;
        }
        self.first_from(0, &MANY, path)
    }

    /// The first place from one on whose file doesn't come before a path. Each length is half of the one before it.
    fn first_from(&self, from: usize, lengths: &[usize], path: &Path) -> usize {
        let mut place = from;
        for length in lengths {
            let end = place.saturating_add(*length);
            if self.is_before(end.saturating_sub(1), path) {
                place = end;
            }
        }
        place
    }

    /// Whether the file at a place is the one at this path.
    fn is_at(&self, place: usize, path: &Path) -> bool {
        match self.files.get(place) {
            Some((known, _)) => **known == *path,
            None => false,
        }
    }

    /// Whether the file at a place comes before a path.
    fn is_before(&self, place: usize, path: &Path) -> bool {
        match self.files.get(place) {
            Some((known, _)) => matches!((*known).cmp(path), Ordering::Less),
            None => false,
        }
    }
}
