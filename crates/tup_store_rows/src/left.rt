//! What is left at a site.
use std::alloc::Global;
use tup_graph::{GraphFault, Nodes};
use tup_path::{Bytes, Path};
use tup_record::OwnedState;
use tup_rows::{RowFault, Words};
use tup_site::MemSite;
use tup_stored_graph::Graph;

/// Adds which of these files are left, and the paths that the store owns.
pub(crate) fn add_left(
    alloc: Global,
    words: &mut Words,
    files: &[(Path, Bytes)],
    site: &mut MemSite,
) {
    words.put(alloc, b"files");
    for (path, _) in files {
        if let Some(content) = site.file(path) {
            words.show(alloc, path);
            words.put(alloc, content.as_slice());
        }
    }
    add_owned(alloc, words, site);
}

/// Adds the paths that the store of a site owns, each with its maker and its state.
fn add_owned(alloc: Global, words: &mut Words, site: &mut MemSite) {
    match Graph::open(alloc, site) {
        Ok(graph) => {
            add_nodes(alloc, words, graph.nodes());
            drop(graph);
        }
        Err(fault) => add_refusal(alloc, words, fault),
    }
}

fn add_nodes(alloc: Global, words: &mut Words, nodes: &Nodes) {
    words.put(alloc, b"owned");
    for (path, owned) in nodes.owned() {
        words.show(alloc, path);
        if owned.maker.is_some() {
            words.put(alloc, b"made");
        }
        words.put(alloc, word_of(owned.state));
    }
    words.put(alloc, b"seen");
    for (path, _) in nodes.files() {
        words.show(alloc, path);
    }
}

fn word_of(state: OwnedState) -> &'static [u8] {
    match state {
        OwnedState::Never => b"never",
        OwnedState::Unsure => b"unsure",
        OwnedState::Written(_) => b"written",
    }
}

/// Adds why a store doesn't open; want of memory is no answer.
pub(crate) fn add_refusal(alloc: Global, words: &mut Words, fault: GraphFault) {
    match fault {
        GraphFault::Memory => words.fail(RowFault::Memory),
        fault => words.show(alloc, &fault),
    }
}
