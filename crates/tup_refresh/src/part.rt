//! The sources of a project, as far as they are known.
use crate::fetched::Fetched;
use tup_graph::Nodes;
use tup_readings::Sources;

/// The sources of a project, as far as they are known.
#[derive(Drop)]
pub(crate) struct Part<'a, 'f> {
    /// Their paths; of their contents that of tup.config alone.
    pub outline: &'a Sources<'f>,
    /// The graph, which has their stamps.
    pub nodes: &'a Nodes,
    /// Their contents.
    pub fetched: &'a Fetched,
}
