//! The graph of a project over the store of a site.
//!
//! A `Graph` has the nodes that the store stands for, and each transaction commits what it changes:
//! all of it or nothing, whenever a crash comes.
#![tactic(auto)]

mod graph;
mod laws;
mod transactions;

pub use graph::Graph;
pub use laws::{full_is_too_large, reads_keep_graphs};
