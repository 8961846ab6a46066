//! The rows of the store: records, the bytes of stores, graphs, and what is done with them over a site: transactions, a refresh
//! of their readings, and that what no rule makes any more is cleared.
//!
//! Each file of `data/` has rows, a call with the answer that is wanted each. The head of a file says what its calls
//! and their arguments mean.
#![tactic(auto)]

mod arguments;
mod bytes;
mod changes;
mod clearing;
mod damage;
mod graph;
mod kept;
mod left;
mod record;
mod say;
mod scan;
mod shown;
mod site;
mod swap;
mod sweep;
mod table;
mod values;

use clearing::Clearings;
use graph::Graphs;
use kept::KeptGraphs;
use record::Records;
use std::alloc::Global;
use std::fs::Files;
use std::io;
use sweep::Sweeps;
use table::Tables;
use tup_rows::{try_file, try_file_by};

fn main(rt: HostRuntime) -> io::Result<()> {
    let alloc = rt.alloc();
    try_values(&rt, alloc)?;
    try_graphs(&rt, alloc)
}

/// The rows on records and tables.
fn try_values<R: Files + Print>(rt: &R, alloc: Global) -> io::Result<()> {
    try_file(rt, alloc, "record.rows", &mut Records)?;
    try_file_by(rt, alloc, "table.rows", Tables::new(alloc))
}

/// The rows on graphs, and on their transactions over a site.
fn try_graphs<R: Files + Print>(rt: &R, alloc: Global) -> io::Result<()> {
    try_file(rt, alloc, "graph.rows", &mut Graphs)?;
    try_file_by(rt, alloc, "sweep.rows", Sweeps::new(alloc))?;
    try_sites(rt, alloc)
}

/// The rows on sites.
fn try_sites<R: Files + Print>(rt: &R, alloc: Global) -> io::Result<()> {
    try_file_by(rt, alloc, "kept.rows", KeptGraphs::new(alloc))?;
    try_file_by(rt, alloc, "stale.rows", Clearings::new(alloc))
}
