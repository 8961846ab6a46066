//! Answers the rows of `data/` on the site over real files and the one in memory, and on paths, stamps and rules: a file of
//! rows, and a module, for each crate. One file more has rows that differ, to show what is printed of them.
#![tactic(auto)]

mod answers;
mod folder;
mod memory;
mod path;
mod reading;
mod repeated;
mod rule;
mod scanned;
mod session;
mod stamp;
mod twice;

use memory::Memory;
use session::Session;
use std::alloc::Global;
use std::fs::Files;
use std::io;
use tup_fs::Syncs;
use tup_rows::try_file_by;

fn main(rt: HostRuntime) -> io::Result<()> {
    let alloc = rt.alloc();
    let session = Session::new(rt, alloc, ".", Syncs::Done)?;
    try_file_by(&rt, alloc, "fs.rows", session)?;
    try_memory(&rt, alloc)?;
    try_words(&rt, alloc)
}

/// The rows on the site in memory.
fn try_memory<R: Files + Print>(rt: &R, alloc: Global) -> io::Result<()> {
    match Memory::new(alloc) {
        Ok(memory) => try_file_by(rt, alloc, "memory.rows", memory),
        Err(fault) => println!(rt; "memory.rows: {fault}"),
    }
}

/// The rows on paths, stamps and rules, and those that differ.
fn try_words<R: Files + Print>(rt: &R, alloc: Global) -> io::Result<()> {
    path::try_rows(rt, alloc)?;
    stamp::try_rows(rt, alloc)?;
    rule::try_rows(rt, alloc)?;
    twice::try_rows(rt, alloc)
}
