//! Answers the rows of `data/` on the language of a Tupfile, on the readings of all folders of a project, and on its rules: a
//! file of rows, and a module, for each crate.
#![tactic(auto)]

mod branches;
mod draft;
mod flags;
mod folders;
mod glob;
mod lex;
mod link;
mod linked;
mod macros;
mod project;
mod reader;
mod readings;
mod repeated;
mod shown;
mod sources;
mod vars;

use std::alloc::Global;
use std::fs::Files;
use std::io;

fn main(rt: HostRuntime) -> io::Result<()> {
    let alloc = rt.alloc();
    words(&rt, alloc)?;
    rules(&rt, alloc)?;
    projects(&rt, alloc)
}

/// The rows on lines, variables and globs.
fn words<R: Files + Print>(rt: &R, alloc: Global) -> io::Result<()> {
    lex::try_rows(rt, alloc)?;
    vars::try_rows(rt, alloc)?;
    glob::try_rows(rt, alloc)
}

/// The rows on flags, macros and groups.
fn rules<R: Files + Print>(rt: &R, alloc: Global) -> io::Result<()> {
    flags::try_rows(rt, alloc)?;
    macros::try_rows(rt, alloc)?;
    link::try_rows(rt, alloc)
}

/// The rows on a folder's reading, and on all folders of a project.
fn projects<R: Files + Print>(rt: &R, alloc: Global) -> io::Result<()> {
    reader::try_rows(rt, alloc)?;
    folders::try_rows(rt, alloc, "folders.rows")?;
    folders::try_rows(rt, alloc, "project.rows")
}
