//! Answers the rows of `data/` on commands and on the core that has them run: the small ones and what becomes of them, the
//! log of a started program, the trace of a command, how it is read and what it asks for and writes; the core of an update,
//! and a plan with all that happens to it.
#![tactic(auto)]

mod access;
mod answer;
mod broken;
mod clean;
mod course;
mod desk;
mod drive;
mod event;
mod job;
mod kept;
mod lines;
mod log;
mod machine;
mod made;
mod mini;
mod opening;
mod orders;
mod plan;
mod rows;
mod run;
mod sources;
mod steps;
mod told;
mod update;
mod values;

use course::Courses;
use kept::Kept;
use lines::Lines;
use rows::Core;
use std::alloc::Global;
use std::fs::Files;
use std::io;
use steps::Steps;
use tup_given::Project;
use tup_rows::{try_file, try_file_by};

fn main(rt: HostRuntime) -> io::Result<()> {
    let alloc = rt.alloc();
    try_commands(&rt, alloc)?;
    try_core(&rt, alloc)?;
    try_file_by(&rt, alloc, "kept.rows", Kept { rt })
}

fn try_commands<R: Files + Print>(rt: &R, alloc: Global) -> io::Result<()> {
    mini::try_rows(rt, alloc)?;
    access::try_rows(rt, alloc)?;
    clean::try_rows(rt, alloc)?;
    log::try_rows(rt, alloc)?;
    try_file(rt, alloc, "lines.rows", &mut Lines)?;
    try_file(rt, alloc, "steps.rows", &mut Steps)
}

fn try_core<R: Files + Print>(rt: &R, alloc: Global) -> io::Result<()> {
    let project = Project::new(alloc);
    try_file(rt, alloc, "core.rows", &mut Core { project })?;
    try_file(rt, alloc, "course.rows", &mut Courses::new(alloc))
}
