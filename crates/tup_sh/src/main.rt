//! `tup_sh`: a shell command over real files, with the log of what it really read and wrote.
//!
//! The command runs under `strace` in namespaces of its own and sees the project through an overlay: whatever it writes
//! goes into the stage, and no source changes. What stands here is tested, and proved to be safe; what a trace says is read
//! by `tup_trace` and followed by `tup_strace`, whose contracts are exact. Who starts it checks its log.
#![tactic(auto)]

mod changed;
mod check;
mod entries;
mod ground;
mod job;
mod links;
mod listed;
mod listing;
mod log;
mod mark;
mod pointed;
mod programs;
mod script;
mod seen;
mod stage;
mod start;
mod tell;
mod update;
mod upper;
mod walk;
mod way;
mod writes;

use check::{folder, look};
use job::{Job, run};
use std::alloc::Global;
use std::process::ExitCode;
use tup_child::{Failure, read_words};

fn main(rt: HostRuntime) -> ExitCode {
    let alloc = rt.alloc();
    let status = match read_words(&rt, alloc) {
        Some(words) => {
            let stderr = rt.stderr();
            status(
                rt,
                run(&Job {
                    rt,
                    alloc,
                    words,
                    stderr,
                }),
            )
        }
        None => checked(rt, alloc),
    };
    ExitCode::from(status)
}

/// The exit number where the words are no command's: they may ask for a check.
fn checked(rt: HostRuntime, alloc: Global) -> u8 {
    match folder(&rt, alloc) {
        Some(folder) => status(rt, look(&rt, alloc, &folder)),
        None => {
            // A line that can't be printed changes nothing: the exit number tells as much.
            drop(println!(rt; "usage: tup_sh ROOT DIR STAGE TEXT, or tup_sh --check [DIR]"));
            2
        }
    }
}

/// The exit number, with the line that is printed of a failure.
fn status(rt: HostRuntime, done: Result<u8, Failure>) -> u8 {
    match done {
        Ok(status) => status,
        Err(failure) => failed(rt, &failure),
    }
}

/// The exit number of a failure, with its line unless the cause was printed.
fn failed(rt: HostRuntime, failure: &Failure) -> u8 {
    if !matches!(failure, Failure::Told) {
        drop(eprintln!(rt; "tup_sh: {failure}"));
    }
    1
}
