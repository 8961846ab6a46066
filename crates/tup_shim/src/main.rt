//! `tup_shim`: one small command over real files, with the log of what it asked and wrote.
//!
//! It shows what a program does that a runner of started programs starts. What stands here is proved to be
//! safe and was tried by hand, but it makes no promise of its own: who starts it checks its log.
#![tactic(auto)]

mod job;
mod project;

use job::run;
use std::process::ExitCode;
use tup_child::{Failure, read_words};

fn main(rt: HostRuntime) -> ExitCode {
    let alloc = rt.alloc();
    let Some(words) = read_words(&rt, alloc) else {
        // A line that can't be printed changes nothing: the exit number tells as much.
        drop(println!(rt; "usage: tup_shim ROOT DIR STAGE TEXT"));
        return ExitCode::from(2);
    };
    ExitCode::from(status(rt, run(&rt, alloc, &words)))
}

/// The exit number, with the line that is printed of a failure.
fn status(rt: HostRuntime, done: Result<(), Failure>) -> u8 {
    match done {
        Ok(()) => 0,
        Err(failure) => {
            drop(eprintln!(rt; "tup_shim: {failure}"));
            1
        }
    }
}
