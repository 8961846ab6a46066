//! What the store is told of a Good command.
ghost use Rattle.std.specs.Prelude.{◌≡◌, Ok, IfOk, map};
ghost use Rattle.tup_path.specs.Resolve.{resolve};
ghost use Rattle.tup_core.specs.Honest.{stamped};
ghost use Rattle.tup_board.specs.Ends.{IsNamed, AreNamed, AreRecorded};

use std::alloc::{AllocError, Global};
use tup_core::{Running, Stamps};
use tup_path::{Bytes, Files, Items, Path, PathFault, Text};
use tup_record::{Asks, RunRecord};
use tup_rule::Rule;
use tup_stamp::{Stamp, stamp_of};

/// The record of what a seat runs, if it ends with these files.
pub(crate) fn record_of(
    alloc: Global,
    rule: &Rule,
    running: &Running,
    files: &Files,
) -> Result<RunRecord, AllocError>
    requires { AreNamed rule.now.dir running.now.asks }
    ensures asks { IfOk result (λ run. AreRecorded rule.now.dir running.now.asks run.asks) }
    ensures writes { IfOk result (λ run. run.writes ≡ map stamped files.now) }
{
    Ok(RunRecord {
        asks: paths_of(alloc, &rule.dir, running.asks.as_slice())?,
        writes: stamps_of(alloc, files.as_slice())?,
    })
}

/// Asks by the paths that their texts name.
fn paths_of(alloc: Global, dir: &Path, asks: &[(Text, Option<Stamp>)]) -> Result<Asks, AllocError>
    requires { AreNamed dir.now asks.now }
    ensures { IfOk result (AreRecorded dir.now asks.now) }
{
    let mut paths = Items::new(alloc);
    for ask in asks {
        paths.push((named(alloc, dir, &ask.0)?, ask.1))?;
    }
    Ok(paths)
}

/// The path that a text names.
fn named(alloc: Global, dir: &Path, text: &Text) -> Result<Path, AllocError>
    requires { IsNamed dir.now text.now }
    ensures { IfOk result (λ path. resolve dir.now text.now ≡ Ok path) }
{
    match Path::resolve(alloc, dir, text) {
        Ok(path) => Ok(path),
        Err(PathFault::Memory) => Err(AllocError),
        Err(_) => unreachable!(),
    }
}

/// Files with the stamps of their contents.
fn stamps_of(alloc: Global, files: &[(Path, Bytes)]) -> Result<Stamps, AllocError>
    ensures { IfOk result (λ stamps. stamps ≡ map stamped files.now) }
{
    let mut stamps = Items::new(alloc);
    for file in files {
        stamps.push((file.0.clone()?, stamp_of(file.1.as_slice())))?;
    }
    Ok(stamps)
}
