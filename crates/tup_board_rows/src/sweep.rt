//! An update that is stopped after each call of its site, and crashes; and the update after that.
use crate::clean::is_clean;
use crate::crash::crash;
use crate::desk::Desk;
use crate::opening::{board_of, next_board};
use crate::project::Given;
use crate::quiet::Quiet;
use std::alloc::Global;
use tup_board::BoardParts;
use tup_core::Cause;
use tup_rows::{RowFault, Words};
use tup_rule::Rule;
use tup_site::MemSite;

/// How many calls of its site an update may make.
const CALLS: u64 = 10_000;

/// What came of an update that is stopped.
#[derive(Clone, Copy, PartialEq, Eq)]
enum Outcome {
    /// It wasn't stopped before its end.
    Done,
    /// The next one left the clean build.
    Mended,
    /// It didn't.
    Other,
}

/// Stops an update of a reach after each call of its site, crashes then into each of three choices, and updates again.
/// The answer is how many calls the update makes, and `same` if each second update is done and leaves the clean build.
pub(crate) fn sweep(alloc: Global, given: &Given, said: &Words) -> Result<Words, RowFault> {
    for calls in 0..CALLS {
        match swept(alloc, given, said, calls)? {
            Outcome::Mended => {}
            Outcome::Done => return Ok(counted(alloc, calls, true)),
            Outcome::Other => return Ok(counted(alloc, calls, false)),
        }
    }
    Err(RowFault::OtherKind)
}

fn counted(alloc: Global, calls: u64, is_same: bool) -> Words {
    let mut words = Words::shown(alloc, &calls);
    words.put(alloc, sameness(is_same));
    words
}

fn sameness(is_same: bool) -> &'static [u8] {
    if is_same { b"same" } else { b"other" }
}

/// The same with each choice: the first that isn't mended.
fn swept(alloc: Global, given: &Given, said: &Words, calls: u64) -> Result<Outcome, RowFault> {
    for choice in 0..3 {
        let outcome = stopped(alloc, given, said, calls, choice)?;
        if outcome != Outcome::Mended {
            return Ok(outcome);
        }
    }
    Ok(Outcome::Mended)
}

/// Stops an update after so many calls of its site, crashes into a choice, and updates again.
fn stopped(
    alloc: Global,
    given: &Given,
    said: &Words,
    calls: u64,
    choice: u32,
) -> Result<Outcome, RowFault> {
    let parts = drained(alloc, board_of(alloc, given, said, calls)?);
    came_of(alloc, parts, given.project.rules.as_slice(), choice)
}

/// What a board is made of once all that can be run was run.
fn drained(alloc: Global, mut desk: Desk) -> BoardParts<Quiet> {
    let _ = desk.drain(alloc);
    desk.into_parts()
}

/// What came of an update: where the site had stopped it, of the one after a crash.
fn came_of(
    alloc: Global,
    parts: BoardParts<Quiet>,
    rules: &[Rule],
    choice: u32,
) -> Result<Outcome, RowFault> {
    match parts.cause {
        Some(Cause::Site) => crashed(alloc, site_in(parts), rules, choice),
        cause => {
            drop(parts);
            Ok(if cause.is_none() {
                Outcome::Done
            } else {
                Outcome::Other
            })
        }
    }
}

fn site_in(parts: BoardParts<Quiet>) -> MemSite {
    let BoardParts {
        site,
        graph,
        history,
        ..
    } = parts;
    drop(graph);
    drop(history);
    site.into_site()
}

/// What came of the update after a crash.
fn crashed(
    alloc: Global,
    mut site: MemSite,
    rules: &[Rule],
    choice: u32,
) -> Result<Outcome, RowFault> {
    match crash(alloc, &mut site, rules, choice) {
        Ok(()) => mended(alloc, site, rules),
        Err(fault) => {
            drop(site);
            Err(fault)
        }
    }
}

fn mended(alloc: Global, site: MemSite, rules: &[Rule]) -> Result<Outcome, RowFault> {
    Ok(if is_next_clean(alloc, site, rules)? {
        Outcome::Mended
    } else {
        Outcome::Other
    })
}

/// Whether the next update of a site is done and leaves the clean build.
fn is_next_clean(alloc: Global, site: MemSite, rules: &[Rule]) -> Result<bool, RowFault> {
    looked_at(alloc, drained(alloc, next_board(alloc, site)?), rules)
}

fn looked_at(
    alloc: Global,
    mut parts: BoardParts<Quiet>,
    rules: &[Rule],
) -> Result<bool, RowFault> {
    let is_done = is_done(alloc, &mut parts, rules);
    drop(parts);
    is_done
}

fn is_done(alloc: Global, parts: &mut BoardParts<Quiet>, rules: &[Rule]) -> Result<bool, RowFault> {
    Ok(is_clean(alloc, parts.site.beneath(), rules)? && parts.cause.is_none())
}
