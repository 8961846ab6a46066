//! Turn after turn.
ghost use Rattle.std.specs.Prelude.{◌≡◌, IfOk, OnErr, IfErr};
ghost use Rattle.tup_top.specs.Crew.{IsCrew};
ghost use Rattle.tup_history.specs.Deed.{IsUntouched, Refuses};
ghost use Rattle.tup_history.specs.History.{standing, EndsDeed, TakesRun, Takes, RefusesTurn, StandsAs, AreLived};
ghost use Rattle.tup_history.specs.Kept.{Stage, Stands};
ghost use Rattle.tup_history.specs.Stays.{AreKept};

use crate::deed::do_deed;
use crate::run::{begin, go_on, run};
use crate::turn::{End, Turn};
use std::alloc::Global;
use std::sync::Wait;
use std::thread::Threads;
use tup_path::Items;
use tup_runner::Runner;
use tup_site::{Deed, MemRefused, MemSite};
use tup_tell::Sink;
use tup_top::{Ran, Word};

/// What became of a list of turns.
#[derive(Drop)]
pub struct Lived<R> {
    pub site: MemSite,
    /// The runners, in their order.
    pub crew: Vec<R>,
    /// How each turn ended that was carried out, in order.
    pub ends: Items<End>,
    /// The place of the turn that was refused, counted from 0, and why. It changed nothing, and no
    /// turn behind it was carried out.
    pub refused: Option<(usize, MemRefused)>,
}

/// Carries out turns one after another, up to the first that is refused; the runners of the crew run
/// the commands, and each run prints its lines to `out`. The room for all ends is taken
/// before the first turn: without it this one is refused. A crew has 1 to 16 runners.
pub fn history<W: Threads + Wait + Sync, R: Runner + Send, K: Sink>(
    rt: &W,
    alloc: Global,
    site: MemSite,
    turns: Vec<Turn>,
    crew: Vec<R>,
    out: &mut K,
) -> Lived<R>
    requires crew { IsCrew crew.items }
    // A project that is kept before them, or in which nothing has begun, is kept behind each of them,
    // whatever a crash leaves; and each update of it that is done leaves exactly the files of a clean
    // build of its sources.
    ensures kept { let stands = standing R.Runner.own K.Sink.own in (stage : Stage)
        → Stands R.next stage site → AreKept R.tells R.next turns.items result.ends
        (stands site crew.items out.old) (stands result.site result.crew.items out.new) stage }
    ensures lived { let stands = standing R.Runner.own K.Sink.own in
        AreLived R.tells R.next turns.items result.ends result.refused
        (stands site crew.items out.old) (stands result.site result.crew.items out.new) }
{
    let mut ends = Vec::new(alloc);
    if ends.reserve(turns.len()).is_err() {
        return Lived {
            site,
            crew,
            ends: Items::from_vec(ends),
            refused: Some((0, MemRefused::Memory)),
        };
    }
    let mut life = Life { site, crew };
    for turn in turns {
        let Taken { life: next, end } = take_turn(rt, alloc, life, turn, out);
        life = next;
        match end {
            Ok(end) => ends.push_reserved(end),
            Err(why) => {
                return Lived {
                    refused: Some((ends.len(), why)),
                    site: life.site,
                    crew: life.crew,
                    ends: Items::from_vec(ends),
                };
            }
        }
    }
    Lived {
        site: life.site,
        crew: life.crew,
        ends: Items::from_vec(ends),
        refused: None,
    }
}

/// A site and its crew, between two turns.
#[derive(Drop)]
struct Life<R> {
    site: MemSite,
    crew: Vec<R>,
}

/// A turn that was carried out or refused, and what it left.
#[derive(Drop)]
struct Taken<R> {
    life: Life<R>,
    end: Result<End, MemRefused>,
}

/// Carries out a turn. After a refusal all is as before.
fn take_turn<W: Threads + Wait + Sync, R: Runner + Send, K: Sink>(
    rt: &W,
    alloc: Global,
    life: Life<R>,
    turn: Turn,
    out: &mut K,
) -> Taken<R>
    requires crew { IsCrew life.crew.items }
    ensures takes { let stands = standing R.Runner.own K.Sink.own in
        let from = stands life.site life.crew.items out.old in
        let to = stands result.life.site result.life.crew.items out.new in
        IfOk result.end (λ end. Takes R.tells R.next turn end from to) }
    ensures stays { let stands = standing R.Runner.own K.Sink.own in
        let from = stands life.site life.crew.items out.old in
        let to = stands result.life.site result.life.crew.items out.new in
        OnErr result.end (StandsAs from to) }
    ensures refused { IfErr result.end (RefusesTurn turn life.site) }
    ensures crew { IsCrew result.life.crew.items }
{
    match turn {
        Turn::Deed(deed) => take_deed(alloc, life, deed),
        Turn::Run { words, stop_after } => {
            let (life, end) = take_run(rt, alloc, life, words.as_slice(), stop_after, out);
            Taken { life, end: Ok(end) }
        }
    }
}

/// Does a deed. After a refusal all is as before.
fn take_deed<R>(alloc: Global, life: Life<R>, deed: Deed) -> Taken<R>
    ensures done { IfOk result.end (λ end. EndsDeed deed end life.site result.life.site) }
    ensures untouched { OnErr result.end (IsUntouched life.site result.life.site) }
    ensures refused { IfErr result.end (Refuses deed life.site) }
    ensures crew { result.life.crew.items ≡ life.crew.items }
{
    let Life { mut site, crew } = life;
    match do_deed(alloc, &mut site, deed) {
        Ok(()) => {
            let end = End {
                moment: site.moment(),
                status: None,
                ran: Items::new(alloc),
            };
            Taken {
                life: Life { site, crew },
                end: Ok(end),
            }
        }
        Err(why) => Taken {
            life: Life { site, crew },
            end: Err(why),
        },
    }
}

/// Runs the program.
fn take_run<W: Threads + Wait + Sync, R: Runner + Send, K: Sink>(
    rt: &W,
    alloc: Global,
    life: Life<R>,
    words: &[Word],
    stop_after: Option<u64>,
    out: &mut K,
) -> (Life<R>, End)
    requires crew { IsCrew life.crew.items }
    ensures takes { let stands = standing R.Runner.own K.Sink.own in
        let from = stands life.site life.crew.items out.old in
        let to = stands result.0.site result.0.crew.items out.new in
        TakesRun R.tells R.next words.now stop_after result.1 from to }
    ensures crew { IsCrew result.0.crew.items }
{
    let Life { mut site, crew } = life;
    begin(&mut site, stop_after);
    let Ran {
        status,
        mut site,
        crew,
        ran,
        ..
    } = run(rt, alloc, words, site, crew, out);
    go_on(&mut site, stop_after);
    let end = End {
        moment: site.moment(),
        status: Some(status),
        ran,
    };
    (Life { site, crew }, end)
}
