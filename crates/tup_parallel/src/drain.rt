//! An update that is run by a crew.
ghost use Rattle.std.specs.Prelude.{◌≡◌, ◌<◌, ℕ, [], None, All, IsTrue, false, length};
ghost use Rattle.tup_path.specs.Tree.{Tree};
ghost use Rattle.tup_core.specs.Kept.{Kept};
ghost use Rattle.tup_core.specs.Sound.{IsAcyclic};
ghost use Rattle.tup_core.specs.declared.event.Cause.TheVariants.{Run};
ghost use Rattle.tup_board.specs.Board.{plan_of, seat_of, state};
ghost use Rattle.tup_board.specs.Calls.{BuildsClean, Drains, IsOver};
ghost use Rattle.tup_parallel.specs.Parallel.{CrewRan, CrewStood, IsAlone, IsCrew, NoneFailed, OneFailed};

use crate::worked::worked;
use std::alloc::Global;
use std::sync::Wait;
use std::thread::Threads;
use tup_board::{Board, Drained};
use tup_core::Plan;
use tup_runner::Runner;
use tup_site::Site;

/// A board that a crew has drained, with the crew.
#[derive(Drop)]
pub struct Drainings<S: Site, R: Runner> {
    pub board: Board<S, R>,
    /// The runners, in their order.
    pub crew: Vec<R>,
    pub drained: Drained,
}

/// Runs all that can be run on a board on which nothing happened, each runner of a crew at the seat of its place.
///
/// What it comes to is what `Board::drain` says of it, in every order in which the seats get on. A crew of one does in all
/// as `Board::drain` does.
pub fn drain_by<W: Threads + Wait + Sync, S: Site + Send, R: Runner + Send>(
    rt: &W,
    alloc: Global,
    board: Board<S, R>,
    plan: &Plan,
    crew: Vec<R>,
) -> Drainings<S, R>
    requires plan { plan.now ≡ plan_of board }
    requires none { board.history ≡ [] }
    requires crew { IsCrew crew.items }
    ensures drains { Drains (state result.board) result.drained }
    ensures done { IsAcyclic plan.now.rules → result.drained ≡ Drained.Done
        → (number : ℕ) → (state result.board).pending number ≡ false }
    ensures clean { IsTrue S.tells → IsTrue R.tells → result.drained ≡ Drained.Done
        → (kept : Kept) (tree : Tree) → BuildsClean S.Site.own R.Runner.own result.board kept tree }
    ensures over { IsOver result.board }
    ensures opening { result.board.opening ≡ board.opening }
    ensures below { All (λ event. seat_of event < length crew.items) result.board.history }
    ensures many { length result.crew.items ≡ length crew.items }
    ensures ran { IsTrue R.tells_ran
        → CrewRan R.ran plan.now result.board.history crew.items result.crew.items }
    ensures stood { CrewStood R.faults result.board.history crew.items result.crew.items }
    ensures failed { result.drained ≡ Drained.Left Run
        → OneFailed R.faults crew.items result.crew.items }
    ensures steady { (state result.board).stopped ≡ None
        → NoneFailed S.Site.own R.faults board result.board crew.items result.crew.items }
    ensures alone { length crew.items ≡ 1
        → IsAlone S.Site.own R.Runner.own plan.now board result.board crew.items result.crew.items result.drained }
{
    let (mut board, mut crew) = worked(rt, alloc, board, plan, crew);
    let drained = board.drain(alloc, plan, &mut crew[0]);
    Drainings {
        board,
        crew,
        drained,
    }
}
