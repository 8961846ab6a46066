//! The work of a crew on a board.
ghost use Rattle.std.specs.Prelude.{◌≡◌, [], length};
ghost use Rattle.tup_board.specs.Board.{plan_of};
ghost use Rattle.tup_lock.specs.Boards.{board_log};
ghost use Rattle.tup_lock.specs.Seats.{AreNew};
ghost use Rattle.tup_parallel.specs.Hands.{HasRoom};
ghost use Rattle.tup_parallel.specs.Parallel.{IsCrew, Leaves};

use crate::hands::{Room, hands_of, parted};
use std::alloc::Global;
use std::sync::Wait;
use std::thread::Threads;
use tup_board::Board;
use tup_core::Plan;
use tup_lock::{BoardSeat, GraphLock};
use tup_runner::Runner;
use tup_site::Site;
use tup_workers::{Open, crew};

/// A crew of so many takes no lock.
const ALONE: usize = 1;

/// Has a crew of several work on a board on which nothing happened, until each worker saw that all is over. Where there is
/// no memory for that, nothing happens.
pub(crate) fn worked<W: Threads + Wait + Sync, S: Site + Send, R: Runner + Send>(
    rt: &W,
    alloc: Global,
    board: Board<S, R>,
    plan: &Plan,
    crew: Vec<R>,
) -> (Board<S, R>, Vec<R>)
    requires plan { plan.now ≡ plan_of board }
    requires none { board.history ≡ [] }
    requires crew { IsCrew crew.items }
    ensures leaves { Leaves S.Site.own R.Runner.own plan.now board result.0 crew.items result.1.items }
    ensures alone { length crew.items ≡ 1 → (result.0 ≡ board) × (result.1.items ≡ crew.items) }
{
    if crew.len() == ALONE {
        return (board, crew);
    }
    let Ok(room) = Room::of(alloc, crew.len()) else {
        return (board, crew);
    };
    match GraphLock::new(alloc, rt, board, crew.len() as u32) {
        Ok((lock, seats)) => under_lock(rt, alloc, lock, plan, seats, crew, room),
        Err((board, _)) => (board, crew),
    }
}

/// The same under a lock, at its seats. It takes no memory.
fn under_lock<W: Threads + Wait + Sync, S: Site + Send, R: Runner + Send>(
    rt: &W,
    alloc: Global,
    lock: GraphLock<S, R, &W>,
    plan: &Plan,
    seats: Vec<BoardSeat<S, R>>,
    runners: Vec<R>,
    room: Room<BoardSeat<S, R>, R>,
) -> (Board<S, R>, Vec<R>)
    requires seats { AreNew (board_log S.Site.own) lock.lock lock.lock.first.value seats.items }
    requires none { lock.lock.first.value.history ≡ [] }
    requires plan { plan.now ≡ plan_of lock.lock.first.value }
    requires count { length runners.items ≡ length seats.items }
    requires room { HasRoom (length seats.items) room }
    ensures { Leaves S.Site.own R.Runner.own plan.now lock.entry.lock.first.value result.0 runners.items result.1.items }
{
    let mut hands = hands_of(room.hands, seats, runners);
    crew(rt, alloc, &lock, hands.as_mut_slice(), plan, &Open);
    let (seats, runners) = parted(hands, room.seats, room.runners);
    (lock.close(seats), runners)
}
