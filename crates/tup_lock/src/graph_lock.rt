//! A board under a lock.
ghost use Rattle.std.specs.Prelude.{◌≡◌, ◌≤◌, ◌<◌, ℕ, [], None, length, slice_index_or, IfOk, IfErr, All};
ghost use Rattle.tup_board.specs.Board.{seat_of, state};
ghost use Rattle.tup_board.specs.Entries.{entries_at};
ghost use Rattle.tup_lock.specs.Boards.{board_log};
ghost use Rattle.tup_lock.specs.Seats.{AreSeatsOf, AreNew};

use crate::board::BoardSeat;
use crate::lock::LockFault;
use crate::seat_lock::SeatLock;
use std::alloc::Global;
use std::sync::Wait;
use tup_board::Board;
use tup_runner::Runner;
use tup_site::Site;

/// A board that up to 16 seats share. One seat at a time is let in.
#[derive(Drop)]
pub struct GraphLock<S: Site, R: Runner, W: Wait> {
    pub(crate) lock: SeatLock<Board<S, R>, W>,
    ghost within: { (0 < lock.seats) × (lock.seats ≤ 16) },
}

impl<S: Site, R: Runner, W: Wait + Drop> GraphLock<S, R, W> {
    /// A lock round a board on which nothing happened, with its seats, numbered from 0. Want of memory gives the board back.
    pub fn new(
        alloc: Global,
        rt: W,
        board: Board<S, R>,
        seats: u32,
    ) -> Result<(GraphLock<S, R, W>, Vec<BoardSeat<S, R>>), (Board<S, R>, LockFault)>
        requires seats { (0 < seats) × (seats ≤ 16) }
        requires none { board.history ≡ [] }
        ensures board { IfOk result (λ made. (made.0.lock.first.value ≡ board) × (made.0.lock.seats ≡ seats)) }
        ensures seats { IfOk result (λ made. AreNew (board_log S.Site.own) made.0.lock board made.1.items) }
        ensures memory { IfErr result (λ back. back ≡ (board, LockFault.Memory)) }
    {
        match SeatLock::new(alloc, rt, board, seats) {
            Ok((lock, made)) => Ok((GraphLock { lock }, made)),
            Err(back) => Err(back),
        }
    }

    /// The lock itself: its `with` lets a seat in to the board while no other is.
    pub fn seat_lock(&self) -> &SeatLock<Board<S, R>, W>
        ensures { result.now ≡ self.now.lock }
    {
        &self.lock
    }

    /// Takes the board out for good. The entries of each seat are those that the seat knows of, and no other seat has any.
    pub fn close(self, seats: Vec<BoardSeat<S, R>>) -> Board<S, R>
        requires seats { AreSeatsOf (board_log S.Site.own) self.lock seats.items }
        ensures opening { result.opening ≡ self.lock.first.value.opening }
        ensures steady { (state result).stopped ≡ None
            → ((state self.lock.first.value).stopped ≡ None) × (S.faults self.lock.first.value.site ≡ S.faults result.site) }
        ensures entries { (i : ℕ) (d : _) → i < length seats.items
            → entries_at i result.history ≡ entries_at i (slice_index_or seats.items i d).last.value.history }
        ensures no_others { All (λ event. seat_of event < self.lock.seats) result.history }
    {
        self.lock.close(seats)
    }
}
