//! A board as what lies under a lock.
use crate::logged::Logged;
use crate::seat::Seat;
use tup_board::Board;
use tup_core::CoreEvent;
use tup_runner::Runner;
use tup_site::Site;

/// A seat of a board under a lock.
pub type BoardSeat<S, R> = Seat<Board<S, R>>;

impl<S: Site, R: Runner> Logged for Board<S, R> {
    ghost use Rattle.tup_board.specs.Board.{seat_of as seat_at};
    ghost use Rattle.tup_lock.specs.Boards.{board_origin, board_history, board_knows, board_stood};

    type Event = CoreEvent;

    ghost seat_of = { seat_at };

    ghost history = { board_history };

    ghost origin = { board_origin };

    ghost knows = { board_knows S.tells S.known };

    ghost stood = { board_stood S.faults };
}
