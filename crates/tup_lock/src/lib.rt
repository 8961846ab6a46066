//! A board that several threads share, under a lock.
//!
//! A slot holds the board while a word is 0. The seat that sets the word to 1 takes the board out, and puts it back before
//! the word is 0 again. What each seat knows is kept in proofs alone: the board as the seat left it, on which only other
//! seats have gone on since. So what its own entries tell holds at the seat's next call too.
//!
//! The lock and its seats (`SeatLock`, `Seat`) are for any value with all that happened on it (`Logged`). A `GraphLock` is
//! that of the board of an update: each call of `Shared` waits until no other seat is in, makes the board's call of that
//! name at the seat's number, and lets the lock go.
#![tactic(auto)]

mod board;
mod close;
mod ends;
mod graph_lock;
mod lock;
mod logged;
mod open;
mod rule;
mod seat;
mod seat_lock;
mod shared;
mod view;

pub use board::BoardSeat;
pub use graph_lock::GraphLock;
pub use lock::{Lock, LockFault, Place};
pub use logged::Logged;
pub use seat::Seat;
pub use seat_lock::SeatLock;
pub use view::View;
