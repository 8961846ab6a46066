//! Workers at a board that seats share.
//!
//! A worker has a seat and a runner (`Hand`). `work` claims one rule after another and runs its command, until the board
//! is over; `crew` does so for all hands at once, each in a thread of its own where one can be made.
#![tactic(auto)]

mod asking;
mod claiming;
mod gate;
mod hand;
mod performing;
mod threads;
mod view;

pub use claiming::work;
pub use gate::{Gate, Open, When};
pub use hand::Hand;
pub use threads::crew;
