//! The course of an update: a plan, and all that happened since it began.
//!
//! A `Course` has a core (`tup_core`), the rules that may be claimed (`Turn`) and the history of events. It hands out
//! the first rule that is ready, takes what a command asks for and how it ends, and stops. Whatever was done, the history
//! is a run of the core from its opening, and the core is that run's end (`specs/Course.antt`). Claims, stops and the
//! ends of commands that were denied an ask take no memory: the room for them is made before (`specs/Room.antt`).
//!
//! A core says of one rule whether it may be claimed. `Turn` stands beside it and has a mark at just the rules that may be
//! claimed unless something is stopped (`specs/Turn.antt`), so the first of them is found in as many steps as the number of
//! rules has digits, and a rule that is done costs what it lets go.
//!
//! It knows no site and no store: what a command is answered, and what is kept of it, is its caller's.
#![tactic(auto)]

mod claimed;
mod course;
mod marks;
mod taking;
mod turn;

pub use claimed::Claimed;
pub use course::{Course, Events};
pub use turn::Turn;
