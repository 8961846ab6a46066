//! The board of an update: it runs a plan over a site, one event after another, and is safe at every moment.
//!
//! A `Board` owns the site, the graph, the core and the history of events. Seats are driven through it: `claim` gives a
//! seat the first rule that is ready, `ask` answers what the rule's command asks for, and `finish` takes what it made
//! into the tree and the store. `drain` does all of that on one thread.
//!
//! Whatever was done, the history is a run of the core from the board's opening, and an honest one; the tree has what
//! the core says; and what a crash at any moment may leave is said of each rule by itself (`specs/Sound.antt`,
//! `specs/Images.antt`).
#![tactic(auto)]

mod access;
mod answers;
mod ask;
mod board;
mod contents;
mod desk;
mod drain;
mod finish;
mod record;
mod seat;
mod shared;

pub use answers::{Asked, BoardParts, Drained};
pub use board::Board;
pub use seat::{Refused, answer, refusal};
pub use shared::Shared;
pub use tup_rule_outputs::BoardFault;
pub use tup_schedule::{Claimed, Events};
