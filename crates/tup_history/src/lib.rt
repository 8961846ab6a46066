//! A project through a list of turns: edits, crashes and runs of the program.
//!
//! `history` carries out the turns over a site in memory. Its contract is that they are a history:
//! from turn to turn the site goes on, by an edit, by a crash into a world that a crash then may
//! leave, or by a run that keeps what the program promises of one.
#![tactic(auto)]

mod deed;
mod life;
mod run;
mod start;
mod turn;

pub use life::{Lived, history};
pub use start::new_sites_are_unbegun;
pub use turn::{End, Turn};
