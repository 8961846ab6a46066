//! What new readings and new rules change of a graph.
//!
//! `swap_rules` takes the readings of folders that were read anew and the rules that are linked of all readings. A rule
//! that is the same as one before keeps its record and its flag, whatever its number is now; every other one is to be run,
//! and so is all that recorded reads lead to from what a new rule makes. The laws say what its edits leave of a graph, and
//! that a table that takes them stands for that graph.
#![tactic(auto)]

mod asked;
mod before;
mod clearing;
mod laws;
mod owners;
mod putting;
mod running;
mod swap;

pub use laws::{swap_edits_are_read, swap_edits_lead, swap_edits_leave};
pub use swap::{Refreshed, swap_rules};
