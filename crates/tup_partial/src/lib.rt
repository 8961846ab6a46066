//! What an update has to run.
//!
//! `plan_of` gives the plan of an update: the rules of a graph, of these the flagged ones with all that recorded reads
//! lead to from them, and the rules that name what these make.
#![tactic(auto)]

mod fault;
mod laws;
mod near;
mod planning;

pub use fault::PartialFault;
pub use laws::{flags_are_of_rules, kept_reach_is_flagged};
pub use planning::plan_of;
