//! Which rules read what other rules make, by the records of their last good runs.
//!
//! `above` gives the rules that recorded reads lead to from some roots, over any number of reads: exactly those of the
//! definition, in ascending order. It asks a graph that knows who asked what, and counts its `Steps`: one for each root, and
//! one for each rule that reads an output of a rule that it has come to. `Lists` are values in lists, one list for each path.
#![tactic(auto)]

mod count;
mod laws;
mod lists;
mod steps;
mod walk;

pub use count::rule_count;
pub use laws::runs_are_of_rules;
pub use lists::Lists;
pub use steps::Steps;
pub use walk::above;
