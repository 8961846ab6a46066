//! The plan of an update, if a board may run it.
//!
//! `plan_over` makes the plan that runs the flagged rules of a graph, and tests what a board wants of it. A site of real
//! files tells contracts nothing, so the tests are done in each update: the rules that are to be run are those that are
//! flagged; each of their outputs can be a file beside all other files, and has one maker; and no rule names an output
//! twice. Where a test fails no plan may be run.
#![tactic(auto)]

mod makers;
mod once;
mod place;
mod plan;

pub use plan::plan_over;
