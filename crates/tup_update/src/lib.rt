//! One update of a project, over any site.
//!
//! `update_site` brings the graph of the site's store up to date (`tup_phases`) and runs on a board (`tup_board`) the rules
//! that are flagged then, and no others. What is up to date is skipped: where nothing changed, nothing is read, run or
//! written.
#![tactic(auto)]

mod because;
mod by_rule;
mod ended;
mod names;
mod run;
mod steps;
mod update;

pub use update::{Asked, Updated, update_site};
