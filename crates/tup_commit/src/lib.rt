//! What a scan found, and what new readings and rules are, noted in the store of a project.
//!
//! `note_scan` makes what a scan changes of a graph in one commit: all of it or nothing, whenever a crash comes. `swap_rules`
//! does so with what new readings and new rules change. Both count the steps that they take; `uncounted` has them for
//! those who count nothing.
#![tactic(auto)]

mod laws;
mod note;
mod swap;
pub mod uncounted;

pub use laws::scans_see;
pub use note::note_scan;
pub use swap::swap_rules;
