//! The small project that `tup demo` shows: its files in a site of its own, and what they come to.
//!
//! That site is in memory and never fails. No call of a `SteadySite` is listed to fail, and it is never
//! stopped. It has room for the contents that it was made with, and for no others, and for 65,536 bytes
//! of a store: a `put` of another content, or a write past that, finds no memory. So no two contents of
//! one stamp meet in it, its count of failures is 0 for good, and its store is never full.
#![tactic(auto)]

mod build;
mod project;
mod steady;
mod steady_calls;

pub use build::{demo_asks, demo_builds};
pub use project::demo_project;
pub use steady::SteadySite;
