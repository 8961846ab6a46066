//! The files that rules made and no rule makes any more.
//!
//! `clear` removes them, and then the graph owns their paths no longer. A file that isn't what was written is the user's:
//! it is refused before anything is changed.
#![tactic(auto)]

mod clearing;
mod fault;
mod looking;
mod removing;

pub use clearing::clear;
pub use fault::StaleFault;
