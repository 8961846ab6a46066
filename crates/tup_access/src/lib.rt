//! The judge of a command: what it may read, and what its end is worth.
//!
//! `allowed` and `judge` are exact: they give what `specs/Access.antt` and `specs/Judge.antt` say, and
//! are refused for want of memory alone. So a loop that asks `allowed` at each ask of a command, and
//! `judge` at its end, gives the verdict of `specs/Verdict.antt`.
#![tactic(auto)]

mod access;
mod fault;
mod inputs;
mod judging;
mod refusal;
mod verdict;

pub use access::{MAX_ASKS, allowed};
pub use fault::AccessFault;
pub use inputs::{Inputs, add_paths};
pub use judging::judge;
pub use verdict::{Access, Verdict};
