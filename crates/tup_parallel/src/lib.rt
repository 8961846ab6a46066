//! A whole update on several threads.
//!
//! `drain_by` has a crew of runners run all that can be run on a board, each at a seat of its own, and then drains the
//! board at seat 0, as an update on one thread does: that call says what the update came to. A crew of one takes no lock
//! and starts no thread.
#![tactic(auto)]

mod drain;
mod hands;
mod worked;

pub use drain::{Drainings, drain_by};
