//! Which files a fault of a Tupfile is about.
//!
//! A fault has a line and a kind, and names no file. So its folder is read once more, by one who notes what was asked last. What
//! stands there is then told otherwise, and the folder is read again, as long as that finds another file of the same kind of fault.
//! What comes of it is for people to read: no clause says what it is.
#![tactic(auto)]

mod noting;
mod search;
mod walk;

pub use search::{Culprit, culprits};
