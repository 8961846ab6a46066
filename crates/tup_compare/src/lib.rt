//! How the files of a site compare with a clean build of its sources.
//!
//! Read `compare`, which opens the store (`opening`), reads the files that are `found` there, builds
//! their rules beside them, and says where the two first differ.
#![tactic(auto)]

mod compare;
mod found;
mod opening;
mod unread;

pub use compare::{Compared, compare_site};
