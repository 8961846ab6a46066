//! A large project in memory, and what calls of the program take over it.
//!
//! `large` makes a project of N folders of ten sources each. It begins it, updates it, edits it and
//! compares it, and shows the last line of each call. The calls are a history (`tup_history`) from
//! that project's site, so each of them keeps what the program promises of a call. The files of
//! whoever asks aren't touched.
#![tactic(auto)]

mod folder;
mod lines;
mod number;
mod project;
mod show;
mod turns;

pub use show::{Shown, large};
