//! What a program that an update starts for one command stands on: its words, the project that it reads, and the stage
//! that it leaves its writes and its log in.
//!
//! It promises safety alone, as the programs over it do: who starts them checks their logs.
#![tactic(auto)]

mod failure;
mod tree;
mod words;

pub use failure::Failure;
pub use tree::{Tree, path_of};
pub use words::{Words, read_words};
