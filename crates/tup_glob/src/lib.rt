//! Globs: patterns that the names of files match.
//!
//! `*` stands for any run of characters, `?` for one character, `[abc]`, `[a-z]` and `[^a]` for one
//! character of a set, or not of it; every other character stands for itself. Characters are Unicode
//! scalar values.
#![tactic(auto)]

mod chars;
mod fault;
mod fit;
mod glob;
mod read;
mod symbol;

pub use fault::GlobFault;
pub use glob::Glob;
pub use symbol::{Range, Ranges, Symbol, Symbols};
