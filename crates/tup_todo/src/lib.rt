//! What an update would do, found out without doing it.
//!
//! `todo_site` brings the graph of a site up to date as an update does, and then lists the files that no rule makes any
//! more and the rules that have to be run. It changes no file. What it commits an update need not find out again: one that
//! begins there does what was listed.
#![tactic(auto)]

mod behind;
mod listing;
mod todo;

pub use behind::{what_is_listed_is_done, what_is_listed_was_read};
pub use listing::DueRule;
pub use todo::{Todo, todo_site};
