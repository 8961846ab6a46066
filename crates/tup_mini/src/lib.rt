//! The small commands that come with the program: what each does next is exactly its definition.
//!
//! `Mini` is the runner of these commands: it follows them through a view, ask by ask, so what it
//! means is `mini_next` of `specs/Means.antt`, a function of the steps that are left and the
//! answers so far. Contents are joined once, as they are read.
#![tactic(auto)]

mod doing;
mod expand;
mod kept;
mod mini;
mod step;
mod steps;
mod stopped;
mod word;
mod written;

pub use mini::Mini;
pub use word::words;
