//! What an update of a project answers, and what it promises of that.
//!
//! A `Log` says what an update did, and a `Stop` why it ended before its end. `specs/` has the promises themselves: what
//! every site and every runner can be blamed for (`Cause`), what the runner was given (`Ran`), and what becomes of a store
//! that is empty or can't be read (`Unopened`).
#![tactic(auto)]

mod fault;
mod log;
mod stop;

pub use fault::SourcesFault;
pub use log::{EndedRule, Log, Step};
pub use stop::Stop;
