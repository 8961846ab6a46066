//! The outside, which can fail: a tree of files and a store, behind one small interface.
//!
//! `Site` says what each call does to both, when it may be refused, and what a crash may leave at
//! each moment. `MemSite` is a site in memory, which tells everything: its clauses say exactly what
//! each call does and which one fails.
#![tactic(auto)]

mod bytes;
mod change;
mod choice;
mod crash;
mod fault;
mod first;
mod known;
mod limits;
mod memory;
mod memory_calls;
mod place;
mod refused;
mod site;
mod tear;
mod unsettled;

pub use choice::{Changed, Choice, Deed};
pub use fault::SiteFailed;
pub use limits::{Limits, MAX_DISK_FILE_BYTES, MAX_FILE_BYTES};
pub use memory::MemSite;
pub use refused::MemRefused;
pub use site::Site;
pub use tear::Tear;
