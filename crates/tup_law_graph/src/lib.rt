//! What keeps a kept graph kept: scans, swaps of rules and edits of files; and which rules an update has to run.
//!
//! All of it are laws over the definitions of a graph, for the update that stands on them.
#![tactic(auto)]

mod edits;
mod linked;
mod reach;
mod transactions;

pub use edits::{edits_keep_sites, edits_keep_worlds, more_is_kept};
pub use linked::{declared_are_there, linked_have_own_names};
pub use reach::{flagged_is_reached, nothing_is_left, nothing_is_reached, scanned_is_reached};
pub use transactions::{
    kept_fits, scan_agrees, scan_keeps, swap_fits, swap_keeps, swap_sees_sources,
};
