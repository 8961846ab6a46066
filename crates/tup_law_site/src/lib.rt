//! What keeps a kept site kept: each call of a graph over it, and each call that changes a file whose path is unsure.
//!
//! All of it are laws, from what the calls ensure, for the update that makes them. Each speaks of every world that a crash since
//! some moment may leave: it is kept, has the sources of the world that was there first, and holds its own as that one did.
#![tactic(auto)]

mod calls;
mod files;
mod notes;

pub use calls::{calls_keep_present, calls_keep_sites, openings_keep_sites, reads_keep_sites};
pub use files::files_keep_sites;
pub use notes::{notes_keep_sites, notes_leave_fitting};
