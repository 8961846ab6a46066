//! A site over the real files below one folder: the edge of the program, which tells nothing.
//!
//! The files are the regular files and the links all of whose names are visible, at most 32 names
//! deep. A link is never followed, written or removed: it is a file that holds where it leads. A new
//! file may be run just where its content is a program. The store is `.tup/db`. What is proved is
//! safety, the refusals, the count of faults, that nothing is done without the lock, what a link holds,
//! which contents are programs, and what is to be made durable; what the system does is tested.
#![tactic(auto)]

mod answers;
mod commits;
mod emptied;
mod failures;
mod note_disk;
mod note_file;
mod notes;
mod once;
mod program;
mod reading;
mod site;
mod state;
mod tree;
mod writing;

pub use once::OnceSite;
pub use site::{FsSite, QUIET_SECONDS};
pub use tup_disk::{Failure, Syncs};
