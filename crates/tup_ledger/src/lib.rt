//! The paths that a build owns, as the store of a project keeps them.
//!
//! A file at an owned path is generated, and every other file is a source. `begin` makes the store
//! of a project, `open` opens it, `own` makes paths owned before files are put there, and `give_up`
//! ends that once the files are gone. Whenever a crash comes meanwhile, the store reads and the
//! sources are what they were.
#![tactic(auto)]

mod beginning;
mod giving;
mod laws;
mod lists;
mod opened;
mod owning;

pub use beginning::{Begun, begin};
pub use giving::give_up;
pub use laws::{empty_lists_nothing, lists_in_one_way};
pub use lists::sorted;
pub use opened::open;
pub use owning::{own, owned_paths};
