//! The real files below a folder: their places, what stands there, and all of them in order.
//!
//! The files are the regular files and the links all of whose names are visible, at most 32 names
//! deep. No link is followed. What is proved is which place belongs to which path, that the files come
//! in order, that each refusal of the system is told as such, what is to be made durable, and that
//! nothing settles after a write that was lost; what stands on the disk no clause says. The program's own folder is held open:
//! what is removed in it is named through the open folder.
#![tactic(auto)]

mod disk;
mod failure;
mod handles;
mod listing;
mod mount_list;
mod standing;
mod stat;
mod sums;
mod syncing;
mod system;
mod timed;
mod touched;

pub use disk::{Disk, Syncs, place_below};
pub use failure::{Failure, Operation, Refused, told};
pub use handles::{Held, held_at, own_folder, stages};
pub use listing::{Listed, Listing};
pub use mount_list::{Mount, mounts};
pub use standing::{Seen, Standing, standing_at};
pub use stat::{Inode, Stat};
pub use sums::{sum, sum_behind};
pub use touched::Touched;
