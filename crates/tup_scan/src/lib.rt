//! The stamps of all files of a site.
//!
//! `scan` gives what a site's tree holds: each path with the stamp of its content, in the order of paths, and the content
//! of tup.config. It changes nothing and adds nothing to what a crash may leave.
#![tactic(auto)]

mod fault;
mod pulse;
mod room;
mod scanning;
mod seen;

pub use fault::ScanFault;
pub use pulse::{Pulse, Still};
pub use room::has_room;
pub use scanning::scan;
pub use seen::{Seen, Stamps};
