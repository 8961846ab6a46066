//! The readings of a project's folders, where a graph keeps what they were read as before.
//!
//! `refresh` reads the folders that are flagged, and those to which something is answered otherwise
//! than they were told, and no others; what they ask the contents of, it asks the site for. With what
//! the graph keeps of the others these are the readings of the present sources, so the first fault and
//! the first circle are those that reading all folders meets. `specs/Refresh.antt` says which folders
//! are read, and what a kept reading has to be.
#![tactic(auto)]

mod asking;
mod fault;
mod fetched;
mod found;
mod gone;
mod idle;
mod laws;
mod outline;
mod part;
mod refreshed;
mod refreshing;
mod standing;
mod walk;

pub use fault::RefreshFault;
pub use idle::is_idle;
pub use laws::{
    readings_are_true_records, refreshed_as_read, true_records_serve, untouched_are_not_read,
};
pub use refreshed::Refreshed;
pub use refreshing::refresh;
