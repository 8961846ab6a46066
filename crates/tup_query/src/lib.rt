//! A reading as a process: it asks something about the project and goes on with what it is told, or
//! it ends with a value or a fault.
//!
//! `specs/Reads.antt` says what such a process is, and `specs/Went.antt` what is known of a call that
//! goes the way of one: what it comes to, that it stops just where who answers has stopped, and that
//! the log has what was told. Each question is asked once; later it is answered from the log. So what
//! is said of a reading names nobody who answers. A text with its variables is the first thing that
//! is read so.
#![tactic(auto)]

mod ask;
mod env;
mod fault;
mod key;
mod log;
mod settings;
mod spot;
mod text;

pub use ask::{content_at, kind_at, names_at, setting_of};
pub use env::Env;
pub use fault::{ParseFault, ReadEnd};
pub use log::Log;
pub use spot::Spot;
pub use text::{expanded, var_end};
