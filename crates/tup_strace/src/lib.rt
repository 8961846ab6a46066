//! What a traced command asks for and writes.
//!
//! `acts_of` follows the calls of a trace, each process in its working folder, and gives what they do to places, exactly
//! as `specs/Watch.antt` says. Places are texts in which links aren't resolved; whoever has the files resolves them to paths.
//! `accounted` gives what was asked for, each path once and none that the command wrote itself, and what was written, in the
//! order of first writing, exactly as `specs/Account.antt` says. `accounts_tell` says which paths these are without the steps in
//! between.
#![tactic(auto)]

mod account;
mod act;
mod acts;
mod by_process;
mod folders;
mod laws;
mod linked;
mod names;
mod once;
mod said;
mod watch;

pub use account::{Account, Step, accounted};
pub use act::{Act, Answer};
pub use laws::accounts_tell;
pub use once::Once;
pub use watch::acts_of;
