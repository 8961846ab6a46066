//! What passes between a command and the files: what it asks for, what it is answered, how it ends.
//!
//! A `Runner` runs commands through a `View`. What it means is a function of the folder, the command and the answers so
//! far (`specs/Next.antt`), and belongs to its type. `perform` runs one command and reports what it asked; a `Report` is
//! the runner's meaning over its own asks, and is made by `perform` alone.
#![tactic(auto)]

mod fault;
mod ghost_asks;
mod performing;
mod recording;
mod report;
mod runner;
mod stamped;
mod step;
mod view;

pub use fault::{RunFailed, ViewFailed};
pub use performing::perform;
pub use report::Report;
pub use runner::Runner;
pub use stamped::Stamped;
pub use step::{Answer, Asks, Ended, Step, Writes};
pub use view::View;
