//! What a person sees while commands are run.
//!
//! `Progress` is a runner over a runner. It means what the inner one means, and shows each command on a `Screen` before it
//! is run, and what it printed once it has ended, where that is kept. What the screen does with a text changes nothing.
#![tactic(auto)]

mod lines;
mod plain;
mod progress;
mod screen;
mod started;

pub use lines::CLEAR;
pub use progress::{Manner, Progress};
pub use screen::{Around, Screen};
pub use started::Started;
