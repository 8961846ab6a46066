//! Where an update's lines go, and who is told what it did.
//!
//! A `Sink` that tells what it holds has grown by all bytes of a write after Ok, and by a front of
//! them after a refusal. A `Reporter` keeps the events that it was told. The faults of both are
//! counted.
#![tactic(auto)]

mod boxed;
mod event;
mod keep;
mod keep_then_fail;
mod line_reporter;
mod memory;
mod reporter;
mod sink;
mod tally;
mod telling;

pub use event::Event;
pub use keep::Keep;
pub use keep_then_fail::KeepThenFail;
pub use line_reporter::LineReporter;
pub use memory::MemSink;
pub use reporter::{Reporter, TellFailed};
pub use sink::{Sink, SinkFailed};
pub use tally::Tally;
pub use telling::{Telling, tell};
