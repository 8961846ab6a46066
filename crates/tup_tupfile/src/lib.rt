//! The reading of one folder's Tupfile, whole: what it asks about the project, and the rules or the
//! first fault in it.
//!
//! `specs/Reading.antt` says what a Tupfile reads as: a process that asks and goes on, which names
//! nobody who answers. So a reading depends on the answers to its own questions alone, and on
//! nothing else (`reading_is_local`), and the list of its questions with what was told tells what
//! it came to (`logs_tell_readings`). Who answers, `Env`, and the ends of a reading, `ReadEnd` and
//! `ParseFault`, stand in `tup_query`; what a rule line comes to stands in `tup_rule_line`.
#![tactic(auto)]

mod conditional;
mod file;
mod kind;
mod laws;
mod opening;
mod read;
mod reading;
mod setting;

pub use laws::{logs_tell_readings, reading_is_local, readings_are_sound};
pub use read::read_tupfile;
