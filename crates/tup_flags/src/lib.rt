//! Percent flags: what `%f` and its kin stand for in a rule line.
//!
//! `expand` gives exactly what `specs/Expansion.antt` says. The text is cut into bytes, flags and
//! groups by `specs/Part.antt`, and what each flag is and where it may stand is the table in
//! `specs/Flag.antt`.
#![tactic(auto)]

mod answer;
mod expansion;
mod fault;
mod flag;
mod mark;
mod parts;
mod shown;

pub use expansion::{expand, expand_in_turn};
pub use fault::FlagFault;
pub use parts::{FlagParts, Place};
