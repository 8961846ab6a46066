//! The words of the Tupfile language: lines, the parts of a rule, and what a fault is called.
#![tactic(auto)]

mod blank;
mod fault;
mod kind;
mod line;
mod parts;
mod sides;
mod span;
mod word;

pub use blank::trimmed;
pub use fault::LexFault;
pub use kind::ParseKind;
pub use line::{Line, Lines, MAX_LINE, is_long, last_line, line_number, lines, says_something};
pub use parts::{Parts, rule_parts};
pub use span::{Span, Spans};
