//! The access log of a started program: what it asked, what it wrote, and how it ended.
//!
//! `write_log` spells the lines of a log and `read_log` reads them: what reads is what its lines are written as, and
//! what is refused is no log. `BadLine` names the first line that doesn't fit. `laws` says that a log has one spelling.
#![tactic(auto)]

mod cut;
mod fault;
mod fields;
mod laws;
mod line;
mod number;
mod read;
mod write;

pub use fault::LogFault;
pub use laws::{one_spelling, refused_is_no_log};
pub use line::LogLine;
pub use read::read_log;
pub use write::write_log;
