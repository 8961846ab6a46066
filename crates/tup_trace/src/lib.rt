//! The trace of a started program, as `strace` writes it: a call on each line, its process in front.
//!
//! `calls` reads a trace exactly as `specs/Trace.antt` says: each line is cut into its words, its texts in quotes and its
//! places in angles, and a line that resumes a call is joined with the one that began it. `BadLine` names the first line
//! that doesn't read. `unquoted` reads a text in quotes, and `quoting_reads_back` says that it inverts how it was written.
#![tactic(auto)]

mod call;
mod fault;
mod laws;
mod quoting;
mod reading;
mod token;
mod trace;

pub use call::Call;
pub use fault::TraceFault;
pub use laws::quoting_reads_back;
pub use quoting::unquoted;
pub use token::Token;
pub use trace::calls;
