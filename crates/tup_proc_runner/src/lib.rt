//! A runner that starts a program for each command and reads its access log.
//!
//! The program gets a folder of its own, the stage, new for each command: the runner writes the rule's own outputs into it,
//! the program leaves what it wrote there, and its log. `ProcRunner` asks the view for what the log says that the program
//! asked, in order; the first answer that differs from the log is a fault that names the file. It tells its count of faults and nothing else. What the program
//! prints is kept in a file until it has ended, where it is to be shown in one piece.
#![tactic(auto)]

mod asking;
mod fault;
mod older;
mod place;
mod printed;
mod runner;
mod stage;
mod stages;
mod watch;

pub use fault::ProcFault;
pub use runner::ProcRunner;
pub use stages::Stages;
