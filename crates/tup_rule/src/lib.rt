//! Rules: one command each, with the files that it reads and makes, and which rule makes a path.
//!
//! What a rule declares and writes is exact, and takes no memory. Its name and its label are exact
//! copies, which are refused for want of memory alone. A `Reading` is what the reading of a Tupfile
//! leaves: drafts of rules, and what it asked about the project with what it was told.
#![tactic(auto)]

mod answered;
mod by_path;
mod draft;
mod fault;
mod question;
mod rule;

pub use answered::Answered;
pub use by_path::{Makers, makers, producers_of};
pub use draft::{Draft, Drafts, GroupRef, GroupRefs, Piece, Pieces};
pub use fault::RuleFault;
pub use question::{Kind, Noted, Question, Questions, Reading, Told};
pub use rule::{Rule, RuleName, Rules};
