//! What rows give: the sources and the rules of a project, and what a command is answered.
#![tactic(auto)]

mod project;
mod replies;

pub use project::Project;
pub use replies::Replies;
