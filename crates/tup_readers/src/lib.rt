//! Who asked what: the nodes of a graph with what leads back from a path to those that use it.
//!
//! `Indexed` has the nodes, the prints of the paths that their rules and records name, and the rules whose records may no longer
//! tell what is seen. The numbers beside the print of a path are few, and all that use it are among them; so who asks a path, who
//! wrote it and who names it takes a look into these rules or records. Contracts see the nodes alone; the type keeps that all
//! this is what the rules and records give, through every edit and every refusal. Which folders asked a question is found out
//! when that is asked.
#![tactic(auto)]

mod askers;
mod indexed;
mod seen;
mod suspects;
mod users;

pub use indexed::Indexed;
