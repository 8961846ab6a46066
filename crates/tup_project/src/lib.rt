//! The rules of a whole project, or why it has none.
//!
//! `read_all` reads the Tupfiles of all folders (`tup_readings`), and `link_all` makes rules of what they read as
//! (`tup_link`). `specs/Project.antt` says what the sources of a project come to, which is one
//! thing. The rules can be built over the sources.
#![tactic(auto)]

mod fault;
mod laws;
mod project;

pub use fault::ProjectFault;
pub use laws::one_project;
pub use project::{link_all, read_all};
