//! Linking: the readings of all folders become the rules of the project.
//!
//! `link` puts the members of groups into commands and inputs, and gives just the rules that
//! `specs/Linked.antt` defines, or the first fault of `specs/Faults.antt`, each exact with its cause. No
//! rule that it gives waits for itself. Its time is that of the readings, the rules and their declared
//! inputs, times a logarithm.
#![tactic(auto)]

mod circle;
mod fault;
mod groups;
mod limits;
mod linking;
mod makers;
mod missing;
mod order;
mod placed;
mod places;
mod repeats;
mod rules;
mod texts;
mod walk;

pub use fault::{LinkFault, RuleNames, What};
pub use linking::link;
