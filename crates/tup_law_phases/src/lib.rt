//! What the phases of an update give fits the graph that is kept.
//!
//! All of it are laws over definitions, for the update that stands on them: that there is a language of
//! Tupfiles, that a project which has just begun is kept, that what a refresh and linking give may be swapped
//! in and keeps a kept graph, and that the laws of the core hold of a kept graph.
#![tactic(auto)]

mod begun;
mod brought;
mod language;
mod planning;
mod skipped;
mod sources;
mod swapped;

pub use begun::beginnings_are_kept;
pub use brought::refreshed_fits;
pub use language::tupfiles_are_a_language;
pub use planning::{kept_for_core, kept_is_planned};
pub use skipped::kept_comes_to;
pub use sources::{known_for_core, seen_are_sources, sources_are_one};
pub use swapped::{refreshed_may_be_swapped, sorted_may_be_swapped};
