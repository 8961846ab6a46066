//! The clean build: what a project's files are, with no history.
//!
//! `clean_build` gives just the build that `specs/Clean.antt` defines, for every list of rules and whatever runner,
//! and is refused where the runner fails, and for want of memory. It knows nothing of graphs, flags, stamps or threads.
//! Rules wait in a queue, so its time is that of the commands, the declared inputs and the rules, times a logarithm.
//! `generated` and `readers` tell what rules make, and who declares it, to a scheduler too.
//! `Queue` gives the first ready rule again and again, to an update too.
//! `any_order` and `no_order` say that it doesn't matter which ready rule is taken first, and what is left in any order;
//! `in_turn` and `never_stuck` say in which order the build takes its rules, and that it takes all while they are Good.
//! `proofs/Agreeing.antt` says in which other trees a rule could as well be run.
#![tactic(auto)]

mod build;
mod fault;
mod laws;
mod made;
mod queue;
mod running;
mod tree;
mod view;

pub use build::clean_build;
pub use fault::CleanFault;
pub use laws::{any_order, counted_test, in_turn, never_stuck, no_order};
pub use made::generated;
pub use queue::{Queue, readers};
use tup_access::Verdict;
use tup_path::{Files, Items};

/// What a clean build leaves.
#[derive(Drop)]
pub struct Cleaned {
    /// The sources, and the outputs of the Good rules.
    pub tree: Files,
    /// The verdict of each rule; `None` for one that never could be run.
    pub verdicts: Items<Option<Verdict>>,
}
