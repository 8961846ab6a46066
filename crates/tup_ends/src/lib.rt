//! How an update ends: with exactly the files of a clean build where it reports success, having run only what was due.
//!
//! All of it are laws, from what the phases of an update leave and what a board keeps to the promises of an update.
#![tactic(auto)]

mod blamed;
mod finished;
mod full;
mod kept;
mod made;
mod needed;
mod sources;
mod states;

pub use blamed::bad_rules_are_bad;
pub use finished::{
    done_is_finished, done_is_settled, done_leaves_nothing_to_do, done_leaves_nothing_to_read,
    finished_is_clean, prepared_is_finished, prepared_is_settled,
};
pub use full::full_is_true;
pub use kept::{boards_are_kept, boards_leave_crashes};
pub use made::settled_rules_are_made;
pub use needed::{
    bad_ran_all_it_could, bad_stands_last, boards_leave_due, done_ran_all, none_ran_is_needed,
    prepared_flags_what_was_due, ran_what_was_due,
};
pub use sources::{boards_leave_sources, kept_sites_keep_sources};
pub use states::{boards_leave_states, kept_states_are_states};
