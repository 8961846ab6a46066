//! What a clearing and a board leave of a kept site, whenever a crash comes.
#![tactic(auto)]

mod clearing;
mod laws;

pub use clearing::{
    cleared_are_unseen, clearings_keep_sites, clearings_leave_kept, unmade_are_not_asked,
};
pub use laws::{
    boards_have_seen, boards_keep_sites, boards_keep_sources, boards_leave_kept,
    lost_boards_leave_kept,
};
