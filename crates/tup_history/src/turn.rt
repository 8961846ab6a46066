//! The turns of a history, and how each of them ended.
use tup_path::Items;
use tup_rule::RuleName;
use tup_site::Deed;
use tup_top::{Status, Word};

/// What happens next to a project.
#[derive(Drop)]
pub enum Turn {
    /// Somebody edits a file, or the machine stops.
    Deed(Deed),
    /// The program runs with these words. With `stop_after` so many calls of the site pass, and
    /// all later ones of this run fail.
    Run {
        words: Items<Word>,
        stop_after: Option<u64>,
    },
}

/// How a turn ended.
#[derive(Drop)]
pub struct End {
    /// How much had happened to the site by then.
    pub moment: u64,
    /// What a run answered; a deed answers nothing.
    pub status: Option<Status>,
    /// The rules that a run began, in order.
    pub ran: Items<RuleName>,
}
