//! What happens in an update.
use tup_access::Verdict;
use tup_path::{Items, Path, Text};
use tup_stamp::Stamp;

/// Files with their stamps.
pub type Stamps = Items<(Path, Stamp)>;

/// Why an update stops before all its rules are Good.
#[derive(Clone, Copy, PartialEq, Eq)]
pub enum Cause {
    /// A verdict isn't Good, and the plan doesn't keep going.
    Bad,
    /// A call of the site failed.
    Site,
    /// A file has this many bytes, which are too many.
    TooLarge(u64),
    /// The store has no room.
    Full,
    /// A runner failed.
    Run,
    /// There was no memory.
    Memory,
}

/// One thing that happens in an update, at a seat: one of 16 places, numbered from 0, at which a command may run.
#[derive(Drop)]
pub enum CoreEvent {
    /// The seat takes the rule with this number, and runs it.
    Claim {
        seat: u32,
        rule: u32,
    },
    /// The seat's command asks for a text, and is answered the file's stamp, or that there is no file.
    Ask {
        seat: u32,
        text: Text,
        answer: Option<Stamp>,
    },
    /// The seat's command asks for a text that it may not ask for; this becomes of it.
    Deny {
        seat: u32,
        text: Text,
        verdict: Verdict,
    },
    /// The seat's command ended, with the stamps of what it wrote.
    Finish {
        seat: u32,
        verdict: Verdict,
        writes: Stamps,
    },
    /// The update stops at this seat.
    Stop {
        seat: u32,
        cause: Cause,
    },
}
