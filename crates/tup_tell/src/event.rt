//! What an update did.
use tup_access::Verdict;
use tup_path::Path;
use tup_rule::RuleName;

/// Something that an update did.
#[derive(Clone, Debug, Drop, PartialEq, Eq)]
pub enum Event {
    /// The Tupfile of a folder was read.
    Read { dir: Path },
    /// A file that no rule makes any more was removed.
    Removed { path: Path },
    /// The command of a rule was begun.
    Started { rule: RuleName },
    /// The command of a rule came to its end, with this verdict.
    Ended { rule: RuleName, verdict: Verdict },
}
