//! What the store keeps.
ghost use Rattle.std.specs.Prelude.{◌≡◌};

use crate::owned::OwnedState;
use crate::run::RunRecord;
use std::alloc::AllocError;
use tup_path::Path;
use tup_rule::{Reading, Rule};
use tup_stamp::Stamp;

/// One thing that the store keeps of a project.
#[derive(Drop)]
pub enum Record {
    /// The stamp of the content that was last seen at a path.
    Seen {
        path: Path,
        stamp: Stamp,
    },
    /// What the reading of a folder's Tupfile left.
    Reading {
        dir: Path,
        reading: Reading,
    },
    /// The rule of a number, which stands at a place among the rules of its folder.
    Rule {
        number: u32,
        place: u32,
        rule: Rule,
    },
    /// The last good run of the rule of a number.
    Run {
        number: u32,
        run: RunRecord,
    },
    /// A path that the build owns, the number of the rule that makes it, if there is one, and its state.
    Owned {
        path: Path,
        maker: Option<u32>,
        state: OwnedState,
    },
    /// A folder whose Tupfile is to be read.
    Create {
        dir: Path,
    },
    /// The number of a rule that is to be run.
    Modify {
        number: u32,
    },
}

impl Clone for Record {
    ghost is_clone = { λ entry copy. copy ≡ entry };

    fn clone(&self) -> Result<Record, AllocError> {
        Ok(match self {
            Record::Seen { path, stamp } => Record::Seen {
                path: path.clone()?,
                stamp: *stamp,
            },
            Record::Reading { dir, reading } => Record::Reading {
                dir: dir.clone()?,
                reading: reading.clone()?,
            },
            Record::Rule {
                number,
                place,
                rule,
            } => Record::Rule {
                number: *number,
                place: *place,
                rule: rule.clone()?,
            },
            Record::Run { number, run } => Record::Run {
                number: *number,
                run: run.clone()?,
            },
            Record::Owned { path, maker, state } => Record::Owned {
                path: path.clone()?,
                maker: *maker,
                state: *state,
            },
            Record::Create { dir } => Record::Create { dir: dir.clone()? },
            Record::Modify { number } => Record::Modify { number: *number },
        })
    }
}
