//! Why readings aren't linked.
use std::alloc::{AllocError, AllocFailed};
use thiserror::Error;
use tup_path::{Items, Path};
use tup_rule::{GroupRef, RuleName};

/// What there is too much of.
#[derive(Clone, Copy, Debug, PartialEq, Eq)]
pub enum What {
    /// More than 65,536 commands.
    Commands,
    /// More than 4,194,304 declared inputs over all rules.
    Links,
}

/// Names of rules that wait for each other.
pub type RuleNames = Items<RuleName>;

/// Why the readings of all folders come to no rules.
#[derive(Debug, Drop, PartialEq, Eq, Error)]
pub enum LinkFault {
    /// A limit is passed by this number, up to which was counted.
    #[error("too many commands or declared inputs")]
    TooMany { what: What, number: u64 },
    /// A rule takes this group, and no rule gives to it.
    #[error("no rule gives to a group")]
    NoSuchGroup(GroupRef),
    /// The rule of this folder in this file and line has the command of an earlier one of the folder.
    #[error("a command stands twice")]
    DuplicateCommand { dir: Path, file: Path, line: u32 },
    /// Each of these rules declares an output of the next one, and the last of the first.
    #[error("commands wait for each other")]
    CircularCommands(RuleNames),
    /// There was no memory; nothing is known of the rules.
    #[error("no memory")]
    Memory,
}

impl From<AllocError> for LinkFault {
    ghost use Rattle.std.specs.Prelude.{◌≡◌};
    ghost use Rattle.tup_link.specs.declared.fault.LinkFault.TheVariants.{Memory};

    ghost from_gives = { λ _ fault. fault ≡ Memory };

    fn from(_: AllocError) -> LinkFault {
        LinkFault::Memory
    }
}

impl<T: Drop> From<AllocFailed<T>> for LinkFault {
    ghost use Rattle.std.specs.Prelude.{◌≡◌};
    ghost use Rattle.tup_link.specs.declared.fault.LinkFault.TheVariants.{Memory};

    ghost from_gives = { λ _ fault. fault ≡ Memory };

    fn from(_: AllocFailed<T>) -> LinkFault {
        LinkFault::Memory
    }
}
