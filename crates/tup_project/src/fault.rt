//! Why a project has no rules.
use thiserror::Error;
use tup_lex::ParseKind;
use tup_link::{LinkFault, RuleNames, What};
use tup_path::Paths;
use tup_query::ParseFault;
use tup_readings::FoldersFault;
use tup_rule::GroupRef;

/// Why the sources of a project come to no rules.
#[derive(Debug, Drop, Error)]
pub enum ProjectFault {
    /// A file that says what to build has a fault: the tup.config of the top, one that was read for
    /// a folder, or a rule of a folder with the command of an earlier one there.
    #[error("{0}")]
    Parse(ParseFault),
    /// Folders that wait for each other: each asks about the files of the next one, and the last
    /// one about the first's.
    #[error("directories wait for each other")]
    CircularDirs(Paths),
    /// Rules that wait for each other: each declares an output of the next one, and the last one of
    /// the first.
    #[error("commands wait for each other")]
    CircularCommands(RuleNames),
    /// A rule takes this group, and no rule gives to it.
    #[error("no rule gives to a group")]
    NoSuchGroup(GroupRef),
    /// A limit is passed by this number, up to which was counted.
    #[error("too many commands or declared inputs")]
    TooMany { what: What, number: u64 },
    /// There was no memory; nothing is known of the rules.
    #[error("no memory")]
    Memory,
}

impl From<FoldersFault> for ProjectFault {
    ghost use Rattle.std.specs.Prelude.{◌≡◌};
    ghost use Rattle.tup_project.specs.Fault.{of_folders};

    ghost from_gives = { λ fault told. told ≡ of_folders fault };

    /// A fault of reading the folders.
    fn from(fault: FoldersFault) -> ProjectFault {
        match fault {
            FoldersFault::Parse(fault) => ProjectFault::Parse(fault),
            FoldersFault::Circular(dirs) => ProjectFault::CircularDirs(dirs),
            FoldersFault::Memory => ProjectFault::Memory,
        }
    }
}

impl From<LinkFault> for ProjectFault {
    ghost use Rattle.std.specs.Prelude.{◌≡◌};
    ghost use Rattle.tup_project.specs.Fault.{of_linking};

    ghost from_gives = { λ fault told. told ≡ of_linking fault };

    /// A fault of linking.
    fn from(fault: LinkFault) -> ProjectFault {
        match fault {
            LinkFault::TooMany { what, number } => ProjectFault::TooMany { what, number },
            LinkFault::NoSuchGroup(group) => ProjectFault::NoSuchGroup(group),
            LinkFault::DuplicateCommand { dir, file, line } => ProjectFault::Parse(ParseFault {
                dir,
                file,
                line,
                kind: ParseKind::DuplicateCommand,
            }),
            LinkFault::CircularCommands(names) => ProjectFault::CircularCommands(names),
            LinkFault::Memory => ProjectFault::Memory,
        }
    }
}
