//! Why the sources of a site ask for no rules.
use thiserror::Error;
use tup_link::RuleNames;
use tup_path::Paths;
use tup_query::ParseFault;
use tup_rule::GroupRef;

/// Why the sources of a site ask for no rules.
#[derive(Debug, Drop, Error)]
pub enum SourcesFault {
    /// The tree has so many files, more than the site may have; none was read.
    #[error("{0} files are too many")]
    TooManyFiles(u64),
    /// A file that says what to build has a fault: the tup.config of the top, or one that was read
    /// for a folder.
    #[error("{0}")]
    Parse(ParseFault),
    /// Folders that wait for each other: each asks about the files of the next one, and the last
    /// one about the first's.
    #[error("directories wait for each other")]
    CircularDirs(Paths),
    /// There are so many commands, more than 65,536.
    #[error("{0} commands are too many")]
    TooManyCommands(u64),
    /// A rule takes this group, and no rule gives to it.
    #[error("no rule gives to a group")]
    NoSuchGroup(GroupRef),
    /// So many inputs are declared, more than 4,194,304; they are counted up to there.
    #[error("{0} declared inputs are too many")]
    TooManyLinks(u64),
    /// Rules that wait for each other: each declares an output of the next one, and the last one of
    /// the first.
    #[error("commands wait for each other")]
    CircularCommands(RuleNames),
}
