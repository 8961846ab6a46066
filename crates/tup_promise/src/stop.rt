//! Why an update stops before its end.
ghost use Rattle.std.specs.Prelude.{◌≡◌};
ghost use Rattle.tup_promise.specs.Stopped as specs;

use crate::fault::SourcesFault;
use std::alloc::AllocError;
use thiserror::Error;
use tup_access::Verdict;
use tup_graph::GraphFault;
use tup_link::What;
use tup_path::Path;
use tup_project::ProjectFault;
use tup_refresh::RefreshFault;
use tup_rule::RuleName;
use tup_scan::ScanFault;
use tup_site::SiteFailed;
use tup_stale::StaleFault;
use tup_stamp::Stamp;

/// Why an update stopped.
#[derive(Debug, Drop, Error)]
pub enum Stop {
    /// There is no store: no project was begun here. Nothing was done.
    #[error("there is no store")]
    NoStore,
    /// The store doesn't read from this byte on. Nothing was done.
    #[error("the store is damaged at byte {0}")]
    BadStore(u64),
    /// The sources ask for no rules, for this fault. No file was changed.
    #[error("the sources ask for no rules")]
    Sources(SourcesFault),
    /// No rule makes this file any more, and it isn't what was written there. No file was changed.
    #[error("{path} was changed by hand and no rule makes it")]
    UserFile {
        path: Path,
        /// The stamp of what was written; `None` where nothing was.
        written: Option<Stamp>,
        /// The stamp of what stands there.
        found: Stamp,
    },
    /// A command came to a bad verdict: that of this rule, the first of them in the order of the rules.
    #[error("a command of the sources is bad")]
    Bad(RuleName, Verdict),
    /// The runner failed.
    #[error("a command can't be run")]
    Run,
    /// The store has no room for what is to be kept.
    #[error("the store has no room")]
    Full,
    /// The site failed, or a file to be read is too large, or there was no memory.
    #[error("{0}")]
    Outside(SiteFailed),
}

impl From<SiteFailed> for Stop {
    ghost use Rattle.std.specs.Prelude.{◌≡◌};
    ghost use Rattle.tup_promise.specs.declared.stop.Stop.TheVariants.{Outside};

    ghost from_gives = { λ failed stop. stop ≡ Outside failed };

    fn from(failed: SiteFailed) -> Stop {
        Stop::Outside(failed)
    }
}

impl From<AllocError> for Stop {
    ghost use Rattle.std.specs.Prelude.{◌≡◌};
    ghost use Rattle.tup_promise.specs.Stopped.{no_memory};

    ghost from_gives = { λ _ stop. stop ≡ no_memory };

    fn from(_: AllocError) -> Stop {
        Stop::Outside(SiteFailed::Memory)
    }
}

impl From<GraphFault> for Stop {
    ghost use Rattle.std.specs.Prelude.{◌≡◌};
    ghost use Rattle.tup_promise.specs.Stopped.{stop_of_graph};

    ghost from_gives = { λ fault stop. stop ≡ stop_of_graph fault };

    fn from(fault: GraphFault) -> Stop {
        match fault {
            GraphFault::NotThere => Stop::NoStore,
            GraphFault::BadStore { offset } => Stop::BadStore(offset),
            GraphFault::Site => Stop::Outside(SiteFailed::Fault),
            GraphFault::Full => Stop::Full,
            GraphFault::Memory => Stop::Outside(SiteFailed::Memory),
        }
    }
}

impl From<ScanFault> for Stop {
    ghost use Rattle.std.specs.Prelude.{◌≡◌};
    ghost use Rattle.tup_promise.specs.Stopped.{stop_of_scan};

    ghost from_gives = { λ fault stop. stop ≡ stop_of_scan fault };

    fn from(fault: ScanFault) -> Stop {
        match fault {
            ScanFault::Site => Stop::Outside(SiteFailed::Fault),
            ScanFault::TooLarge(bytes) => Stop::Outside(SiteFailed::TooLarge(bytes)),
            ScanFault::TooManyFiles(number) => Stop::Sources(SourcesFault::TooManyFiles(number)),
            ScanFault::Memory => Stop::Outside(SiteFailed::Memory),
        }
    }
}

impl From<RefreshFault> for Stop {
    ghost use Rattle.std.specs.Prelude.{◌≡◌};
    ghost use Rattle.tup_promise.specs.Stopped.{stop_of_refresh};

    ghost from_gives = { λ fault stop. stop ≡ stop_of_refresh fault };

    fn from(fault: RefreshFault) -> Stop {
        match fault {
            RefreshFault::Parse(fault) => Stop::Sources(SourcesFault::Parse(fault)),
            RefreshFault::Circular(dirs) => Stop::Sources(SourcesFault::CircularDirs(dirs)),
            RefreshFault::Site => Stop::Outside(SiteFailed::Fault),
            RefreshFault::TooLarge(bytes) => Stop::Outside(SiteFailed::TooLarge(bytes)),
            RefreshFault::Memory => Stop::Outside(SiteFailed::Memory),
        }
    }
}

impl From<ProjectFault> for Stop {
    ghost use Rattle.std.specs.Prelude.{◌≡◌};
    ghost use Rattle.tup_promise.specs.Stopped.{stop_of_project};

    ghost from_gives = { λ fault stop. stop ≡ stop_of_project fault };

    fn from(fault: ProjectFault) -> Stop {
        Stop::Sources(match fault {
            ProjectFault::Parse(fault) => SourcesFault::Parse(fault),
            ProjectFault::CircularDirs(dirs) => SourcesFault::CircularDirs(dirs),
            ProjectFault::NoSuchGroup(group) => SourcesFault::NoSuchGroup(group),
            ProjectFault::CircularCommands(rules) => SourcesFault::CircularCommands(rules),
            ProjectFault::TooMany { what, number } => too_many(what, number),
            ProjectFault::Memory => return Stop::Outside(SiteFailed::Memory),
        })
    }
}

/// The fault of a limit of linking that is passed.
fn too_many(what: What, number: u64) -> SourcesFault
    ensures { result ≡ specs.too_many what number }
{
    match what {
        What::Commands => SourcesFault::TooManyCommands(number),
        What::Links => SourcesFault::TooManyLinks(number),
    }
}

impl From<StaleFault> for Stop {
    ghost use Rattle.std.specs.Prelude.{◌≡◌};
    ghost use Rattle.tup_promise.specs.Stopped.{stop_of_stale};

    ghost from_gives = { λ fault stop. stop ≡ stop_of_stale fault };

    fn from(fault: StaleFault) -> Stop {
        match fault {
            StaleFault::UserFile {
                path,
                written,
                found,
            } => Stop::UserFile {
                path,
                written,
                found,
            },
            StaleFault::Site => Stop::Outside(SiteFailed::Fault),
            StaleFault::TooLarge(bytes) => Stop::Outside(SiteFailed::TooLarge(bytes)),
            StaleFault::Full => Stop::Full,
            StaleFault::Memory => Stop::Outside(SiteFailed::Memory),
        }
    }
}
