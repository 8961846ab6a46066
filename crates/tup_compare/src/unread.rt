//! Why the reading of a project stops.
ghost use Rattle.std.specs.Prelude.{◌≡◌};
ghost use Rattle.tup_promise.specs.Stopped as specs;

use std::alloc::AllocError;
use tup_link::What;
use tup_project::ProjectFault;
use tup_promise::{SourcesFault, Stop};
use tup_site::SiteFailed;

/// Why the reading of a project stops. Nothing was changed.
#[derive(Drop)]
pub(crate) enum Unread {
    /// The sources ask for no rules, for this fault.
    Sources(SourcesFault),
    /// The site failed, or a file to be read is too large, or there was no memory.
    Outside(SiteFailed),
}

impl From<Unread> for Stop {
    ghost use Rattle.std.specs.Prelude.{◌≡◌};
    ghost use Rattle.tup_compare.specs.Stopped.{stop_of};

    ghost from_gives = { λ unread stop. stop ≡ stop_of unread };

    fn from(unread: Unread) -> Stop {
        match unread {
            Unread::Sources(fault) => Stop::Sources(fault),
            Unread::Outside(failed) => Stop::Outside(failed),
        }
    }
}

impl From<SiteFailed> for Unread {
    ghost use Rattle.std.specs.Prelude.{◌≡◌};
    ghost use Rattle.tup_compare.specs.declared.unread.Unread.TheVariants.{Outside};

    ghost from_gives = { λ failed unread. unread ≡ Outside failed };

    fn from(failed: SiteFailed) -> Unread {
        Unread::Outside(failed)
    }
}

impl From<AllocError> for Unread {
    ghost use Rattle.std.specs.Prelude.{◌≡◌};
    ghost use Rattle.tup_site.specs.declared.fault.SiteFailed.TheVariants.{Memory};
    ghost use Rattle.tup_compare.specs.declared.unread.Unread.TheVariants.{Outside};

    ghost from_gives = { λ _ unread. unread ≡ Outside Memory };

    fn from(_: AllocError) -> Unread {
        Unread::Outside(SiteFailed::Memory)
    }
}

impl From<ProjectFault> for Unread {
    ghost use Rattle.std.specs.Prelude.{◌≡◌};
    ghost use Rattle.tup_compare.specs.Stopped.{unread_of_project};

    ghost from_gives = { λ fault unread. unread ≡ unread_of_project fault };

    fn from(fault: ProjectFault) -> Unread {
        Unread::Sources(match fault {
            ProjectFault::Parse(fault) => SourcesFault::Parse(fault),
            ProjectFault::CircularDirs(dirs) => SourcesFault::CircularDirs(dirs),
            ProjectFault::NoSuchGroup(group) => SourcesFault::NoSuchGroup(group),
            ProjectFault::CircularCommands(rules) => SourcesFault::CircularCommands(rules),
            ProjectFault::TooMany { what, number } => too_many(what, number),
            ProjectFault::Memory => return Unread::Outside(SiteFailed::Memory),
        })
    }
}

/// The fault of a limit that is passed.
fn too_many(what: What, number: u64) -> SourcesFault
    ensures { result ≡ specs.too_many what number }
{
    match what {
        What::Commands => SourcesFault::TooManyCommands(number),
        What::Links => SourcesFault::TooManyLinks(number),
    }
}
