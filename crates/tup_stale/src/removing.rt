//! The removal of files.
ghost use Rattle.std.specs.Prelude.{◌≡◌, IsTrue, OnOk};
ghost use Rattle.tup_site.specs.Cause.{CountsFaults, NeverTooLarge};
ghost use Rattle.tup_site.specs.Crash.{GoesOn, PinsTree};
ghost use Rattle.tup_site.specs.Known.{Keeps};
ghost use Rattle.tup_site.specs.World.{StoreStays};
ghost use Rattle.tup_stale.specs.Files.{without, IsPart, FilesStep};

use std::alloc::Global;
use tup_path::Path;
use tup_site::{Site, SiteFailed};

/// Removes files, durably.
pub(crate) fn remove<S: Site>(alloc: Global, site: &mut S, files: &[Path]) -> Result<(), SiteFailed>
    ensures removed { IsTrue S.tells → OnOk result
        ((S.world site.new).tree ≡ without (S.world site.old).tree files.now) }
    ensures part { IsTrue S.tells
        → IsPart files.now (S.world site.old).tree (S.world site.new).tree }
    ensures store { IsTrue S.tells → StoreStays (S.world site.old) (S.world site.new) }
    ensures durable { IsTrue S.tells → OnOk result
        (PinsTree (S.left_since site.new (S.moment site.new)) (S.world site.new)) }
    ensures crash { IsTrue S.tells
        → GoesOn S.moment S.left_since site.old site.new (FilesStep files.now) }
    ensures known { IsTrue S.tells → Keeps (S.known site.old) (S.known site.new) }
    ensures cause { CountsFaults (S.faults site.old) (S.faults site.new) result }
    ensures never_too_large { NeverTooLarge result }
{
    remove_all(alloc, site, files)?;
    site.settle(alloc)
}

/// Removes files, one after another.
fn remove_all<S: Site>(alloc: Global, site: &mut S, files: &[Path]) -> Result<(), SiteFailed>
    ensures removed { IsTrue S.tells → OnOk result
        ((S.world site.new).tree ≡ without (S.world site.old).tree files.now) }
    ensures part { IsTrue S.tells
        → IsPart files.now (S.world site.old).tree (S.world site.new).tree }
    ensures store { IsTrue S.tells → StoreStays (S.world site.old) (S.world site.new) }
    ensures crash { IsTrue S.tells
        → GoesOn S.moment S.left_since site.old site.new (FilesStep files.now) }
    ensures known { IsTrue S.tells → Keeps (S.known site.old) (S.known site.new) }
    ensures cause { CountsFaults (S.faults site.old) (S.faults site.new) result }
    ensures never_too_large { NeverTooLarge result }
{
    for path in files {
        site.remove(alloc, path)?;
    }
    Ok(())
}
