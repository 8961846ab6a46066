//! The files of a rule come into the tree.
ghost use Rattle.std.specs.Prelude.{IsTrue, OnOk};
ghost use Rattle.tup_site.specs.Cause.{CountsFaults, NeverTooLarge};
ghost use Rattle.tup_site.specs.Crash.{GoesOn, PinsTree};
ghost use Rattle.tup_site.specs.Known.{Keeps};
ghost use Rattle.tup_site.specs.World.{StoreStays};
ghost use Rattle.tup_stale.specs.Files.{SameBeside, FilesStep};
ghost use Rattle.tup_rule_outputs.specs.Ground.{paths_of, AreAtOnce, HavePlaces, HoldsFiles};

use std::alloc::Global;
use tup_path::{Bytes, Path};
use tup_site::{Site, SiteFailed};

/// Puts files, durably.
pub(crate) fn put_files<S: Site>(
    alloc: Global,
    site: &mut S,
    files: &[(Path, Bytes)],
) -> Result<(), SiteFailed>
    requires at_once { AreAtOnce files.now }
    requires places { IsTrue S.tells
        → HavePlaces (paths_of files.now) (S.world site.old).tree }
    ensures put { IsTrue S.tells
        → OnOk result (HoldsFiles files.now (S.world site.new).tree) }
    ensures beside { IsTrue S.tells → SameBeside (paths_of files.now)
        (S.world site.old).tree (S.world site.new).tree }
    ensures store { IsTrue S.tells → StoreStays (S.world site.old) (S.world site.new) }
    ensures durable { IsTrue S.tells → OnOk result
        (PinsTree (S.left_since site.new (S.moment site.new)) (S.world site.new)) }
    ensures crash { IsTrue S.tells → GoesOn S.moment S.left_since site.old site.new
        (FilesStep (paths_of files.now)) }
    ensures known { IsTrue S.tells → Keeps (S.known site.old) (S.known site.new) }
    ensures cause { CountsFaults (S.faults site.old) (S.faults site.new) result }
    ensures never_too_large { NeverTooLarge result }
{
    put_all(alloc, site, files)?;
    site.settle(alloc)
}

/// Puts files, one after another.
fn put_all<S: Site>(alloc: Global, site: &mut S, files: &[(Path, Bytes)]) -> Result<(), SiteFailed>
    requires at_once { AreAtOnce files.now }
    requires places { IsTrue S.tells
        → HavePlaces (paths_of files.now) (S.world site.old).tree }
    ensures put { IsTrue S.tells
        → OnOk result (HoldsFiles files.now (S.world site.new).tree) }
    ensures beside { IsTrue S.tells → SameBeside (paths_of files.now)
        (S.world site.old).tree (S.world site.new).tree }
    ensures store { IsTrue S.tells → StoreStays (S.world site.old) (S.world site.new) }
    ensures crash { IsTrue S.tells → GoesOn S.moment S.left_since site.old site.new
        (FilesStep (paths_of files.now)) }
    ensures known { IsTrue S.tells → Keeps (S.known site.old) (S.known site.new) }
    ensures cause { CountsFaults (S.faults site.old) (S.faults site.new) result }
    ensures never_too_large { NeverTooLarge result }
{
    for file in files {
        site.put(alloc, &file.0, &file.1)?;
    }
    Ok(())
}
