//! What the store of a site lists.
ghost use Rattle.std.specs.Prelude.{◌≡◌, IsTrue, IfOk, IfErr};
ghost use Rattle.std.specs.Result.{result_err};
ghost use Rattle.tup_site.specs.Crash.{GoesOn};
ghost use Rattle.tup_promise.specs.Cause.{HasCountedCause};
ghost use Rattle.tup_compare.specs.Holding.{HoldsOn, Lists};
ghost use Rattle.tup_compare.specs.Opened.{IsUnopened, JustOpens, StopsOpening};

use std::alloc::Global;
use tup_ledger::{open, owned_paths};
use tup_path::Paths;
use tup_promise::Stop;
use tup_site::Site;

/// Opens the store of a site, and tells which paths it lists. Whatever it answers, the files are
/// what they were, and so is what the store lists.
pub(crate) fn opened<S: Site>(alloc: Global, site: &mut S) -> Result<Paths, Stop>
    ensures lists { IsTrue S.tells → IfOk result (Lists (S.world site.new).store) }
    ensures holds { IsTrue S.tells → HoldsOn (S.world site.old) (S.world site.new) }
    ensures known { IsTrue S.tells → S.known site.new ≡ S.known site.old }
    ensures opens { IsTrue S.tells → let old = S.world site.old in let new = S.world site.new in
        JustOpens old.store new.store (result_err result) }
    ensures cause { IsTrue S.tells → IfErr result (IsUnopened (S.world site.old)) }
    ensures crash { IsTrue S.tells → GoesOn S.moment S.left_since site.old site.new HoldsOn }
    ensures stops { IfErr result StopsOpening }
    ensures counted { HasCountedCause (S.faults site.old) (S.faults site.new) (result_err result) }
{
    let graph = open(alloc, site)?;
    let owned = owned_paths(alloc, graph.nodes())?;
    Ok(owned)
}
