//! What is done to a site between two runs.
ghost use Rattle.std.specs.Prelude.{OnOk, OnErr, IfErr};
ghost use Rattle.tup_history.specs.Deed.{IsCarriedOut, IsUntouched, Refuses};

use std::alloc::Global;
use tup_site::{Deed, MemRefused, MemSite};

/// Edits or crashes a site. After a refusal all is as before.
pub(crate) fn do_deed(alloc: Global, site: &mut MemSite, deed: Deed) -> Result<(), MemRefused>
    ensures done { OnOk result (IsCarriedOut deed site.old site.new) }
    ensures untouched { OnErr result (IsUntouched site.old site.new) }
    ensures refused { IfErr result (Refuses deed site.old) }
{
    match deed {
        Deed::Edit { path, content } => site.edit(alloc, path, content),
        Deed::Crash { choice } => site.crash(alloc, choice),
    }
}
