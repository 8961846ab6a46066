//! The beginning of a project, and what is told of it.
ghost use Rattle.std.specs.Prelude.{◌≡◌, ◌⊎◌, IsTrue};
ghost use Rattle.tup_site.specs.Crash.{GoesOn};
ghost use Rattle.tup_site.specs.World.{TreeStays};
ghost use Rattle.tup_ledger.specs.Begin.{Begins, BeginStep};
ghost use Rattle.tup_top.specs.Printed.{PrintsBegun};
ghost use Rattle.tup_top.specs.Promise.{HasBegunCause, Lasts};
ghost use Rattle.tup_top.specs.Status.{IfBegan};

use crate::print::{begun_line, print};
use crate::status::{Status, status_of_begun};
use std::alloc::Global;
use tup_ledger::begin;
use tup_site::Site;
use tup_tell::Sink;

/// Makes the store of a project where there is none, and prints the line of this beginning. A store
/// that is there keeps all that it has, and no file is touched.
pub(crate) fn init<S: Site, K: Sink>(alloc: Global, site: &mut S, out: &mut K) -> Status
    ensures begins { IsTrue S.tells
        → IfBegan result (Begins (S.world site.old) (S.world site.new)) }
    ensures keeps { IsTrue S.tells → (S.world site.new ≡ S.world site.old)
        ⊎ BeginStep (S.world site.old) (S.world site.old) (S.world site.new) }
    ensures tree { IsTrue S.tells → TreeStays (S.world site.old) (S.world site.new) }
    ensures known { IsTrue S.tells → S.known site.new ≡ S.known site.old }
    ensures lasts { IsTrue S.tells → let left = S.left_since site.new (S.moment site.new) in
        IfBegan result (Lasts left (S.world site.new)) }
    ensures crash { IsTrue S.tells → GoesOn S.moment S.left_since site.old site.new
        (BeginStep (S.world site.old)) }
    ensures counted_cause { let before = S.faults site.old in let now = S.faults site.new in
        HasBegunCause before now (K.faults out.old) (K.faults out.new) result }
    ensures printed { IsTrue K.tells
        → let before = K.faults out.old in let now = K.faults out.new in
        PrintsBegun before now (K.held out.old) (K.held out.new) result }
{
    let status = status_of_begun(begin(alloc, site));
    match begun_line(alloc, &status) {
        Ok(line) => print(alloc, &line, status, out),
        Err(_) => Status::Memory,
    }
}
