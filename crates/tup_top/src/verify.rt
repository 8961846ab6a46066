//! A comparison of the files of a site with a clean build of its sources, and what is told of it.
ghost use Rattle.std.specs.Prelude.{◌≡◌, [], ◌∷◌, IsTrue};
ghost use Rattle.std.specs.Result.{result_err};
ghost use Rattle.tup_site.specs.Crash.{GoesOn};
ghost use Rattle.tup_compare.specs.Compared.{HasCompared, RunsToCompare};
ghost use Rattle.tup_compare.specs.Holding.{HoldsOn};
ghost use Rattle.tup_compare.specs.Opened.{JustOpens};
ghost use Rattle.tup_top.specs.Printed.{PrintsComparison};
ghost use Rattle.tup_top.specs.Promise.{HasComparedCause, counts};
ghost use Rattle.tup_top.specs.Status.{IfCompared};

use crate::print::{compared_line, print};
use crate::status::{Status, status_of_compared};
use std::alloc::Global;
use tup_compare::compare_site;
use tup_runner::Runner;
use tup_site::Site;
use tup_tell::Sink;

/// Compares the files of a site with a clean build of its sources by a runner, and prints the line
/// of this comparison.
pub(crate) fn verify<S: Site, R: Runner, K: Sink>(
    alloc: Global,
    site: &mut S,
    runner: &mut R,
    out: &mut K,
) -> Status
    ensures compared { IsTrue S.tells → IsTrue R.tells
        → IfCompared result (HasCompared R.next (S.world site.old)) }
    ensures holds { IsTrue S.tells → HoldsOn (S.world site.old) (S.world site.new) }
    ensures known { IsTrue S.tells → S.known site.new ≡ S.known site.old }
    ensures opens { IsTrue S.tells → let old = S.world site.old in let new = S.world site.new in
        IfCompared result (λ compared. JustOpens old.store new.store (result_err compared)) }
    ensures crash { IsTrue S.tells → GoesOn S.moment S.left_since site.old site.new HoldsOn }
    ensures ran { IsTrue S.tells → IsTrue R.tells → IsTrue R.tells_ran
        → let old = S.world site.old in IfCompared result (λ compared.
        RunsToCompare R.next old (R.ran runner.old) (R.ran runner.new) (result_err compared)) }
    ensures counted_cause { let counted = counts S.faults R.faults K.faults in
        let before = counted site.old (runner.old ∷ []) out.old in
        let now = counted site.new (runner.new ∷ []) out.new in
        HasComparedCause before now result }
    ensures printed { IsTrue K.tells
        → let before = K.faults out.old in let now = K.faults out.new in
        PrintsComparison S.tells R.tells R.next (S.world site.old) before now
        (K.held out.old) (K.held out.new) result }
{
    let status = status_of_compared(compare_site(alloc, site, runner));
    match compared_line(alloc, &status) {
        Ok(line) => print(alloc, &line, status, out),
        Err(_) => Status::Memory,
    }
}
