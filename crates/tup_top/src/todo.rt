//! What an update would do, and what is told of it.
ghost use Rattle.std.specs.Prelude.{◌≡◌, ℕ, List, [], IsTrue, Ok};
ghost use Rattle.tup_runner.specs.Next.{Next};
ghost use Rattle.tup_site.specs.Crash.{GoesOn};
ghost use Rattle.tup_site.specs.World.{TreeStays};
ghost use Rattle.tup_table.specs.Images.{OpenStep};
ghost use Rattle.tup_law_phases.specs.Language.{tupfiles};
ghost use Rattle.tup_law_site.specs.Over.{IsKeptNow};
ghost use Rattle.tup_promise.specs.Crashes.{SourcesAndCrashes, SourcesStay};
ghost use Rattle.tup_promise.specs.Kept.{IsKeptBySome};
ghost use Rattle.tup_promise.specs.States.{States};
ghost use Rattle.tup_promise.specs.Unopened.{IsReadable};
ghost use Rattle.tup_top.specs.Lines.{todo_lines as lines_of};
ghost use Rattle.tup_top.specs.Printed.{Ends, EndsTold, IsDone, Prints, PrintsTodo};
ghost use Rattle.tup_top.specs.Status.{IfCame, log_of_todo, status_of_todo};
ghost use Rattle.tup_top.specs.Telling.{Hears, Reports, TellsTodo};
ghost use Rattle.tup_top.specs.declared.status.Status.TheVariants.{TellFault};
ghost use Rattle.tup_top.specs.Promise.{FindsOut, HasAloneCause, beside};

use crate::print::{print, tell, todo_lines};
use crate::status::{Status, status_of_listed, status_of_stop};
use crate::telling::{Reported, after_telling, hear_read, nobody};
use std::alloc::Global;
use std::thread::Threads;
use tup_site::Site;
use tup_tell::{Reporter, Sink, Telling};
use tup_todo::{Todo, todo_site};

/// Finds out what an update of a site would do, tells the reporters which folders it read for that, and prints the lines
/// of this. Where it is stopped they are told nothing.
pub(crate) fn todo<W: Threads + Sync, S: Site, T: Reporter, K: Sink>(
    rt: &W,
    alloc: Global,
    site: &mut S,
    workers: usize,
    tellers: &mut Vec<T>,
    out: &mut K,
) -> Reported<T>
    ensures tree { IsTrue S.tells → TreeStays (S.world site.old) (S.world site.new) }
    ensures closed { IsTrue S.tells → (IsReadable (S.world site.old).store → ⊥)
        → GoesOn S.moment S.left_since site.old site.new OpenStep }
    ensures known { IsTrue S.tells → S.known site.new ≡ S.known site.old }
    ensures found_out { IsTrue S.tells → let old = S.world site.old in
        IfCame result.status (FindsOut (IsKeptBySome S.Site.own site.old) old (S.world site.new)) }
    // Over a kept site, where the site tells.
    ensures kept { IsTrue S.tells → (next : Next)
        → IsKeptNow S.Site.own next tupfiles (S.known site.old) site.old
        → IsKeptNow S.Site.own next tupfiles (S.known site.new) site.new }
    ensures sources_and_crashes { IsTrue S.tells → (next : Next)
        → IsKeptNow S.Site.own next tupfiles (S.known site.old) site.old
        → SourcesAndCrashes S.Site.own next site.old site.new }
    ensures states { IsTrue S.tells → (next : Next)
        → IsKeptNow S.Site.own next tupfiles (S.known site.old) site.old
        → States next (S.world site.old) (S.world site.new) }
    ensures sources_stay { IsTrue S.tells → IsKeptBySome S.Site.own site.old
        → SourcesStay S.Site.own site.old site.new }
    // Whatever the site is.
    ensures counted_cause { (runners : List ℕ) → let counted = beside runners in
        HasAloneCause (counted (S.faults site.old) (K.faults out.old))
        (counted (S.faults site.new) (K.faults out.new)) result.status }
    ensures printed { IsTrue K.tells
        → let before = K.faults out.old in let now = K.faults out.new in
        let hears = Hears T.told T.faults tellers.old.items tellers.new.items result.failed.items in
        PrintsTodo (IsTrue S.tells × IsKeptBySome S.Site.own site.old) hears
        (S.world site.old) (S.world site.new) before now (K.held out.old) (K.held out.new)
        result.status }
    // What the reporters were told, wherever the lines went.
    ensures tells { let before = K.faults out.old in let now = K.faults out.new in
        let hears = Hears T.told T.faults tellers.old.items tellers.new.items result.failed.items in
        TellsTodo (IsTrue S.tells × IsKeptBySome S.Site.own site.old) hears
        (S.world site.old) (S.world site.new) before now result.status }
    ensures blamed_reporter { result.status ≡ TellFault → result.failed.items ≡ [] → ⊥ }
{
    match todo_site(rt, alloc, site, workers) {
        Ok(todo) => tell_found(alloc, &todo, tellers, out),
        Err(stop) => Reported {
            status: tell(alloc, status_of_stop(stop), out),
            failed: nobody(alloc),
        },
    }
}

/// Tells the reporters which folders were read to find this out, prints its lines, and says how the order ends then.
fn tell_found<T: Reporter, K: Sink>(
    alloc: Global,
    todo: &Todo,
    tellers: &mut Vec<T>,
    out: &mut K,
) -> Reported<T>
    ensures ends { let came = status_of_todo (Ok todo.now) in
        EndsTold (K.faults out.old) (K.faults out.new) came result.status }
    ensures counted { IsDone result.status → K.faults out.new ≡ K.faults out.old }
    ensures reports { let came = status_of_todo (Ok todo.now) in
        let hears = Hears T.told T.faults tellers.old.items tellers.new.items result.failed.items in
        let before = K.faults out.old in let now = K.faults out.new in
        Reports hears (log_of_todo (Ok todo.now)) (lines_of (Ok todo.now)) (IsTrue K.tells) came
        before now (K.held out.old) (K.held out.new) result.status }
    ensures blamed_reporter { result.status ≡ TellFault → result.failed.items ≡ [] → ⊥ }
{
    let came = status_of_listed(todo);
    let Telling { failed, all } = hear_read(alloc, todo.read.as_slice(), tellers);
    let status = after_telling(came, all, failed.is_empty());
    let status = list(alloc, todo, status, out);
    Reported { status, failed }
}

/// Prints the lines of what an update would do, the last one for this status, and says how the order ends then.
fn list<K: Sink>(alloc: Global, todo: &Todo, status: Status, out: &mut K) -> Status
    ensures ends { Ends (K.faults out.old) (K.faults out.new) status result }
    ensures counted { IsDone result → K.faults out.new ≡ K.faults out.old }
    ensures prints { IsTrue K.tells
        → let before = K.faults out.old in let now = K.faults out.new in
        Prints status (lines_of (Ok todo.now) status) before now
        (K.held out.old) (K.held out.new) result }
{
    match todo_lines(alloc, todo, &status) {
        Ok(text) => print(alloc, &text, status, out),
        Err(_) => Status::Memory,
    }
}
