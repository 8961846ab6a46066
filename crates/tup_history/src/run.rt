//! A run of the program as a turn.
ghost use Rattle.std.specs.Prelude.{◌≡◌, ℕ, List, Some, IsTrue, length, map};
ghost use Rattle.tup_path.specs.Name.{Names};
ghost use Rattle.tup_site.specs.Memory.{world_in, faults_of, left_of};
ghost use Rattle.tup_top.specs.Crew.{IsCrew};
ghost use Rattle.tup_top.specs.Order.{order};
ghost use Rattle.tup_top.specs.Promise.{counts};
ghost use Rattle.tup_history.specs.Kept.{IsKept};
ghost use Rattle.tup_history.specs.Run.{Finishes, Keeps, Leaves, Updates};
ghost use Rattle.tup_history.specs.Run.{Lets, left_then, left_behind};
ghost use Rattle.tup_history.specs.Telling.{HasPrinted, HasRun, told_by};

use std::alloc::Global;
use std::sync::Wait;
use std::thread::Threads;
use tup_progress::Started;
use tup_runner::Runner;
use tup_site::MemSite;
use tup_tell::{Keep, Sink};
use tup_top::{Ran, Word, tup};

/// Runs the program over a site that lets its calls pass or not. There are no reporters.
pub(crate) fn run<W: Threads + Wait + Sync, R: Runner + Send, K: Sink>(
    rt: &W,
    alloc: Global,
    words: &[Word],
    site: MemSite,
    crew: Vec<R>,
    out: &mut K,
) -> Ran<MemSite, R, Keep>
    requires crew { IsCrew crew.items }
    ensures keeps { let counted = counts faults_of R.faults K.faults in
        let before = counted site crew.items out.old in
        let now = counted result.site result.crew.items out.new in
        Keeps R.tells R.next (order words.now) (world_in site) (world_in result.site) before now
        result.status result.ran }
    ensures runs { (before now : List (List (Names × List ℕ)))
        → told_by R.tells_ran (map R.ran crew.items) ≡ Some before
        → told_by R.tells_ran (map R.ran result.crew.items) ≡ Some now
        → let many = length (map R.faults crew.items) in
        HasRun R.tells R.next (order words.now) many (world_in site) before now result.status
        result.ran }
    ensures prints { (held holds : List ℕ) → told_by K.tells (K.held out.old) ≡ Some held
        → told_by K.tells (K.held out.new) ≡ Some holds
        → let many = length (map R.faults crew.items) in
        HasPrinted R.tells R.next (order words.now) many site result.site
        (K.faults out.old) (K.faults out.new) held holds result.status result.ran }
    ensures leaves { Leaves (order words.now) site result.site result.status }
    ensures finishes { let counted = counts faults_of R.faults K.faults in
        let before = counted site crew.items out.old in
        let now = counted result.site result.crew.items out.new in
        Finishes R.tells R.next (order words.now) site result.site before now result.status }
    ensures updates { IsTrue R.tells → IsKept R.next site
        → let many = length (map R.faults crew.items) in
        Updates R.next many (order words.now) site result.site result.status result.ran }
    ensures crew { IsCrew result.crew.items }
{
    let mut tellers: Vec<Keep> = Vec::new(alloc);
    tup(
        rt,
        alloc,
        words,
        site,
        crew,
        &Started::new(),
        &mut tellers,
        out,
    )
}

/// Lets only so many more calls of the site pass, where that is said.
pub(crate) fn begin(site: &mut MemSite, stop_after: Option<u64>)
    ensures { Lets (left_then stop_after (left_of site.old)) site.old site.new }
{
    if let Some(calls) = stop_after {
        site.stop_after(calls);
    }
}

/// Lets all calls of the site pass again, where they didn't.
pub(crate) fn go_on(site: &mut MemSite, stop_after: Option<u64>)
    ensures { Lets (left_behind stop_after (left_of site.old)) site.old site.new }
{
    if stop_after.is_some() {
        site.run_on();
    }
}
