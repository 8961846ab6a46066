//! One update, from the store and the sources to the files.
ghost use Rattle.std.specs.Prelude.{◌≡◌, ◌<◌, ◌≤◌, None, length, map, IsTrue, IfSome};
ghost use Rattle.tup_site.specs.Crash.{GoesOn};
ghost use Rattle.tup_table.specs.Images.{OpenStep};
ghost use Rattle.tup_law_site.specs.Over.{IsKeptNow};
ghost use Rattle.tup_law_phases.specs.Language.{tupfiles};
ghost use Rattle.tup_promise.specs.Cause.{CrewCountedCause, CrewRunCause, IsWithin};
ghost use Rattle.tup_promise.specs.BadEnds.{BadEnds, BlamesFirst};
ghost use Rattle.tup_promise.specs.Blamed.{IsToBlame};
ghost use Rattle.tup_promise.specs.Crashes.{SourcesAndCrashes, SourcesStay};
ghost use Rattle.tup_promise.specs.Did.{ReadAndRemoved};
ghost use Rattle.tup_promise.specs.Finished.{IsSettled, ExactlyTheFiles};
ghost use Rattle.tup_promise.specs.GoodEnds.{GoodEnds};
ghost use Rattle.tup_promise.specs.Kept.{IsKeptBySome, KeptHere};
ghost use Rattle.tup_promise.specs.Needed.{OnlyWhatIsNeeded};
ghost use Rattle.tup_phases.specs.Logged.{IsLogged};
ghost use Rattle.tup_phases.specs.Spared.{LeavesTree};
ghost use Rattle.tup_promise.specs.Ran.{CrewRuns};
ghost use Rattle.tup_promise.specs.States.{States};
ghost use Rattle.tup_promise.specs.Unopened.{IsReadable, Unopened};
ghost use Rattle.tup_promise.specs.Users.{HasUsersFile, IsHeldUp};
ghost use Rattle.tup_update.specs.Because.{AreExplained, CountsChains, OfEnded};
ghost use Rattle.tup_update.specs.Full.{HasFullCause};

use crate::run::run_flagged;
use std::alloc::Global;
use std::sync::Wait;
use std::thread::Threads;
use tup_path::{Items, Text};
use tup_phases::prepared;
use tup_progress::Started;
use tup_promise::{Log, Stop};
use tup_runner::Runner;
use tup_site::Site;
use tup_why::none_waits_for_itself;

/// What is asked of an update.
#[derive(Clone, Copy)]
pub struct Asked {
    /// Whether it goes on after a bad command.
    pub keep_going: bool,
    /// Whether it says why each rule was run.
    pub explain: bool,
}

/// What an update did, the site and the crew as it left them, and why it stopped before its end, if it did.
#[derive(Drop)]
pub struct Updated<S: Site, R: Runner> {
    pub site: S,
    /// The runners, in their order.
    pub crew: Vec<R>,
    pub log: Log,
    /// Why the rules of `log.ended` were run, where that was asked for: the chain of a reason of each, in their order.
    pub because: Items<Option<Text>>,
    pub stopped: Option<Stop>,
}

/// Updates the files of a site: opens the store, reads the Tupfiles that have to be read, removes the files that no rule
/// makes any more, and has a crew of runners run the rules that have to be run, at most as many at once as it has runners.
///
/// Where it is asked why, it says of each rule whose command came to a verdict the chain of a reason: from a changed file, a new
/// rule or an unfinished one to that rule.
///
/// At a bad verdict it begins no more rules, or goes on with those that don't need that one. What was made by then stays
/// made. Where nothing stops it, what it leaves is the same in whatever order the runners get on.
///
/// How many rules it has to run is told to `started` before the first of them is run.
pub fn update_site<W: Threads + Wait + Sync, S: Site + Send, R: Runner + Send>(
    rt: &W,
    alloc: Global,
    mut site: S,
    crew: Vec<R>,
    asked: Asked,
    started: &Started,
) -> Updated<S, R>
    requires crew { (0 < length crew.items) × (length crew.items ≤ 16) }
    // Whatever the store is: where it is empty or can't be read nothing is done, and it is told exactly there.
    ensures unopened { IsTrue S.tells
        → Unopened (S.world site) (S.world result.site) result.log result.stopped }
    // Then a crash leaves no more than what was, or an opening of the store, whatever the answer.
    ensures closed { IsTrue S.tells → (IsReadable (S.world site).store → ⊥)
        → GoesOn S.moment S.left_since site result.site OpenStep }
    // Where the site is kept, and site and runner tell. Whatever the answer, rules were run only where they were due, no source
    // is lost whenever a crash comes, and a blame is true; where nothing stopped it, the files are those of a clean build.
    ensures exactly_the_files { KeptHere S.Site.own R.Runner.own site
        → ExactlyTheFiles R.next (S.world site) (S.world result.site) result.stopped }
    ensures only_what_is_needed { KeptHere S.Site.own R.Runner.own site
        → let old = S.world site in let new = S.world result.site in
        OnlyWhatIsNeeded R.next asked.keep_going (length crew.items)
        old new result.log.ran result.stopped }
    ensures sources_and_crashes { KeptHere S.Site.own R.Runner.own site
        → SourcesAndCrashes S.Site.own R.next site result.site }
    ensures states { KeptHere S.Site.own R.Runner.own site
        → States R.next (S.world site) (S.world result.site) }
    ensures blamed { KeptHere S.Site.own R.Runner.own site
        → let old = S.world site in let new = S.world result.site in
        IsToBlame R.next old new result.log.ran result.stopped }
    // So is each bad verdict in the log; and the bad rule that is blamed is the first of them.
    ensures bads { KeptHere S.Site.own R.Runner.own site
        → BadEnds R.next (S.world site) result.log }
    ensures first { KeptHere S.Site.own R.Runner.own site
        → BlamesFirst (S.world site) result.log result.stopped }
    // Each rule that ended well is good in the clean build, what it made stands, and the next update doesn't run it again; nor is
    // one due then that wasn't due before.
    ensures left { KeptHere S.Site.own R.Runner.own site
        → GoodEnds R.next (S.world site) (S.world result.site) result.log }
    // And where it is told that the store is full, there is no room in it.
    ensures full { KeptHere S.Site.own R.Runner.own site
        → HasFullCause S.Site.own R.next site result.site
        result.log.ran result.stopped }
    ensures kept { KeptHere S.Site.own R.Runner.own site
        → IsKeptNow S.Site.own R.next tupfiles (S.known result.site) result.site }
    ensures settled { KeptHere S.Site.own R.Runner.own site → result.stopped ≡ None
        → IsSettled S.Site.own result.site }
    // Whatever the runner is.
    ensures sources_stay { IsTrue S.tells → IsKeptBySome S.Site.own site
        → SourcesStay S.Site.own site result.site }
    // Nor is a file of the user's touched at a path that no rule makes: it holds the update up.
    ensures users { IsTrue S.tells → IsKeptBySome S.Site.own site → HasUsersFile (S.world site)
        → IsHeldUp S.Site.own site result.site result.log.ran result.stopped }
    // Its log has just the folders whose Tupfile had to be read, and the files that had to be removed.
    ensures did { IsTrue S.tells → IsKeptBySome S.Site.own site
        → ReadAndRemoved (S.world site) result.log result.stopped }
    // And where it is asked why, each rule that came to a verdict has the chain of a reason that holds.
    ensures why { IsTrue S.tells → IsKeptBySome S.Site.own site → IsTrue asked.explain
        → OfEnded result.log (λ ended. AreExplained S.Site.own site ended result.because) }
    // And where the sources have a fault, or a file of the user's stands in the way, no file is touched.
    ensures spares { IsTrue S.tells
        → IfSome result.stopped (LeavesTree (S.world site) (S.world result.site)) }
    // Where it came to its rules, the files were within the limits.
    ensures limits { IsTrue S.tells → IsWithin (S.world site) result.stopped }
    // Whatever site and runners are.
    ensures crew { length result.crew.items ≡ length crew.items }
    ensures because { OfEnded result.log
        (λ ended. CountsChains asked.explain ended result.because) }
    ensures logged { IsLogged (length crew.items) asked.keep_going result.log result.stopped }
    ensures counted_cause { CrewCountedCause (length crew.items)
        (S.faults site) (S.faults result.site) result.stopped }
    ensures run_cause { CrewRunCause
        (map R.faults crew.items) (map R.faults result.crew.items) result.stopped }
    ensures ran { IsTrue R.tells_ran → CrewRuns result.log.ran
        (map R.ran crew.items) (map R.ran result.crew.items) result.stopped }
{
    none_waits_for_itself();
    let mut log = Log::new(alloc);
    match prepared(rt, alloc, &mut site, &mut log, crew.len()) {
        Ok(graph) => run_flagged(rt, alloc, site, graph, crew, asked, started, log),
        Err(stop) => Updated {
            site,
            crew,
            log,
            because: Items::new(alloc),
            stopped: Some(stop),
        },
    }
}
