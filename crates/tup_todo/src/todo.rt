//! What an update of a site would do.
ghost use Rattle.std.specs.Prelude.{IsTrue, IfOk, IfErr};
ghost use Rattle.std.specs.Result.{result_err};
ghost use Rattle.tup_site.specs.Crash.{GoesOn};
ghost use Rattle.tup_runner.specs.Next.{Next};
ghost use Rattle.tup_table.specs.Images.{OpenStep};
ghost use Rattle.tup_law_site.specs.Over.{IsKeptNow};
ghost use Rattle.tup_law_phases.specs.Language.{tupfiles};
ghost use Rattle.tup_phases.specs.Kept.{BlamesSources, LeavesFiles};
ghost use Rattle.tup_phases.specs.Prepared.{StopsSurvey};
ghost use Rattle.tup_phases.specs.Room.{FillsStore};
ghost use Rattle.tup_promise.specs.Cause.{HasCountedCause};
ghost use Rattle.tup_promise.specs.Crashes.{SourcesAndCrashes, SourcesStay};
ghost use Rattle.tup_promise.specs.Kept.{IsKeptBySome};
ghost use Rattle.tup_promise.specs.Needed.{FlagsWhatWasDue};
ghost use Rattle.tup_promise.specs.States.{States};
ghost use Rattle.tup_promise.specs.Unopened.{IsReadable};
ghost use Rattle.tup_todo.specs.Lists.{GoesOnFromStore, ListsWhatIsDue};

use crate::listing::{DueRule, due, vanished};
use std::alloc::Global;
use std::thread::Threads;
use tup_ends::{kept_sites_keep_sources, kept_states_are_states};
use tup_partial::flags_are_of_rules;
use tup_path::{Items, Paths};
use tup_phases::surveyed;
use tup_promise::{Log, Stop};
use tup_site::Site;

/// What an update of a site would do.
#[derive(Drop)]
pub struct Todo {
    /// The folders whose Tupfile was read.
    pub read: Paths,
    /// The files that it would remove, as no rule makes them any more.
    pub removes: Paths,
    /// The rules that it would run.
    pub runs: Items<DueRule>,
}

/// What an update of a site would do: opens the store, reads the Tupfiles that have to be read, and lists the files that no
/// rule makes any more and the rules that have to be run. No file is changed.
///
/// A file that was changed by hand and that no rule makes is listed as any other; an update would refuse it.
pub fn todo_site<W: Threads + Sync, S: Site>(
    rt: &W,
    alloc: Global,
    site: &mut S,
    workers: usize,
) -> Result<Todo, Stop>
    // Whatever the store is.
    ensures unopened { IsTrue S.tells
        → GoesOnFromStore (S.world site.old) (S.world site.new) (result_err result) }
    ensures closed { IsTrue S.tells → (IsReadable (S.world site.old).store → ⊥)
        → GoesOn S.moment S.left_since site.old site.new OpenStep }
    ensures files { IsTrue S.tells → LeavesFiles S.Site.own site.old site.new }
    // Where the site is kept: what is listed had to be read, is due, or vanished. Whatever the answer, it is kept, loses no source
    // whenever a crash comes, and no more is due than was; and a blame is true.
    ensures lists { IsTrue S.tells → (next : Next)
        → IsKeptNow S.Site.own next tupfiles (S.known site.old) site.old
        → IfOk result (ListsWhatIsDue (S.world site.old) (S.world site.new)) }
    ensures kept { IsTrue S.tells → (next : Next)
        → IsKeptNow S.Site.own next tupfiles (S.known site.old) site.old
        → IsKeptNow S.Site.own next tupfiles (S.known site.new) site.new }
    ensures sources_and_crashes { IsTrue S.tells → (next : Next)
        → IsKeptNow S.Site.own next tupfiles (S.known site.old) site.old
        → SourcesAndCrashes S.Site.own next site.old site.new }
    ensures states { IsTrue S.tells → (next : Next)
        → IsKeptNow S.Site.own next tupfiles (S.known site.old) site.old
        → States next (S.world site.old) (S.world site.new) }
    ensures due { IsTrue S.tells → (next : Next)
        → IsKeptNow S.Site.own next tupfiles (S.known site.old) site.old
        → FlagsWhatWasDue (S.world site.old) (S.world site.new) }
    ensures blamed { IsTrue S.tells → (next : Next)
        → IsKeptNow S.Site.own next tupfiles (S.known site.old) site.old
        → IfErr result (BlamesSources (S.world site.old)) }
    // And where the store is said to be full, it lacks room as it is now for what is to be committed next.
    ensures full { IsTrue S.tells → (next : Next)
        → IsKeptNow S.Site.own next tupfiles (S.known site.old) site.old
        → IfErr result (FillsStore (S.world site.new)) }
    ensures sources_stay { IsTrue S.tells → IsKeptBySome S.Site.own site.old
        → SourcesStay S.Site.own site.old site.new }
    // Whatever the site is.
    ensures stops { IfErr result StopsSurvey }
    ensures counted { HasCountedCause (S.faults site.old) (S.faults site.new) (result_err result) }
{
    kept_sites_keep_sources(&*site);
    kept_states_are_states();
    flags_are_of_rules();
    let mut log = Log::new(alloc);
    let graph = surveyed(rt, alloc, site, &mut log, workers, false)?;
    let removes = vanished(alloc, graph.nodes())?;
    let runs = due(alloc, graph.nodes())?;
    Ok(Todo {
        read: log.read,
        removes,
        runs,
    })
}
