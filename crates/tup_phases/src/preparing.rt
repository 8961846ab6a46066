//! The phases in their order.
ghost use Rattle.std.specs.Prelude.{◌≡◌, ℕ, IsTrue, IfOk, IfErr, OnOk, OnErr};
ghost use Rattle.std.specs.Result.{result_err};
ghost use Rattle.tup_site.specs.Crash.{GoesOn};
ghost use Rattle.tup_site.specs.Known.{Keeps};
ghost use Rattle.tup_site.specs.World.{TreeStays, World};
ghost use Rattle.tup_runner.specs.Next.{Next};
ghost use Rattle.tup_table.specs.Images.{OpenStep};
ghost use Rattle.tup_table.specs.Table.{entries_in};
ghost use Rattle.tup_scan.specs.Cause.{IsWithinLimits};
ghost use Rattle.tup_graph.specs.Opening.{IsGraphOf};
ghost use Rattle.tup_stored_graph.specs.Held.{is_fresh, StandsFor};
ghost use Rattle.tup_stale.specs.Cleared.{AllAreMade};
ghost use Rattle.tup_law_site.specs.Over.{IsKeptNow};
ghost use Rattle.tup_law_phases.specs.Language.{tupfiles};
ghost use Rattle.tup_promise.specs.Cause.{HasCountedCause};
ghost use Rattle.tup_promise.specs.Crashes.{OwnsNoMore};
ghost use Rattle.tup_promise.specs.Did.{ReadAndRemoved, RemovesWhatIsUnmade};
ghost use Rattle.tup_promise.specs.Kept.{AsksFor, OfGraph};
ghost use Rattle.tup_promise.specs.Needed.{FlagsWhatWasDue};
ghost use Rattle.tup_promise.specs.Prepared.{IsPrepared};
ghost use Rattle.tup_promise.specs.States.{KeepsStates};
ghost use Rattle.tup_promise.specs.Unopened.{IsEmptyLog, IsReadable, Unopened};
ghost use Rattle.tup_promise.specs.Users.{HasUsersFile};
ghost use Rattle.tup_phases.specs.Kept.{BlamesSources, HoldsWithin, IsBrought, IsKeptSince, KeepsRuns, OwnsOn, StaysBrought};
ghost use Rattle.tup_phases.specs.Prepared.{HasSeen, LogsBefore, RunsNone};
ghost use Rattle.tup_phases.specs.Prepared.{StopsBefore, StopsClearing, StopsOpened};
ghost use Rattle.tup_phases.specs.Room.{FillsStore};
ghost use Rattle.tup_phases.specs.Spared.{LeavesTree};

use crate::surveying::surveyed;
use std::alloc::Global;
use std::thread::Threads;
use tup_law_board::cleared_are_unseen;
use tup_promise::{Log, Stop};
use tup_site::Site;
use tup_stale::clear;
use tup_stored_graph::Graph;

/// The graph of a site's store once it is up to date: its flagged rules are those that have to be run. The log is told
/// which Tupfiles were read and which files were removed.
///
/// A store that is empty or can't be read is told so, and then nothing else is done.
pub fn prepared<W: Threads + Sync, S: Site>(
    rt: &W,
    alloc: Global,
    site: &mut S,
    log: &mut Log,
    workers: usize,
) -> Result<Graph, Stop>
    requires { IsEmptyLog log.old }
    ensures fresh { IfOk result (λ graph. IsTrue (is_fresh graph)) }
    ensures stands { IsTrue S.tells
        → IfOk result (λ graph. StandsFor S.world S.moment S.left_since graph site.new) }
    ensures seen { IsTrue S.tells
        → IfOk result (λ graph. HasSeen graph.nodes (S.world site.new).tree) }
    ensures limits { IsTrue S.tells
        → IfOk result (λ _. IsWithinLimits (S.world site.old).tree) }
    // A site that was kept stays so, as it is and whenever since then a crash comes, whatever the answer.
    ensures kept { IsTrue S.tells → (next : Next)
        → IsKeptNow S.Site.own next tupfiles (S.known site.old) site.old
        → IsKeptNow S.Site.own next tupfiles (S.known site.new) site.new }
    ensures crash { IsTrue S.tells → (next : Next)
        → IsKeptNow S.Site.own next tupfiles (S.known site.old) site.old
        → IsKeptSince S.Site.own next (S.world site.old) (S.moment site.old) site.new }
    // And then it is prepared, where there is a graph.
    ensures prepared { IsTrue S.tells → (next : Next)
        → IsKeptNow S.Site.own next tupfiles (S.known site.old) site.old
        → let first = S.world site.old in let since = S.moment site.old in
        IfOk result (λ graph. IsPrepared S.Site.own next first since graph site.new) }
    ensures known { IsTrue S.tells → Keeps (S.known site.old) (S.known site.new) }
    // Whatever the answer, no rule is flagged then but those that were due, and owned paths keep their states.
    ensures due { IsTrue S.tells → (next : Next)
        → IsKeptNow S.Site.own next tupfiles (S.known site.old) site.old
        → FlagsWhatWasDue (S.world site.old) (S.world site.new) }
    ensures states { IsTrue S.tells → (next : Next)
        → IsKeptNow S.Site.own next tupfiles (S.known site.old) site.old
        → OfGraph (S.world site.new) (KeepsStates (S.world site.old)) }
    ensures prepared_states { IsTrue S.tells → (next : Next)
        → IsKeptNow S.Site.own next tupfiles (S.known site.old) site.old
        → IfOk result (λ graph. KeepsStates (S.world site.old) graph.nodes) }
    // Its rules have the records that they had in the store.
    ensures records { IsTrue S.tells → (next : Next)
        → IsKeptNow S.Site.own next tupfiles (S.known site.old) site.old
        → IfOk result (λ graph. OfGraph (S.world site.old) (λ was. KeepsRuns was graph.nodes)) }
    // Whenever since then a crash comes, no more is owned than was, but the outputs of the rules that are asked for.
    ensures owns { IsTrue S.tells → (next : Next)
        → IsKeptNow S.Site.own next tupfiles (S.known site.old) site.old
        → OwnsNoMore S.Site.own site.old (S.moment site.old) site.new }
    // What it blames the sources for is so.
    ensures blame { IsTrue S.tells → (next : Next)
        → IsKeptNow S.Site.own next tupfiles (S.known site.old) site.old
        → IfErr result (BlamesSources (S.world site.old)) }
    // Where a file of the user's stands at a path that no rule makes, it is stopped, and no file is touched.
    ensures held { IsTrue S.tells → (next : Next)
        → IsKeptNow S.Site.own next tupfiles (S.known site.old) site.old
        → HasUsersFile (S.world site.old) → OnOk result ⊥ }
    ensures users { IsTrue S.tells → (next : Next)
        → IsKeptNow S.Site.own next tupfiles (S.known site.old) site.old
        → HasUsersFile (S.world site.old) → TreeStays (S.world site.old) (S.world site.new) }
    ensures trees { IsTrue S.tells → (next : Next)
        → IsKeptNow S.Site.own next tupfiles (S.known site.old) site.old
        → HasUsersFile (S.world site.old)
        → GoesOn S.moment S.left_since site.old site.new TreeStays }
    // The log has just the folders whose Tupfile had to be read, and the files that had to be removed, as far as it came.
    ensures did { IsTrue S.tells → (next : Next)
        → IsKeptNow S.Site.own next tupfiles (S.known site.old) site.old
        → ReadAndRemoved (S.world site.old) log.new (result_err result) }
    ensures unopened { IsTrue S.tells
        → Unopened (S.world site.old) (S.world site.new) log.new (result_err result) }
    // And then a crash leaves no more than what was, or an opening of the store.
    ensures closed { IsTrue S.tells → (IsReadable (S.world site.old).store → ⊥)
        → GoesOn S.moment S.left_since site.old site.new OpenStep }
    ensures none { RunsNone log.old log.new }
    ensures logged { IfErr result (LogsBefore log.new) }
    ensures spares { IsTrue S.tells
        → IfErr result (LeavesTree (S.world site.old) (S.world site.new)) }
    // Where the store is said to be full, it lacks room as it is now for what is to be committed next.
    ensures full { IsTrue S.tells → (next : Next)
        → IsKeptNow S.Site.own next tupfiles (S.known site.old) site.old
        → IfErr result (FillsStore (S.world site.new)) }
    ensures stops { IfErr result StopsBefore }
    ensures counted { HasCountedCause (S.faults site.old) (S.faults site.new) (result_err result) }
{
    let mut graph = surveyed(rt, alloc, site, log, workers, true)?;
    cleared(alloc, site, &mut graph, log)?;
    Ok(graph)
}

/// Removes the files that no rule makes any more, and tells the log of them.
fn cleared<S: Site>(
    alloc: Global,
    site: &mut S,
    graph: &mut Graph,
    log: &mut Log,
) -> Result<(), Stop>
    requires fresh { IsTrue (is_fresh graph.old) }
    requires stands { IsTrue S.tells
        → StandsFor S.world S.moment S.left_since graph.old site.old }
    requires seen { IsTrue S.tells → HasSeen graph.old.nodes (S.world site.old).tree }
    ensures fresh { OnOk result (IsTrue (is_fresh graph.new)) }
    ensures stands { IsTrue S.tells
        → OnOk result (StandsFor S.world S.moment S.left_since graph.new site.new) }
    ensures seen { IsTrue S.tells
        → OnOk result (HasSeen graph.new.nodes (S.world site.new).tree) }
    ensures stays { OnOk result (StaysBrought graph.old.nodes graph.new.nodes) }
    ensures made { OnOk result (AllAreMade graph.new.nodes) }
    ensures graph { OnOk result (IsGraphOf (entries_in graph.new.table) graph.new.nodes) }
    // Where the rules are those that the sources ask for, a site that was kept is kept on, and as it is.
    ensures known { IsTrue S.tells → Keeps (S.known site.old) (S.known site.new) }
    ensures kept { IsTrue S.tells → (next : Next) (first : World) (since : ℕ)
        → AsksFor first graph.old.nodes.rules
        → IsKeptSince S.Site.own next first since site.old
        → IsKeptSince S.Site.own next first since site.new }
    ensures present { IsTrue S.tells → (next : Next) (first : World) (since : ℕ)
        → AsksFor first graph.old.nodes.rules
        → IsKeptSince S.Site.own next first since site.old
        → IsKeptNow S.Site.own next tupfiles (S.known site.old) site.old
        → IsKeptNow S.Site.own next tupfiles (S.known site.new) site.new }
    ensures within { IsTrue S.tells → (next : Next) (first : World) (since : ℕ)
        → HoldsWithin first (S.world site.old)
        → IsKeptSince S.Site.own next first since site.old
        → HoldsWithin first (S.world site.new) }
    ensures owns { IsTrue S.tells → OwnsOn S.Site.own site.old site.new }
    ensures blame { IsTrue S.tells → (first : World) → IsBrought first graph.old.nodes
        → TreeStays first (S.world site.old) → IfErr result (BlamesSources first) }
    // Where a file of the user's stands at such a path, it is stopped, and no file is touched.
    ensures held { IsTrue S.tells → (first : World) → IsBrought first graph.old.nodes
        → TreeStays first (S.world site.old) → HasUsersFile first → OnOk result ⊥ }
    ensures users { IsTrue S.tells → (first : World) → IsBrought first graph.old.nodes
        → TreeStays first (S.world site.old) → HasUsersFile first
        → TreeStays first (S.world site.new) }
    ensures trees { IsTrue S.tells → (first : World) → IsBrought first graph.old.nodes
        → TreeStays first (S.world site.old) → HasUsersFile first
        → GoesOn S.moment S.left_since site.old site.new TreeStays }
    // The log has just the files then that had to be removed.
    ensures removes { IsTrue S.tells → (first : World) → IsBrought first graph.old.nodes
        → TreeStays first (S.world site.old)
        → OnOk result (RemovesWhatIsUnmade first log.new.removed) }
    ensures read { log.new.read ≡ log.old.read }
    ensures none { RunsNone log.old log.new }
    ensures told { OnErr result (log.new ≡ log.old) }
    ensures clears { IfErr result StopsClearing }
    ensures spares { IsTrue S.tells
        → IfErr result (LeavesTree (S.world site.old) (S.world site.new)) }
    // Where the store is said to be full, it lacks room as it is now for what is to be committed next.
    ensures full { IsTrue S.tells → IfErr result (FillsStore (S.world site.new)) }
    ensures stops { IfErr result StopsOpened }
    ensures counted { HasCountedCause (S.faults site.old) (S.faults site.new) (result_err result) }
{
    cleared_are_unseen();
    // A law: while the graph is fresh, the store stands for its nodes.
    let _ = graph.nodes();
    log.removed = clear(alloc, graph, site)?;
    Ok(())
}
