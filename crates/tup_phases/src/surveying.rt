//! What there is to be done.
ghost use Rattle.std.specs.Prelude.{◌≡◌, ℕ, IsTrue, IfOk, IfErr, OnOk};
ghost use Rattle.std.specs.FinMap as finite;
ghost use Rattle.std.specs.Result.{result_err};
ghost use Rattle.tup_site.specs.Crash.{GoesOn};
ghost use Rattle.tup_site.specs.World.{TreeStays, World};
ghost use Rattle.tup_runner.specs.Next.{Next};
ghost use Rattle.tup_table.specs.Images.{OpenStep};
ghost use Rattle.tup_scan.specs.Cause.{IsWithinLimits};
ghost use Rattle.tup_graph.specs.Answers.{tup_config};
ghost use Rattle.tup_graph.specs.Kept.{IsGraphIn};
ghost use Rattle.tup_stored_graph.specs.Held.{is_fresh, StandsFor};
ghost use Rattle.tup_law_site.specs.Over.{IsKeptNow};
ghost use Rattle.tup_law_phases.specs.Language.{tupfiles};
ghost use Rattle.tup_promise.specs.Cause.{HasCountedCause};
ghost use Rattle.tup_promise.specs.Crashes.{OwnsNoMore};
ghost use Rattle.tup_promise.specs.Did.{IsScannedFrom, ReadsWhatIsDue};
ghost use Rattle.tup_promise.specs.Unopened.{IsEmptyLog, IsReadable, Unopened};
ghost use Rattle.tup_promise.specs.declared.log.Log.{Log as LogValue};
ghost use Rattle.tup_phases.specs.Kept.{BlamesSources, HoldsWithin, IsBrought, IsKeptSince, KeepsOn, LeavesFiles, OwnsOn};
ghost use Rattle.tup_phases.specs.Prepared.{HasSeen, RunsNone};
ghost use Rattle.tup_phases.specs.Prepared.{StopsReading, StopsSurvey};
ghost use Rattle.tup_phases.specs.Room.{FillsStore};

use crate::bringing::brought;
use std::alloc::Global;
use std::marker::Brand;
use std::sync::ledger::Blank;
use std::thread::Threads;
use tup_commit::scans_see;
use tup_commit::uncounted::note_scan;
use tup_partial::flags_are_of_rules;
use tup_path::Bytes;
use tup_promise::{Log, Stop};
use tup_scan::Still;
use tup_scan_crew::scan_by;
use tup_site::Site;
use tup_stored_graph::{Graph, reads_keep_graphs};

/// The graph of a site's store once it knows what is to be done: its flagged rules are those that have to be run, and what
/// it owns without a rule is what no rule makes any more. The log is told which Tupfiles were read. No file changes.
///
/// A store that is empty or can't be read is told so, and then nothing else is done. Where it `compacts`, a store is compacted
/// that has more than 1,048,576 bytes and more than four times as many as are live. The files are digested in as many threads
/// at once as there are workers.
pub fn surveyed<W: Threads + Sync, S: Site>(
    rt: &W,
    alloc: Global,
    site: &mut S,
    log: &mut Log,
    workers: usize,
    compacts: bool,
) -> Result<Graph, Stop>
    requires { IsEmptyLog log.old }
    ensures fresh { IfOk result (λ graph. IsTrue (is_fresh graph)) }
    ensures stands { IsTrue S.tells
        → IfOk result (λ graph. StandsFor S.world S.moment S.left_since graph site.new) }
    ensures seen { IsTrue S.tells
        → IfOk result (λ graph. HasSeen graph.nodes (S.world site.new).tree) }
    ensures limits { IsTrue S.tells
        → IfOk result (λ _. IsWithinLimits (S.world site.old).tree) }
    ensures files { IsTrue S.tells → LeavesFiles S.Site.own site.old site.new }
    ensures trees { IsTrue S.tells
        → GoesOn S.moment S.left_since site.old site.new TreeStays }
    // A site that was kept stays so whenever since then a crash comes, whatever the answer.
    ensures kept { IsTrue S.tells → (next : Next)
        → IsKeptNow S.Site.own next tupfiles (S.known site.old) site.old
        → let first = S.world site.old in let since = S.moment site.old in
        IsKeptSince S.Site.own next first since site.new }
    // And then the graph has what its Tupfiles say, where there is a graph.
    ensures brought { IsTrue S.tells → (next : Next)
        → IsKeptNow S.Site.own next tupfiles (S.known site.old) site.old
        → IfOk result (λ graph. IsBrought (S.world site.old) graph.nodes) }
    // And the log has just the folders whose Tupfile had to be read.
    ensures reads { IsTrue S.tells → (next : Next)
        → IsKeptNow S.Site.own next tupfiles (S.known site.old) site.old
        → IfOk result (λ _. ReadsWhatIsDue (S.world site.old) log.new.read) }
    // Whatever the answer, what stands in the store stays within what stood there.
    ensures within { IsTrue S.tells → (next : Next)
        → IsKeptNow S.Site.own next tupfiles (S.known site.old) site.old
        → HoldsWithin (S.world site.old) (S.world site.new) }
    // Whenever since then a crash comes, no more is owned than was, but the outputs of the rules that are asked for.
    ensures owns { IsTrue S.tells → (next : Next)
        → IsKeptNow S.Site.own next tupfiles (S.known site.old) site.old
        → OwnsNoMore S.Site.own site.old (S.moment site.old) site.new }
    // What it blames the sources for is so.
    ensures blame { IsTrue S.tells → (next : Next)
        → IsKeptNow S.Site.own next tupfiles (S.known site.old) site.old
        → IfErr result (BlamesSources (S.world site.old)) }
    ensures unopened { IsTrue S.tells
        → Unopened (S.world site.old) (S.world site.new) log.new (result_err result) }
    // And then a crash leaves no more than what was, or an opening of the store.
    ensures closed { IsTrue S.tells → (IsReadable (S.world site.old).store → ⊥)
        → GoesOn S.moment S.left_since site.old site.new OpenStep }
    ensures none { RunsNone log.old log.new }
    ensures removed { log.new.removed ≡ log.old.removed }
    ensures logged { IfErr result (λ _. IsEmptyLog log.new) }
    // Where the store is said to be full, it lacks room as it is now for what is to be committed next.
    ensures full { IsTrue S.tells → (next : Next)
        → IsKeptNow S.Site.own next tupfiles (S.known site.old) site.old
        → IfErr result (FillsStore (S.world site.new)) }
    ensures stops { IfErr result StopsSurvey }
    ensures counted { HasCountedCause (S.faults site.old) (S.faults site.new) (result_err result) }
{
    let mut graph = opened(alloc, site)?;
    let config = noted(rt, alloc, site, &mut graph, workers, compacts)?;
    brought(alloc, site, &mut graph, &config, log)?;
    Ok(graph)
}

/// Opens the graph of the store of a site.
fn opened<S: Site>(alloc: Global, site: &mut S) -> Result<Graph, Stop>
    ensures fresh { IfOk result (λ graph. IsTrue (is_fresh graph)) }
    ensures stands { IsTrue S.tells
        → IfOk result (λ graph. StandsFor S.world S.moment S.left_since graph site.new) }
    // It is that of the store.
    ensures stored { IsTrue S.tells
        → IfOk result (λ graph. IsGraphIn (S.world site.old).store graph.nodes) }
    ensures files { IsTrue S.tells → LeavesFiles S.Site.own site.old site.new }
    ensures kept { IsTrue S.tells → KeepsOn S.Site.own site.old site.new }
    ensures within { IsTrue S.tells → HoldsWithin (S.world site.old) (S.world site.new) }
    ensures owns { IsTrue S.tells → OwnsOn S.Site.own site.old site.new }
    ensures blame { (first : World) → IfErr result (BlamesSources first) }
    ensures crash { IsTrue S.tells
        → GoesOn S.moment S.left_since site.old site.new OpenStep }
    // Nothing else was done.
    ensures unopened { IsTrue S.tells → (log : LogValue) → IsEmptyLog log
        → Unopened (S.world site.old) (S.world site.new) log (result_err result) }
    // It is never said to be full.
    ensures full { (w : World) → IfErr result (FillsStore w) }
    ensures stops { IfErr result StopsSurvey }
    ensures counted { HasCountedCause (S.faults site.old) (S.faults site.new) (result_err result) }
{
    flags_are_of_rules();
    Ok(Graph::open(alloc, site)?)
}

/// Notes in the graph what changed among the files, and gives the content of tup.config. The store is compacted first where
/// that is wanted and worth it.
fn noted<W: Threads + Sync, S: Site>(
    rt: &W,
    alloc: Global,
    site: &mut S,
    graph: &mut Graph,
    workers: usize,
    compacts: bool,
) -> Result<Option<Bytes>, Stop>
    requires fresh { IsTrue (is_fresh graph.old) }
    requires stands { IsTrue S.tells
        → StandsFor S.world S.moment S.left_since graph.old site.old }
    ensures fresh { OnOk result (IsTrue (is_fresh graph.new)) }
    ensures stands { IsTrue S.tells
        → OnOk result (StandsFor S.world S.moment S.left_since graph.new site.new) }
    ensures seen { IsTrue S.tells
        → OnOk result (HasSeen graph.new.nodes (S.world site.new).tree) }
    ensures scanned { IfOk result
        (λ config. IsScannedFrom graph.old.nodes config graph.new.nodes) }
    ensures config { IsTrue S.tells
        → IfOk result (λ config. config ≡ finite.get (S.world site.old).tree tup_config) }
    ensures limits { IsTrue S.tells
        → IfOk result (λ _. IsWithinLimits (S.world site.old).tree) }
    ensures files { IsTrue S.tells → LeavesFiles S.Site.own site.old site.new }
    ensures trees { IsTrue S.tells
        → GoesOn S.moment S.left_since site.old site.new TreeStays }
    ensures kept { IsTrue S.tells → KeepsOn S.Site.own site.old site.new }
    // Where the graph is that of a kept world, what stands in the store then stays within what that world had.
    ensures within { IsTrue S.tells → (next : Next) (first : World) (since : ℕ)
        → IsGraphIn first.store graph.old.nodes → TreeStays first (S.world site.old)
        → IsKeptSince S.Site.own next first since site.old
        → HoldsWithin first (S.world site.new) }
    ensures owns { IsTrue S.tells → OwnsOn S.Site.own site.old site.new }
    ensures blame { IsTrue S.tells → (first : World) → TreeStays first (S.world site.old)
        → IfErr result (BlamesSources first) }
    // Where the store is said to be full, it lacks room as it is now for what is to be committed next.
    ensures full { IsTrue S.tells → IfErr result (FillsStore (S.world site.new)) }
    ensures stops { IfErr result StopsReading }
    ensures counted { HasCountedCause (S.faults site.old) (S.faults site.new) (result_err result) }
{
    tidied(alloc, site, graph, compacts)?;
    scanned(rt, alloc, site, graph, workers)
}

/// Compacts the store of a graph where that is wanted and worth it.
fn tidied<S: Site>(
    alloc: Global,
    site: &mut S,
    graph: &mut Graph,
    compacts: bool,
) -> Result<(), Stop>
    requires fresh { IsTrue (is_fresh graph.old) }
    requires stands { IsTrue S.tells
        → StandsFor S.world S.moment S.left_since graph.old site.old }
    ensures nodes { graph.new.nodes ≡ graph.old.nodes }
    ensures fresh { OnOk result (IsTrue (is_fresh graph.new)) }
    ensures stands { IsTrue S.tells
        → OnOk result (StandsFor S.world S.moment S.left_since graph.new site.new) }
    ensures files { IsTrue S.tells → LeavesFiles S.Site.own site.old site.new }
    ensures trees { IsTrue S.tells
        → GoesOn S.moment S.left_since site.old site.new TreeStays }
    ensures kept { IsTrue S.tells → KeepsOn S.Site.own site.old site.new }
    // Where the graph is that of a world, what stands in the store then stays within what that world had.
    ensures within { IsTrue S.tells → (first : World) → IsGraphIn first.store graph.old.nodes
        → HoldsWithin first (S.world site.new) }
    ensures owns { IsTrue S.tells → OwnsOn S.Site.own site.old site.new }
    ensures blame { (first : World) → IfErr result (BlamesSources first) }
    // It is never said to be full.
    ensures full { (w : World) → IfErr result (FillsStore w) }
    ensures stops { IfErr result StopsReading }
    ensures counted { HasCountedCause (S.faults site.old) (S.faults site.new) (result_err result) }
{
    reads_keep_graphs(&*site);
    flags_are_of_rules();
    // A law: while the graph is fresh, the store stands for its nodes.
    let _ = graph.nodes();
    if !compacts {
        return Ok(());
    }
    let len = site.db_len(alloc)?;
    if !graph.is_sparse(len) {
        return Ok(());
    }
    graph.compact(alloc, site)?;
    Ok(())
}

/// Scans the files, notes in the graph what changed among them, and gives the content of tup.config.
fn scanned<W: Threads + Sync, S: Site>(
    rt: &W,
    alloc: Global,
    site: &mut S,
    graph: &mut Graph,
    workers: usize,
) -> Result<Option<Bytes>, Stop>
    requires fresh { IsTrue (is_fresh graph.old) }
    requires stands { IsTrue S.tells
        → StandsFor S.world S.moment S.left_since graph.old site.old }
    ensures fresh { OnOk result (IsTrue (is_fresh graph.new)) }
    ensures stands { IsTrue S.tells
        → OnOk result (StandsFor S.world S.moment S.left_since graph.new site.new) }
    ensures seen { IsTrue S.tells
        → OnOk result (HasSeen graph.new.nodes (S.world site.new).tree) }
    ensures scanned { IfOk result
        (λ config. IsScannedFrom graph.old.nodes config graph.new.nodes) }
    ensures config { IsTrue S.tells
        → IfOk result (λ config. config ≡ finite.get (S.world site.old).tree tup_config) }
    ensures limits { IsTrue S.tells
        → IfOk result (λ _. IsWithinLimits (S.world site.old).tree) }
    ensures files { IsTrue S.tells → LeavesFiles S.Site.own site.old site.new }
    ensures trees { IsTrue S.tells
        → GoesOn S.moment S.left_since site.old site.new TreeStays }
    ensures kept { IsTrue S.tells → KeepsOn S.Site.own site.old site.new }
    // Where the graph is that of a kept world, what stands in the store then stays within what that world had.
    ensures within { IsTrue S.tells → (next : Next) (first : World) (since : ℕ)
        → IsGraphIn first.store graph.old.nodes → TreeStays first (S.world site.old)
        → IsKeptSince S.Site.own next first since site.old
        → HoldsWithin first (S.world site.new) }
    ensures owns { IsTrue S.tells → OwnsOn S.Site.own site.old site.new }
    ensures blame { IsTrue S.tells → (first : World) → TreeStays first (S.world site.old)
        → IfErr result (BlamesSources first) }
    // Where the store is said to be full, it lacks room as it is now for what is to be committed next.
    ensures full { IsTrue S.tells → IfErr result (FillsStore (S.world site.new)) }
    ensures stops { IfErr result StopsReading }
    ensures counted { HasCountedCause (S.faults site.old) (S.faults site.new) (result_err result) }
{
    reads_keep_graphs(&*site);
    scans_see();
    flags_are_of_rules();
    // A law: while the graph is fresh, the store stands for its nodes.
    let _ = graph.nodes();
    let seen = scan_by(rt, alloc, site, &Still, workers)?;
    note_scan::<S, Brand>(alloc, graph, site, &seen, Blank::new(1))?;
    Ok(seen.config)
}
