//! What the Tupfiles say by now.
ghost use Rattle.std.specs.Prelude.{◌≡◌, ℕ, [], Ok, IsTrue, IfOk, IfErr, OnErr, OnOk, map};
ghost use Rattle.std.specs.FinMap as finite;
ghost use Rattle.std.specs.Result.{result_err};
ghost use Rattle.tup_site.specs.Crash.{GoesOn};
ghost use Rattle.tup_site.specs.World.{TreeStays, World};
ghost use Rattle.tup_runner.specs.Next.{Next};
ghost use Rattle.tup_table.specs.Table.{entries_in};
ghost use Rattle.tup_graph.specs.Answers.{tup_config};
ghost use Rattle.tup_graph.specs.Opening.{IsGraphOf};
ghost use Rattle.tup_ledger.specs.Sources.{sources_of};
ghost use Rattle.tup_rule_diff.specs.Edits.{dir_of};
ghost use Rattle.tup_stored_graph.specs.Held.{is_fresh, StandsFor};
ghost use Rattle.tup_refresh.specs.Idle.{IsIdle};
ghost use Rattle.tup_refresh.specs.Refresh.{AreSorted, IsRefresh};
ghost use Rattle.tup_promise.specs.Cause.{HasCountedCause};
ghost use Rattle.tup_promise.specs.Crashes.{OwnsNoMore};
ghost use Rattle.tup_promise.specs.Did.{IsNoted, ReadsWhatIsDue};
ghost use Rattle.tup_phases.specs.Kept.{BlamesSources, BringsNothing, HoldsWithin, IsBrought, IsKeptSince, LeavesFiles};
ghost use Rattle.tup_phases.specs.Prepared.{HasSeen, RunsNone, StopsReading};
ghost use Rattle.tup_phases.specs.Room.{FillsStore};

use std::alloc::{AllocError, Global};
use std::marker::Brand;
use std::mem;
use std::sync::ledger::Blank;
use tup_commit::uncounted::swap_rules;
use tup_graph::Nodes;
use tup_law_phases::sorted_may_be_swapped;
use tup_partial::flags_are_of_rules;
use tup_path::{Bytes, Path, Paths};
use tup_project::link_all;
use tup_promise::{Log, Stop};
use tup_refresh::{Refreshed, is_idle, refresh};
use tup_rule::Reading;
use tup_rule_diff::Refreshed as Readings;
use tup_site::Site;
use tup_stored_graph::{Graph, reads_keep_graphs};

/// Reads the Tupfiles that have to be read again, and puts into the graph what they say by now. The log is told of them.
///
/// Where no folder was to be read and no Tupfile vanished, the rules are those of before, and nothing is linked or written. Where
/// that is plain from the scan and from what readings asked, they aren't compared again.
pub(crate) fn brought<S: Site>(
    alloc: Global,
    site: &mut S,
    graph: &mut Graph,
    config: &Option<Bytes>,
    log: &mut Log,
) -> Result<(), Stop>
    requires fresh { IsTrue (is_fresh graph.old) }
    requires stands { IsTrue S.tells
        → StandsFor S.world S.moment S.left_since graph.old site.old }
    requires seen { IsTrue S.tells → HasSeen graph.old.nodes (S.world site.old).tree }
    requires config { IsTrue S.tells
        → config.now ≡ finite.get (S.world site.old).tree tup_config }
    ensures fresh { OnOk result (IsTrue (is_fresh graph.new)) }
    ensures stands { IsTrue S.tells
        → OnOk result (StandsFor S.world S.moment S.left_since graph.new site.new) }
    ensures seen { IsTrue S.tells
        → OnOk result (HasSeen graph.new.nodes (S.world site.new).tree) }
    ensures files { IsTrue S.tells → LeavesFiles S.Site.own site.old site.new }
    ensures trees { IsTrue S.tells
        → GoesOn S.moment S.left_since site.old site.new TreeStays }
    // Where a kept site was scanned it is kept on, and then the graph has what its Tupfiles say.
    ensures kept { IsTrue S.tells → (next : Next) (first : World) (since : ℕ)
        → IsNoted first (S.world site.old) graph.old.nodes
        → IsKeptSince S.Site.own next first since site.old
        → IsKeptSince S.Site.own next first since site.new }
    ensures brought { IsTrue S.tells → (next : Next) (first : World) (since : ℕ)
        → IsNoted first (S.world site.old) graph.old.nodes
        → IsKeptSince S.Site.own next first since site.old
        → OnOk result (IsBrought first graph.new.nodes) }
    // The log of one that read nothing yet has the folders then that had to be read.
    ensures reads { IsTrue S.tells → (next : Next) (first : World) (since : ℕ)
        → IsNoted first (S.world site.old) graph.old.nodes
        → IsKeptSince S.Site.own next first since site.old
        → log.old.read ≡ [] → OnOk result (ReadsWhatIsDue first log.new.read) }
    ensures within { IsTrue S.tells → (next : Next) (first : World) (since : ℕ)
        → IsNoted first (S.world site.old) graph.old.nodes
        → IsKeptSince S.Site.own next first since site.old
        → HoldsWithin first (S.world site.new) }
    ensures blame { IsTrue S.tells → (next : Next) (first : World) (since : ℕ)
        → IsNoted first (S.world site.old) graph.old.nodes
        → IsKeptSince S.Site.own next first since site.old
        → IfErr result (BlamesSources first) }
    ensures owns { IsTrue S.tells → (next : Next) (since : ℕ) (begun : S)
        → IsNoted (S.world begun) (S.world site.old) graph.old.nodes
        → IsKeptSince S.Site.own next (S.world begun) since site.old
        → OwnsNoMore S.Site.own begun since site.old
        → OwnsNoMore S.Site.own begun since site.new }
    ensures none { RunsNone log.old log.new }
    ensures removed { log.new.removed ≡ log.old.removed }
    ensures told { OnErr result (log.new ≡ log.old) }
    // Where the store is said to be full, it lacks room as it is now for what is to be committed next.
    ensures full { IsTrue S.tells → (next : Next) (first : World) (since : ℕ)
        → IsNoted first (S.world site.old) graph.old.nodes
        → IsKeptSince S.Site.own next first since site.old
        → IfErr result (FillsStore (S.world site.new)) }
    ensures stops { IfErr result StopsReading }
    ensures counted { HasCountedCause (S.faults site.old) (S.faults site.new) (result_err result) }
{
    reads_keep_graphs(&*site);
    flags_are_of_rules();
    if is_plain(alloc, &*graph, config) {
        return Ok(());
    }
    let found = refresh(alloc, graph.nodes(), site, config)?;
    if brings_nothing(graph.nodes(), &found) {
        let_go(graph.nodes(), found);
        return Ok(());
    }
    swapped(alloc, site, graph, found, log)
}

/// Whether it is plain, before anything is read, that the readings are those that the graph keeps.
fn is_plain(alloc: Global, graph: &Graph, config: &Option<Bytes>) -> bool
    ensures idle { IsTrue result → IsIdle graph.now.nodes config.now }
    // A law: while the graph is fresh, the store stands for its nodes.
    ensures graph { IsTrue (is_fresh graph.now)
        → IsGraphOf (entries_in graph.now.table) graph.now.nodes }
{
    is_idle(alloc, graph.nodes(), config)
}

/// Whether all readings are those that the graph keeps, and it waits for none.
fn brings_nothing(nodes: &Nodes, found: &Refreshed) -> bool
    ensures { IsTrue result → BringsNothing nodes.now found.now }
{
    found.fresh.len() == 0 && found.gone.len() == 0 && nodes.created().next().is_none()
}

/// Gives up readings that brought nothing. Where no rule is flagged the update ends soon, and `tup` with it: that their memory is
/// freed piece by piece then helps nobody. A program that makes several updates keeps it.
fn let_go(nodes: &Nodes, found: Refreshed) {
    if nodes.flags().next().is_none() {
        mem::forget(found);
    } else {
        drop(found);
    }
}

/// Links the readings of all folders to the rules of the project, and puts readings and rules into the graph.
fn swapped<S: Site>(
    alloc: Global,
    site: &mut S,
    graph: &mut Graph,
    found: Refreshed,
    log: &mut Log,
) -> Result<(), Stop>
    requires fresh { IsTrue (is_fresh graph.old) }
    requires stands { IsTrue S.tells
        → StandsFor S.world S.moment S.left_since graph.old site.old }
    requires seen { IsTrue S.tells → HasSeen graph.old.nodes (S.world site.old).tree }
    requires sorted { AreSorted found }
    ensures fresh { OnOk result (IsTrue (is_fresh graph.new)) }
    ensures stands { IsTrue S.tells
        → OnOk result (StandsFor S.world S.moment S.left_since graph.new site.new) }
    ensures seen { IsTrue S.tells
        → OnOk result (HasSeen graph.new.nodes (S.world site.new).tree) }
    ensures files { IsTrue S.tells → LeavesFiles S.Site.own site.old site.new }
    ensures trees { IsTrue S.tells
        → GoesOn S.moment S.left_since site.old site.new TreeStays }
    // The same, where these are the readings of the sources.
    ensures kept { IsTrue S.tells → (next : Next) (first : World) (since : ℕ)
        → let sources = sources_of graph.old.nodes (S.world site.old).tree in
        IsRefresh graph.old.nodes sources (Ok found)
        → IsNoted first (S.world site.old) graph.old.nodes
        → IsKeptSince S.Site.own next first since site.old
        → IsKeptSince S.Site.own next first since site.new }
    ensures brought { IsTrue S.tells → (next : Next) (first : World) (since : ℕ)
        → let sources = sources_of graph.old.nodes (S.world site.old).tree in
        IsRefresh graph.old.nodes sources (Ok found)
        → IsNoted first (S.world site.old) graph.old.nodes
        → IsKeptSince S.Site.own next first since site.old
        → OnOk result (IsBrought first graph.new.nodes) }
    ensures reads { IsTrue S.tells → (first : World)
        → let sources = sources_of graph.old.nodes (S.world site.old).tree in
        IsRefresh graph.old.nodes sources (Ok found)
        → IsNoted first (S.world site.old) graph.old.nodes
        → OnOk result (ReadsWhatIsDue first log.new.read) }
    ensures within { IsTrue S.tells → (next : Next) (first : World) (since : ℕ)
        → let sources = sources_of graph.old.nodes (S.world site.old).tree in
        IsRefresh graph.old.nodes sources (Ok found)
        → IsNoted first (S.world site.old) graph.old.nodes
        → IsKeptSince S.Site.own next first since site.old
        → HoldsWithin first (S.world site.new) }
    ensures blame { IsTrue S.tells → (next : Next) (first : World) (since : ℕ)
        → let sources = sources_of graph.old.nodes (S.world site.old).tree in
        IsRefresh graph.old.nodes sources (Ok found)
        → IsNoted first (S.world site.old) graph.old.nodes
        → IsKeptSince S.Site.own next first since site.old
        → IfErr result (BlamesSources first) }
    ensures owns { IsTrue S.tells → (next : Next) (since : ℕ) (begun : S)
        → let sources = sources_of graph.old.nodes (S.world site.old).tree in
        IsRefresh graph.old.nodes sources (Ok found)
        → IsNoted (S.world begun) (S.world site.old) graph.old.nodes
        → IsKeptSince S.Site.own next (S.world begun) since site.old
        → OwnsNoMore S.Site.own begun since site.old
        → OwnsNoMore S.Site.own begun since site.new }
    ensures none { RunsNone log.old log.new }
    ensures removed { log.new.removed ≡ log.old.removed }
    ensures told { OnErr result (log.new ≡ log.old) }
    ensures full { IsTrue S.tells → let sources = sources_of graph.old.nodes (S.world site.old).tree in
        IsRefresh graph.old.nodes sources (Ok found) → IfErr result (FillsStore (S.world site.new)) }
    ensures stops { IfErr result StopsReading }
    ensures counted { HasCountedCause (S.faults site.old) (S.faults site.new) (result_err result) }
{
    sorted_may_be_swapped();
    flags_are_of_rules();
    // A law: while the graph is fresh, the store stands for its nodes.
    let _ = graph.nodes();
    let rules = link_all(alloc, found.all.as_slice())?;
    let read = folders_of(alloc, found.fresh.as_slice())?;
    let readings = Readings {
        readings: found.fresh,
        gone: found.gone,
    };
    let blank = Blank::new(1);
    swap_rules::<S, Brand>(alloc, graph, site, &readings, rules.as_slice(), blank)?;
    log.read = read;
    Ok(())
}

/// The folders of some readings, in their order.
fn folders_of(alloc: Global, readings: &[(Path, Reading)]) -> Result<Paths, AllocError>
    ensures { IfOk result (λ folders. folders ≡ map dir_of readings.now) }
{
    let mut folders = Paths::new(alloc);
    for (folder, _) in readings {
        folders.push(folder.clone()?)?;
    }
    Ok(folders)
}
