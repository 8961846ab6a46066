//! Boards at their opening.
ghost use Rattle.std.specs.Prelude.{◌≡◌, [], IfOk, IsTrue};
ghost use Rattle.tup_scan.specs.Seen.{IsSeen};
ghost use Rattle.tup_stored_graph.specs.Held.{is_fresh, StandsFor};
ghost use Rattle.tup_board.specs.Board.{plan_of as planned_at};
ghost use Rattle.tup_board.specs.Outputs.{AreApart, IsPlanOf};
ghost use Rattle.tup_board_rows.specs.Opening.{IsReady};

use crate::desk::Desk;
use crate::project::{Given, reach_at};
use crate::quiet::Quiet;
use crate::store::site_of;
use std::alloc::Global;
use std::marker::Brand;
use std::sync::ledger::Blank;
use tup_apart::plan_over;
use tup_board::Board;
use tup_commit::uncounted::note_scan;
use tup_core::Plan;
use tup_path::Path;
use tup_rows::{RowFault, Words};
use tup_runner::Runner;
use tup_scan::{Seen, Still, scan};
use tup_site::{MemSite, Site};
use tup_stored_graph::Graph;

/// The board of a row at its opening, whose site lets so many calls pass. `OtherKind` where no board may be made.
pub(crate) fn board_of(
    alloc: Global,
    given: &Given,
    said: &Words,
    calls: u64,
) -> Result<Desk, RowFault> {
    let reach = reach_at(alloc, said, 0);
    let keep_going = said.str_at(1) == "keep";
    match site_of(alloc, &given.project, reach.as_slice()) {
        Ok(site) => open(alloc, site, keep_going, calls, &given.large),
        Err(fault) => Err(fault),
    }
}

/// The board of the next update of a site, all of whose calls pass.
pub(crate) fn next_board(alloc: Global, site: MemSite) -> Result<Desk, RowFault> {
    open(alloc, Quiet::new(site), false, u64::MAX, &None)
}

/// A board over a site whose store has a graph, once its tree was scanned; then a file grows, and from then on the site lets
/// so many calls pass.
fn open(
    alloc: Global,
    mut site: Quiet,
    keep_going: bool,
    calls: u64,
    large: &Option<(Path, u64)>,
) -> Result<Desk, RowFault> {
    match scanned(alloc, &mut site, calls, large) {
        Ok(graph) => seated(alloc, site, graph, keep_going),
        Err(fault) => {
            drop(site);
            Err(fault)
        }
    }
}

/// Its board, at which nobody was told anything yet.
fn seated(alloc: Global, site: Quiet, graph: Graph, keep_going: bool) -> Result<Desk, RowFault>
    requires { IsTrue (is_fresh graph) }
{
    match planned(alloc, site, graph, keep_going) {
        Ok((board, plan)) => Desk::of(alloc, board, plan),
        Err(fault) => Err(fault),
    }
}

/// The graph of a site's store, which has seen the files of its tree; then the site may fail.
fn scanned(
    alloc: Global,
    site: &mut Quiet,
    calls: u64,
    large: &Option<(Path, u64)>,
) -> Result<Graph, RowFault>
    ensures { IfOk result (λ graph. IsTrue (is_fresh graph)) }
{
    let graph = noted(alloc, site)?;
    site.stop_after(calls);
    site.set_large(large)?;
    Ok(graph)
}

/// A board over a site whose store has a graph, once its tree was scanned, and the board's plan.
pub(crate) fn board_over<S: Site, R: Runner>(
    alloc: Global,
    mut site: S,
    keep_going: bool,
) -> Result<(Board<S, R>, Plan), RowFault>
    ensures plan { IfOk result (λ both. both.1 ≡ planned_at both.0) }
    ensures none { IfOk result (λ both. both.0.history ≡ []) }
{
    match noted(alloc, &mut site) {
        Ok(graph) => planned(alloc, site, graph, keep_going),
        Err(fault) => {
            drop(site);
            Err(fault)
        }
    }
}

/// A board over a site and its graph, if one may be made, and the board's plan.
fn planned<S: Site, R: Runner>(
    alloc: Global,
    site: S,
    graph: Graph,
    keep_going: bool,
) -> Result<(Board<S, R>, Plan), RowFault>
    requires { IsReady S.Site.own graph site }
    ensures plan { IfOk result (λ both. both.1 ≡ planned_at both.0) }
    ensures none { IfOk result (λ both. both.0.history ≡ []) }
{
    match tested(alloc, &graph, keep_going) {
        Ok(plan) => made(alloc, site, graph, plan),
        Err(fault) => {
            drop(site);
            drop(graph);
            Err(fault)
        }
    }
}

/// The board that runs a plan.
fn made<S: Site, R: Runner>(
    alloc: Global,
    site: S,
    graph: Graph,
    plan: Plan,
) -> Result<(Board<S, R>, Plan), RowFault>
    requires ready { IsReady S.Site.own graph site }
    requires plan { IsPlanOf graph.nodes plan }
    requires apart { AreApart plan graph.nodes }
    ensures plan { IfOk result (λ both. both.1 ≡ planned_at both.0) }
    ensures none { IfOk result (λ both. both.0.history ≡ []) }
{
    match Board::new(alloc, site, graph, &plan) {
        Ok(board) => Ok((board, plan)),
        Err(back) => {
            drop(back);
            drop(plan);
            Err(RowFault::Memory)
        }
    }
}

/// The graph of a site's store, which has seen the files of its tree.
fn noted<S: Site>(alloc: Global, site: &mut S) -> Result<Graph, RowFault>
    ensures { IfOk result (λ graph. IsReady S.Site.own graph site.new) }
{
    match Graph::open(alloc, site) {
        Ok(graph) => note(alloc, site, graph),
        Err(_) => Err(RowFault::OtherKind),
    }
}

/// A graph takes note of the files of a site.
fn note<S: Site>(alloc: Global, site: &mut S, mut graph: Graph) -> Result<Graph, RowFault>
    requires fresh { IsTrue (is_fresh graph) }
    requires stands { IsTrue S.tells
        → StandsFor S.world S.moment S.left_since graph site.old }
    ensures { IfOk result (λ graph. IsReady S.Site.own graph site.new) }
{
    if is_noted(alloc, site, &mut graph) {
        Ok(graph)
    } else {
        drop(graph);
        Err(RowFault::OtherKind)
    }
}

/// Whether a graph has taken note of the files of a site.
fn is_noted<S: Site>(alloc: Global, site: &mut S, graph: &mut Graph) -> bool
    requires fresh { IsTrue (is_fresh graph.old) }
    requires stands { IsTrue S.tells
        → StandsFor S.world S.moment S.left_since graph.old site.old }
    ensures { IsTrue result → IsReady S.Site.own graph.new site.new }
{
    match scan(alloc, site, &Still) {
        Ok(seen) => takes_note(alloc, site, graph, &seen),
        Err(_) => false,
    }
}

/// Whether it has taken note of what a scan has seen.
fn takes_note<S: Site>(alloc: Global, site: &mut S, graph: &mut Graph, seen: &Seen) -> bool
    requires fresh { IsTrue (is_fresh graph.old) }
    requires stands { IsTrue S.tells
        → StandsFor S.world S.moment S.left_since graph.old site.old }
    requires seen { IsTrue S.tells → IsSeen (S.world site.old).tree seen.now }
    ensures { IsTrue result → IsReady S.Site.own graph.new site.new }
{
    match note_scan::<S, Brand>(alloc, graph, site, seen, Blank::new(1)) {
        Ok(()) => graph.fresh(),
        Err(_) => false,
    }
}

/// The plan that runs the flagged rules of a graph, if it may be run.
fn tested(alloc: Global, graph: &Graph, keep_going: bool) -> Result<Plan, RowFault>
    requires { IsTrue (is_fresh graph.now) }
    ensures plan { IfOk result (IsPlanOf graph.now.nodes) }
    ensures apart { IfOk result (λ plan. AreApart plan graph.now.nodes) }
{
    match plan_over(alloc, graph, keep_going)? {
        Some(plan) => Ok(plan),
        None => Err(RowFault::OtherKind),
    }
}
