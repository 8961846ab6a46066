//! The rules that are run.
ghost use Rattle.std.specs.Prelude.{◌≡◌, ◌<◌, ◌≤◌, ℕ, List, [], None, Some, false, length, map, nat_eq, is_some, IfOk, IfSome, IsTrue};
ghost use Rattle.std.specs.List.{AllZip, IsDistinct};
ghost use Rattle.tup_path.specs.Name.{Names as PathNames};
ghost use Rattle.tup_stamp.specs.declared.Stamp.{Stamp as StampValue};
ghost use Rattle.tup_site.specs.declared.fault.SiteFailed.TheVariants.{Memory};
ghost use Rattle.tup_graph.specs.Graph.{GraphState, is_flagged};
ghost use Rattle.tup_stored_graph.specs.Held.{is_fresh, StandsFor};
ghost use Rattle.tup_core.specs.Run.{IsRun, claims};
ghost use Rattle.tup_core.specs.Sound.{IsInRange};
ghost use Rattle.tup_core.specs.Step.{opening};
ghost use Rattle.tup_board.specs.Calls.{commands, opened_as};
ghost use Rattle.tup_apart.specs.Run.{MayRun, OutputsOnce};
ghost use Rattle.tup_promise.specs.Cause.{CrewCountedCause, CrewRunCause};
ghost use Rattle.tup_phases.specs.Logged.{BeginsNone, IsLogged};
ghost use Rattle.tup_promise.specs.Ran.{CrewRuns, command_of};
ghost use Rattle.tup_promise.specs.declared.stop.Stop.TheVariants.{Outside};
ghost use Rattle.tup_phases.specs.Prepared.{HasSeen};
ghost use Rattle.tup_update.specs.Because.{AreChainsOf, AreSaid, OfEnded, SaysWhy};
ghost use Rattle.tup_update.specs.Ended.{TellsFor, ends, numbers, told_ends};
ghost use Rattle.tup_update.specs.Names.{AreNamesOf, IsReadyFor, name_in, value_at};
ghost use Rattle.tup_update.specs.Promised.{KeepsSources, PromisesOver};
ghost use Rattle.tup_update.specs.Done.{OnlyRuns};
ghost use Rattle.tup_update.specs.Run.{OfBads, StopsBy, StopsRunning};
ghost use Rattle.tup_update.specs.Steps.{HasRoomFor, steps_of};

use crate::because::chains_of;
use crate::by_rule::ByRule;
use crate::ended::stopped_by;
use crate::names::names_of;
use crate::steps::Steps;
use crate::update::{Asked, Updated};
use std::alloc::{AllocError, Global};
use std::mem;
use std::sync::Wait;
use std::thread::Threads;
use tup_apart::plan_over;
use tup_board::{Board, BoardParts, Drained};
use tup_core::{CoreEvent, Plan, claimed_once};
use tup_ends::{
    bad_ran_all_it_could, bad_rules_are_bad, bad_stands_last, boards_are_kept,
    boards_leave_crashes, boards_leave_due, boards_leave_sources, boards_leave_states,
    done_is_finished, done_is_settled, done_ran_all, full_is_true, prepared_is_finished,
    prepared_is_settled, ran_what_was_due, settled_rules_are_made,
};
use tup_graph::Nodes;
use tup_parallel::drain_by;
use tup_path::{Items, Text};
use tup_progress::Started;
use tup_promise::{Log, Stop};
use tup_rule::RuleName;
use tup_runner::Runner;
use tup_site::{Site, SiteFailed};
use tup_stored_graph::Graph;

/// Runs the rules that are flagged in a graph, if there are any, with a crew.
pub(crate) fn run_flagged<W: Threads + Wait + Sync, S: Site + Send, R: Runner + Send>(
    rt: &W,
    alloc: Global,
    site: S,
    graph: Graph,
    crew: Vec<R>,
    asked: Asked,
    started: &Started,
    log: Log,
) -> Updated<S, R>
    requires crew { (0 < length crew.items) × (length crew.items ≤ 16) }
    requires fresh { IsTrue (is_fresh graph) }
    requires stands { IsTrue S.tells
        → StandsFor S.world S.moment S.left_since graph site }
    requires seen { IsTrue S.tells → HasSeen graph.nodes (S.world site).tree }
    requires none { BeginsNone log }
    ensures crew { length result.crew.items ≡ length crew.items }
    ensures logged { IsLogged (length crew.items) asked.keep_going result.log result.stopped }
    ensures only_runs { OnlyRuns log result.log }
    ensures stops { IfSome result.stopped StopsRunning }
    ensures promised { PromisesOver S.Site.own R.Runner.own asked.keep_going (length crew.items)
        graph site result.site result.log result.stopped }
    ensures sources { KeepsSources S.Site.own graph site result.site }
    ensures counted { CrewCountedCause (length crew.items)
        (S.faults site) (S.faults result.site) result.stopped }
    ensures cause { CrewRunCause
        (map R.faults crew.items) (map R.faults result.crew.items) result.stopped }
    ensures ran { IsTrue R.tells_ran → CrewRuns result.log.ran
        (map R.ran crew.items) (map R.ran result.crew.items) result.stopped }
    ensures said { OfEnded result.log
        (λ ended. AreSaid asked.explain graph.nodes ended result.because) }
{
    prepared_is_finished(&site);
    prepared_is_settled(&site);
    if none_flagged(graph.nodes()) {
        // The program ends with its update: that the graph's memory is freed node by node helps nobody. So are graph and plan given
        // up below.
        mem::forget(graph);
        return Updated {
            site,
            crew,
            log,
            because: Items::new(alloc),
            stopped: None,
        };
    }
    match plan_over(alloc, &graph, asked.keep_going) {
        Ok(Some(plan)) => {
            started.plan(plan.reach.len() as u64);
            let updated = run_plan(rt, alloc, site, graph, &plan, crew, asked.explain, log);
            mem::forget(plan);
            updated
        }
        _ => without_memory(alloc, site, crew, log),
    }
}

/// Whether there are no rules to be run.
fn none_flagged(nodes: &Nodes) -> bool
    ensures { IsTrue result → (number : ℕ) → is_flagged nodes.now number ≡ false }
{
    nodes.flags().next().is_none()
}

/// Runs the rules of a plan.
fn run_plan<W: Threads + Wait + Sync, S: Site + Send, R: Runner + Send>(
    rt: &W,
    alloc: Global,
    site: S,
    graph: Graph,
    plan: &Plan,
    crew: Vec<R>,
    explain: bool,
    log: Log,
) -> Updated<S, R>
    requires crew { (0 < length crew.items) × (length crew.items ≤ 16) }
    requires fresh { IsTrue (is_fresh graph) }
    requires stands { IsTrue S.tells
        → StandsFor S.world S.moment S.left_since graph site }
    requires seen { IsTrue S.tells → HasSeen graph.nodes (S.world site).tree }
    requires may_run { MayRun graph.nodes plan.now }
    requires none { BeginsNone log }
    ensures crew { length result.crew.items ≡ length crew.items }
    ensures logged { IsLogged (length crew.items) plan.now.keep_going result.log result.stopped }
    ensures only_runs { OnlyRuns log result.log }
    ensures stops { IfSome result.stopped StopsRunning }
    ensures promised { PromisesOver S.Site.own R.Runner.own plan.now.keep_going (length crew.items)
        graph site result.site result.log result.stopped }
    ensures sources { KeepsSources S.Site.own graph site result.site }
    ensures counted { CrewCountedCause (length crew.items)
        (S.faults site) (S.faults result.site) result.stopped }
    ensures cause { CrewRunCause
        (map R.faults crew.items) (map R.faults result.crew.items) result.stopped }
    ensures ran { IsTrue R.tells_ran → CrewRuns result.log.ran
        (map R.ran crew.items) (map R.ran result.crew.items) result.stopped }
    ensures said { OfEnded result.log
        (λ ended. AreSaid explain graph.nodes ended result.because) }
{
    let Ok(known) = known_of(alloc, graph.nodes(), plan, explain) else {
        return without_memory(alloc, site, crew, log);
    };
    match Board::new(alloc, site, graph, plan) {
        Ok(board) => run_board(rt, alloc, board, plan, known, crew, log),
        Err((site, _, _)) => without_memory(alloc, site, crew, log),
    }
}

/// What is known of the rules of a plan before the first is run: their names, and where they are asked for the chains of
/// their reasons. There is room for their steps.
#[derive(Drop)]
struct Known {
    names: ByRule<RuleName>,
    steps: Steps,
    chains: Option<ByRule<Option<Text>>>,
}

/// The same of this plan.
fn known_of(alloc: Global, nodes: &Nodes, plan: &Plan, explain: bool) -> Result<Known, AllocError>
    requires { IsInRange plan.now }
    ensures names { IfOk result (λ known. AreNamesOf plan.now known.names) }
    ensures steps { IfOk result (λ known. HasRoomFor plan.now known.steps) }
    ensures asked { IfOk result (λ known. is_some known.chains ≡ explain) }
    ensures chains { IfOk result
        (λ known. IfSome known.chains (AreChainsOf nodes.now plan.now)) }
{
    let names = names_of(alloc, plan)?;
    let steps = Steps::of(alloc, plan)?;
    let chains = chains_of(alloc, nodes, plan, explain)?;
    Ok(Known {
        names,
        steps,
        chains,
    })
}

/// Runs the rules of a board at its opening, and tells the log of them.
fn run_board<W: Threads + Wait + Sync, S: Site + Send, R: Runner + Send>(
    rt: &W,
    alloc: Global,
    board: Board<S, R>,
    plan: &Plan,
    known: Known,
    crew: Vec<R>,
    log: Log,
) -> Updated<S, R>
    requires crew { (0 < length crew.items) × (length crew.items ≤ 16) }
    requires opening { board ≡ opened_as plan.now board.opening.graph board.opening.site }
    requires range { IsInRange plan.now }
    requires once { OutputsOnce plan.now.rules }
    requires names { AreNamesOf plan.now known.names }
    requires steps { HasRoomFor plan.now known.steps }
    requires chains { IfSome known.chains (IsReadyFor plan.now.reach) }
    requires none { log.ended ≡ [] }
    ensures crew { length result.crew.items ≡ length crew.items }
    ensures logged { IsLogged (length crew.items) plan.now.keep_going result.log result.stopped }
    ensures only_runs { OnlyRuns log result.log }
    ensures stops { IfSome result.stopped StopsRunning }
    ensures promised { let opening = board.opening in
        PromisesOver S.Site.own R.Runner.own plan.now.keep_going (length crew.items)
        opening.graph opening.site result.site result.log result.stopped }
    ensures sources { let opening = board.opening in
        KeepsSources S.Site.own opening.graph opening.site result.site }
    ensures counted { CrewCountedCause (length crew.items)
        (S.faults board.opening.site) (S.faults result.site) result.stopped }
    ensures cause { CrewRunCause
        (map R.faults crew.items) (map R.faults result.crew.items) result.stopped }
    ensures ran { IsTrue R.tells_ran → CrewRuns result.log.ran
        (map R.ran crew.items) (map R.ran result.crew.items) result.stopped }
    ensures unasked { known.chains ≡ None → result.because ≡ [] }
    ensures why { (g : GraphState) → IfSome known.chains (λ chains. AreChainsOf g plan.now chains
        → OfEnded result.log (λ ended. AllZip (SaysWhy g plan.now) ended result.because)) }
{
    let done = drain_by(rt, alloc, board, plan, crew);
    let parts = done.board.into_parts();
    // Laws: what a board and its graph keep, and leave at their end.
    let _ = parts.graph.nodes();
    let runner = &done.crew[0];
    boards_are_kept(&parts.site, runner);
    boards_leave_crashes(&parts.site, runner);
    boards_leave_states(&parts.site, runner);
    boards_leave_sources(&parts.site, runner);
    done_is_finished(&parts.site, runner);
    done_is_settled(&parts.site, runner);
    ran_what_was_due(&parts.site, runner);
    boards_leave_due(&parts.site, runner);
    settled_rules_are_made(&parts.site, runner);
    done_ran_all(&parts.site, runner);
    bad_ran_all_it_could(&parts.site, runner);
    bad_stands_last(&parts.site, runner);
    bad_rules_are_bad(&parts.site, runner);
    full_is_true(&parts.site, runner);
    told(alloc, plan, parts, done.drained, known, done.crew, log)
}

/// Tells the log what happened on a board.
fn told<S: Site, R: Runner>(
    alloc: Global,
    plan: &Plan,
    parts: BoardParts<S>,
    drained: Drained,
    known: Known,
    crew: Vec<R>,
    mut log: Log,
) -> Updated<S, R>
    requires run { (files : List (PathNames × StampValue)) × IsRun plan.now (opening plan.now files) parts.history }
    requires range { IsInRange plan.now }
    requires names { AreNamesOf plan.now known.names }
    requires steps { HasRoomFor plan.now known.steps }
    requires chains { IfSome known.chains (IsReadyFor plan.now.reach) }
    requires none { log.ended ≡ [] }
    ensures stops { OfBads plan.now parts.history
        (StopsBy plan.now.rules drained result.stopped) }
    ensures ran { map command_of result.log.ran ≡ commands plan.now parts.history }
    ensures site { result.site ≡ parts.site }
    ensures crew { result.crew.items ≡ crew.items }
    ensures only_runs { OnlyRuns log result.log }
    ensures tells { let told = told_ends plan.now.rules (ends parts.history) in
        TellsFor told [] result.log.ended result.stopped }
    ensures named { map Some result.log.ran
        ≡ map (name_in plan.now.rules) (claims parts.history) }
    ensures steps { result.log.steps ≡ steps_of parts.history }
    ensures unasked { known.chains ≡ None → result.because ≡ [] }
    ensures why { (g : GraphState) → IfSome known.chains (λ chains. AreChainsOf g plan.now chains
        → OfEnded result.log (λ ended. AllZip (SaysWhy g plan.now) ended result.because)) }
{
    claimed_once();
    let history = parts.history.as_slice();
    log.ran = known.names.claimed(history);
    log.steps = known.steps.in_history(history);
    let because = ended_chains(alloc, known.chains, history);
    let stopped = stopped_by(alloc, plan, history, drained, &mut log.ended);
    mem::forget(parts.graph); // the program ends with its update
    Updated {
        site: parts.site,
        crew,
        log,
        because,
        stopped,
    }
}

/// The chains of the rules whose command came to a verdict, in the order of the ends, where they are asked for.
fn ended_chains(
    alloc: Global,
    chains: Option<ByRule<Option<Text>>>,
    history: &[CoreEvent],
) -> Items<Option<Text>>
    requires once { IsDistinct nat_eq (numbers (ends history.now)) }
    requires ready { IfSome chains (IsReadyFor (numbers (ends history.now))) }
    ensures none { chains ≡ None → result ≡ [] }
    ensures ended { IfSome chains (λ chains.
        map Some result ≡ map (value_at chains) (numbers (ends history.now))) }
{
    match chains {
        Some(chains) => chains.ended(history),
        None => Items::new(alloc),
    }
}

/// An update for which there was no memory before any rule was run.
fn without_memory<S: Site, R: Runner>(
    alloc: Global,
    site: S,
    crew: Vec<R>,
    log: Log,
) -> Updated<S, R>
    ensures site { result.site ≡ site }
    ensures crew { result.crew.items ≡ crew.items }
    ensures log { result.log ≡ log }
    ensures because { result.because ≡ [] }
    ensures stopped { result.stopped ≡ Some (Outside Memory) }
{
    Updated {
        site,
        crew,
        log,
        because: Items::new(alloc),
        stopped: Some(Stop::Outside(SiteFailed::Memory)),
    }
}
