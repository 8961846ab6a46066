//! The command of one rule that a seat has claimed.
ghost use Rattle.std.specs.Prelude.{◌≡◌, ◌⊎◌, ◌↔◌, None, Some, Err, IfOk, IsTrue, slice_get};
ghost use Rattle.tup_rule.specs.declared.rule.Rule.{Rule as RuleValue};
ghost use Rattle.tup_runner.specs.Report.{asks_of};
ghost use Rattle.tup_runner.specs.Run.{Appends, CountsFaults};
ghost use Rattle.tup_core.specs.declared.running.Running.{Running as RunningValue};
ghost use Rattle.tup_board.specs.Calls.{AreKnown, command_of};
ghost use Rattle.tup_board.specs.Entries.{IsReportBy, runs_after};
ghost use Rattle.tup_board.specs.Seat.{refusal_of};
ghost use Rattle.tup_workers.specs.Works.{EndsWith, IsAt, PerformsBy, RunsBy, StartsBy, Stopped};

use crate::asking::Asking;
use crate::gate::{Gate, When};
use crate::hand::Hand;
use crate::view::LockView;
use std::alloc::Global;
use tup_access::Verdict;
use tup_board::{BoardFault, Shared};
use tup_core::{Cause, Plan};
use tup_runner::{Report, RunFailed, Runner, perform};

/// Runs a rule that the seat has claimed. It says whether the seat goes on: where its runner failed, or there was no
/// memory, it has stopped the board.
pub(crate) fn run<L: Shared, G: Gate>(
    alloc: Global,
    lock: &L,
    hand: &mut Hand<L::Seat, L::Runner>,
    plan: &Plan,
    rule: u32,
    gate: &G,
) -> bool
    requires at { IsAt (L.belongs lock.now) L.plan_of plan.now hand.old.seat }
    requires starts { StartsBy plan.now (L.entries hand.old.seat) rule }
    ensures at { IsAt (L.belongs lock.now) L.plan_of plan.now hand.new.seat
        × (L.number_of hand.new.seat ≡ L.number_of hand.old.seat) }
    ensures runs { RunsBy L.Runner.Runner plan.now rule (L.number_of hand.old.seat)
        (L.entries hand.old.seat) (L.entries hand.new.seat) hand.old.runner hand.new.runner result }
{
    match performed(
        alloc,
        lock,
        &mut hand.seat,
        plan,
        rule,
        gate,
        &mut hand.runner,
    ) {
        Ok(report) => ended(alloc, lock, &mut hand.seat, plan, &report, gate),
        Err(RunFailed::Denied) => {
            lock.finish_denied(&mut hand.seat, plan);
            gate.pass(lock.number(&hand.seat), When::Finished);
            true
        }
        Err(RunFailed::View) => true, // the board has stopped
        Err(RunFailed::Fault) => stopped(lock, &mut hand.seat, plan, Cause::Run),
        Err(RunFailed::Memory) => stopped(lock, &mut hand.seat, plan, Cause::Memory),
    }
}

/// Takes the report of the command that the seat runs.
fn ended<L: Shared, G: Gate>(
    alloc: Global,
    lock: &L,
    seat: &mut L::Seat,
    plan: &Plan,
    report: &Report<L::Runner>,
    gate: &G,
) -> bool
    requires at { IsAt (L.belongs lock.now) L.plan_of plan.now seat.old }
    requires report { IsReportBy plan.now (L.entries seat.old)
        report.now.dir report.now.text (asks_of report.now) }
    requires known { IsTrue L.tells → AreKnown (L.known seat.old) (asks_of report.now) }
    ensures at { IsAt (L.belongs lock.now) L.plan_of plan.now seat.new
        × (L.number_of seat.new ≡ L.number_of seat.old) }
    ensures ends { EndsWith (L.number_of seat.old) (L.entries seat.old) (L.entries seat.new) result }
{
    let finished = lock.finish(alloc, seat, plan, report);
    if is_memory(&finished) {
        return stopped(lock, seat, plan, Cause::Memory);
    }
    gate.pass(lock.number(seat), When::Finished);
    true
}

/// Stops the board at a seat that runs a rule, which doesn't go on.
fn stopped<L: Shared>(lock: &L, seat: &mut L::Seat, plan: &Plan, cause: Cause) -> bool
    requires at { IsAt (L.belongs lock.now) L.plan_of plan.now seat.old }
    requires cause { (cause ≡ Cause.Run) ⊎ (cause ≡ Cause.Memory) }
    requires runs { (running : RunningValue) × (runs_after None (L.entries seat.old) ≡ Some running) }
    ensures at { IsAt (L.belongs lock.now) L.plan_of plan.now seat.new
        × (L.number_of seat.new ≡ L.number_of seat.old) }
    ensures stops { Stopped (L.number_of seat.old) cause (L.entries seat.old) (L.entries seat.new) result }
{
    lock.stop(seat, plan, cause);
    false
}

/// Whether there was no memory. Else a command has ended, or its board has stopped.
fn is_memory(finished: &Result<Verdict, BoardFault>) -> bool
    ensures { IsTrue result ↔ (finished.now ≡ Err BoardFault.Memory) }
{
    matches!(finished, Err(BoardFault::Memory))
}

/// The report of the command of a rule that the seat runs.
fn performed<K: Asking, G: Gate, R: Runner>(
    alloc: Global,
    lock: &K,
    seat: &mut K::Place,
    plan: &Plan,
    rule: u32,
    gate: &G,
    runner: &mut R,
) -> Result<Report<R>, RunFailed>
    requires at { IsAt (K.is_at lock.now) K.plan_at plan.now seat.old }
    requires starts { StartsBy plan.now (K.told_at seat.old).entries rule }
    ensures at { IsAt (K.is_at lock.now) K.plan_at plan.now seat.new }
    ensures number { K.number_at seat.new ≡ K.number_at seat.old }
    ensures performs { PerformsBy K.tells_known R.Runner.own plan.now rule
        (K.told_at seat.old) result (K.told_at seat.new) }
    ensures report { IfOk result (λ report. IsReportBy plan.now (K.told_at seat.new).entries
        report.dir report.text (asks_of report)
        × (IsTrue K.tells_known → AreKnown (K.told_at seat.new).known (asks_of report))) }
    ensures ran { IsTrue R.tells_ran → (it : RuleValue)
        → slice_get plan.now.rules rule ≡ Some it
        → Appends (command_of it) (R.ran runner.old) (R.ran runner.new) result }
    ensures cause { CountsFaults (R.faults runner.old) (R.faults runner.new) result }
{
    let it = &plan.rules.as_slice()[rule as usize];
    let mut refused = None;
    let mut view = LockView {
        lock,
        seat,
        plan,
        rule: it,
        gate,
        refused: &mut refused,
    };
    performed_in(&mut view, alloc, rule, runner)
}

/// The same, in the view of the seat, which has refused nothing yet.
fn performed_in<K: Asking, G: Gate, R: Runner>(
    view: &mut LockView<'_, '_, '_, '_, '_, '_, K, G>,
    alloc: Global,
    rule: u32,
    runner: &mut R,
) -> Result<Report<R>, RunFailed>
    requires starts { StartsBy view.old.plan.now (K.told_at view.old.seat.now).entries rule }
    requires placed { slice_get view.old.plan.now.rules rule ≡ Some view.old.rule.now }
    requires granted { refusal_of view.old.refused.now ≡ None }
    ensures performs { PerformsBy K.tells_known R.Runner.own view.old.plan.now rule
        (K.told_at view.old.seat.now) result (K.told_at view.new.seat.now) }
    ensures report { IfOk result (λ report. IsReportBy view.old.plan.now (K.told_at view.new.seat.now).entries
        report.dir report.text (asks_of report)
        × (IsTrue K.tells_known → AreKnown (K.told_at view.new.seat.now).known (asks_of report))) }
    ensures ran { IsTrue R.tells_ran
        → Appends (command_of view.old.rule.now) (R.ran runner.old) (R.ran runner.new) result }
    ensures cause { CountsFaults (R.faults runner.old) (R.faults runner.new) result }
    ensures at { IsAt (K.is_at view.old.lock.now) K.plan_at view.old.plan.now view.new.seat.now }
    ensures number { K.number_at view.new.seat.now ≡ K.number_at view.old.seat.now }
    ensures same_seat { view.new.seat.ghost_name ≡ view.old.seat.ghost_name }
    ensures same_refused { view.new.refused.ghost_name ≡ view.old.refused.ghost_name }
{
    let it = view.rule;
    perform(alloc, runner, &it.dir, &it.text, view)
}
