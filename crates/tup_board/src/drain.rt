//! A whole update on one thread.
ghost use Rattle.std.specs.Prelude.{◌≡◌, ◌++◌, ◌↔◌, ℕ, List, None, Some, Err, true, false, slice_get, All, IfOk, IsTrue};
ghost use Rattle.std.specs.FinMap as finite;
ghost use Rattle.std.specs.Option.{option_map};
ghost use Rattle.tup_path.specs.Name.{Names};
ghost use Rattle.tup_path.specs.Tree.{Tree};
ghost use Rattle.tup_stamp.specs.Stamp.{stamp};
ghost use Rattle.tup_rule.specs.declared.rule.Rule.{Rule as RuleValue};
ghost use Rattle.tup_runner.specs.Report.{asks_of};
ghost use Rattle.tup_runner.specs.Run.{Appends, CountsFaults as RunnerCounts};
ghost use Rattle.tup_core.specs.Kept.{Kept};
ghost use Rattle.tup_core.specs.Sound.{IsAcyclic};
ghost use Rattle.tup_core.specs.declared.event.CoreEvent.{CoreEvent as CoreEventValue};
ghost use Rattle.tup_board.specs.Board.{course_of, plan_of, seat_of, state};
ghost use Rattle.tup_board.specs.Calls.{command_of, IsReportOf, StartsAlone};
ghost use Rattle.tup_board.specs.Seat.{IsLeft, IsSteady, KeepsCount, Performs, refusal_of};

use crate::answers::Drained;
use crate::board::Board;
use crate::desk::Desk;
use crate::seat::SeatView;
use std::alloc::Global;
use tup_access::Verdict;
use tup_core::{Cause, Plan};
use tup_rule_outputs::BoardFault;
use tup_runner::{Report, RunFailed, Runner, perform};
use tup_schedule::Claimed;
use tup_site::Site;

impl<S: Site, R: Runner> Board<S, R> {
    ghost use Rattle.tup_schedule.specs.Course.{NoneRuns};
    ghost use Rattle.tup_board.specs.Calls.{BuildsClean, Drains, HasFailed, HasRun, HasRunCause, IsOver, RanAll, RunsOne, TakesFirst};

    /// Runs all that can be run, one rule after another, at seat 0, while no seat runs a rule.
    ///
    /// `Done` comes just where nothing is stopped and no verdict is bad: then, if no rule waits for itself, no rule is
    /// pending any more, and where the plan was made of what is kept of a project, the files are those of the clean build
    /// of its sources. `Left` with `Bad` comes just where a verdict is bad and nothing was stopped for another cause
    /// before, and `Left` with another cause where that was the first of a stop. By itself it stops only for a failure of
    /// its runner, and for want of memory. A failure of its site is what it is left for, if nothing was stopped before.
    /// Each rule that it claims is the first one that is ready. A board that is over is given back as it was, and so is
    /// its runner.
    pub fn drain(&mut self, alloc: Global, plan: &Plan, runner: &mut R) -> Drained
        requires plan { plan.now ≡ plan_of self.old }
        requires none_runs { NoneRuns (course_of self.old) }
        ensures drains { Drains (state self.new) result }
        ensures done { IsAcyclic plan.now.rules → result ≡ Drained.Done
            → (number : ℕ) → (state self.new).pending number ≡ false }
        ensures clean { IsTrue S.tells → IsTrue R.tells → result ≡ Drained.Done
            → (kept : Kept) (tree : Tree) → BuildsClean S.Site.own R.Runner.own self.new kept tree }
        ensures over { IsOver self.new }
        ensures opening { self.new.opening ≡ self.old.opening }
        ensures ran { (events : List CoreEventValue) → self.new.history ≡ self.old.history ++ events
            → IsTrue R.tells_ran
            → RanAll plan.now events (R.ran runner.old) (R.ran runner.new) result }
        ensures history { (events : List CoreEventValue)
            × (self.new.history ≡ self.old.history ++ events)
            × All (λ event. seat_of event ≡ 0) events }
        ensures order { (events : List CoreEventValue) → self.new.history ≡ self.old.history ++ events
            → TakesFirst plan.now (state self.old) events }
        ensures cause { HasRunCause (state self.old).stopped
            (R.faults runner.old) (R.faults runner.new) result }
        ensures steady { KeepsCount S.Site.own self.old self.new }
        ensures idle { IsOver self.old → (self.new ≡ self.old) × (runner.new ≡ runner.old) }
    {
        'rules: loop {
            match self.claim(plan, 0) {
                Claimed::Rule(rule) => {
                    // A law, also below: what a board keeps at every moment.
                    let _ = self.history();
                    self.run(alloc, plan, rule, runner);
                }
                Claimed::Wait => unreachable!(), // no seat runs a rule
                Claimed::Over => {
                    let _ = self.history();
                    return self.drained();
                }
            }
        }
    }

    /// What came of an update that is over.
    fn drained(&self) -> Drained
        ensures { Drains (state self.now) result }
    {
        match self.course.stopped() {
            Some(cause) => Drained::Left(cause),
            None if self.course.has_bad() => Drained::Left(Cause::Bad),
            None => Drained::Done,
        }
    }

    /// Runs a rule that seat 0 has claimed.
    fn run(&mut self, alloc: Global, plan: &Plan, rule: u32, runner: &mut R)
        requires plan { plan.now ≡ plan_of self.old }
        requires starts { StartsAlone self.old rule }
        ensures one { RunsOne self.old self.new }
        ensures ran { IsTrue R.tells_ran → (it : RuleValue)
            → slice_get plan.now.rules rule ≡ Some it
            → HasRun (command_of it) (R.ran runner.old) (R.ran runner.new)
            (state self.new).stopped }
        ensures cause { HasFailed (R.faults runner.old) (R.faults runner.new)
            (state self.new).stopped }
        ensures steady { IsSteady S.Site.own self.old self.new }
    {
        match performed(self, alloc, plan, rule, runner) {
            Ok(report) => self.end(alloc, plan, &report),
            Err(RunFailed::Denied) => {
                self.finish_denied(plan, 0);
            }
            Err(RunFailed::View) => {} // the board has stopped
            Err(RunFailed::Fault) => self.stop(plan, 0, Cause::Run),
            Err(RunFailed::Memory) => self.stop(plan, 0, Cause::Memory),
        }
    }

    /// Ends the command of seat 0.
    fn end(&mut self, alloc: Global, plan: &Plan, report: &Report<R>)
        requires plan { plan.now ≡ plan_of self.old }
        requires report { IsReportOf S.Site.own self.old 0 report.now.dir report.now.text
            (asks_of report.now) }
        requires going { (state self.old).stopped ≡ None }
        ensures left { IsLeft 0 self.old self.new }
        ensures steady { IsSteady S.Site.own self.old self.new }
    {
        let ended = self.finish(alloc, plan, 0, report);
        if is_memory(&ended) {
            return self.stop(plan, 0, Cause::Memory);
        }
    }
}

/// Whether there was no memory. Else a command has ended, or its board has stopped.
fn is_memory(ended: &Result<Verdict, BoardFault>) -> bool
    ensures { IsTrue result ↔ (ended.now ≡ Err BoardFault.Memory) }
{
    matches!(ended, Err(BoardFault::Memory))
}

/// The report of the command of a rule that seat 0 of a board runs.
///
/// It names the board by its trait, since a call that is given a runner and a view can't say that both are of one board.
fn performed<D: Desk, R: Runner>(
    board: &mut D,
    alloc: Global,
    plan: &Plan,
    rule: u32,
    runner: &mut R,
) -> Result<Report<R>, RunFailed>
    requires plan { plan.now ≡ plan_of (D.board board.old) }
    requires starts { StartsAlone (D.board board.old) rule }
    ensures performs { Performs D.Site.Site R.Runner.own
        (D.board board.old) result (D.board board.new) }
    ensures report { IfOk result (λ report. IsReportOf D.Site.Site (D.board board.new) 0
        report.dir report.text (asks_of report)) }
    ensures ran { IsTrue R.tells_ran → (it : RuleValue)
        → slice_get plan.now.rules rule ≡ Some it
        → Appends (command_of it) (R.ran runner.old) (R.ran runner.new) result }
    ensures cause { RunnerCounts (R.faults runner.old) (R.faults runner.new) result }
{
    let it = &plan.rules.as_slice()[rule as usize];
    let mut refused = None;
    let mut view = SeatView {
        board,
        plan,
        rule: it,
        seat: 0,
        refused: &mut refused,
    };
    performed_in(&mut view, alloc, rule, runner)
}

/// The same, in the view of seat 0, which has refused nothing yet.
fn performed_in<D: Desk, R: Runner>(
    view: &mut SeatView<'_, '_, '_, '_, D>,
    alloc: Global,
    rule: u32,
    runner: &mut R,
) -> Result<Report<R>, RunFailed>
    requires seat { view.old.seat ≡ 0 }
    requires starts { StartsAlone (D.board view.old.board.now) rule }
    requires placed { slice_get view.old.plan.now.rules rule ≡ Some view.old.rule.now }
    requires granted { refusal_of view.old.refused.now ≡ None }
    ensures performs { Performs D.Site.Site R.Runner.own
        (D.board view.old.board.now) result (D.board view.new.board.now) }
    ensures report { IfOk result (λ report. IsReportOf D.Site.Site
        (D.board view.new.board.now) 0 report.dir report.text (asks_of report)) }
    ensures ran { IsTrue R.tells_ran
        → Appends (command_of view.old.rule.now) (R.ran runner.old) (R.ran runner.new) result }
    ensures cause { RunnerCounts (R.faults runner.old) (R.faults runner.new) result }
    ensures same_board { view.new.board.ghost_name ≡ view.old.board.ghost_name }
    ensures same_refused { view.new.refused.ghost_name ≡ view.old.refused.ghost_name }
{
    let it = view.rule;
    perform(alloc, runner, &it.dir, &it.text, view)
}
