//! What a seat runs, and whether a report is one of that.
ghost use Rattle.std.specs.Prelude.{◌≡◌, IfOk, IsTrue, Some};
ghost use Rattle.std.specs.Option.{option_copied};
ghost use Rattle.tup_rule.specs.declared.rule.Rule.{Rule as RuleValue};
ghost use Rattle.tup_board.specs.Board.{course_of, plan_of};
ghost use Rattle.tup_board.specs.Calls.{AreStamped, IsStampOf};
ghost use Rattle.tup_schedule.specs.Course.{RunsRule};
ghost use Rattle.tup_board_rows.specs.Desk.{MayRun};
ghost use Rattle.tup_runner.specs.Report.{asks_of};

use crate::desk::MemBoard;
use crate::report::reported;
use std::alloc::{AllocError, Global};
use tup_core::{Plan, Running, StampAsks};
use tup_given::Replies;
use tup_mini::Mini;
use tup_path::{Items, Text};
use tup_rule::Rule;
use tup_runner::{Answer, Report, RunFailed};
use tup_stamp::Stamp;

/// The rule that a seat runs.
pub(crate) fn rule_of<'p>(board: &MemBoard, plan: &'p Plan, seat: u32) -> Option<&'p Rule>
    requires plan { plan.now ≡ plan_of board.now }
    ensures { (rule : RuleValue) → option_copied result ≡ Some rule
        → (it : RunsRule (course_of board.now) seat) → rule ≡ it.rule }
{
    let running = board.running(seat)?;
    plan.rules.as_slice().get(running.rule as usize)
}

/// Whether there is such a seat, and such a rule.
pub(crate) fn may_run(plan: &Plan, seat: u32, running: &Running) -> bool
    ensures { IsTrue result → MayRun plan.now seat running.now }
{
    seat < 16 && plan.rules.as_slice().get(running.rule as usize).is_some()
}

/// The report of the command that a seat runs over what it was told. `View` where this isn't what the seat was answered.
pub(crate) fn seat_report(
    alloc: Global,
    board: &MemBoard,
    seat: u32,
    rule: &Rule,
    told: &mut Replies,
) -> Result<Report<Mini>, RunFailed>
    ensures dir { IfOk result (λ report. report.dir ≡ rule.now.dir) }
    ensures text { IfOk result (λ report. report.text ≡ rule.now.text) }
    ensures asks { IfOk result (λ report. (it : RunsRule (course_of board.now) seat)
        → AreStamped it.running.asks (asks_of report)) }
{
    let report = reported(alloc, &mut Mini::new(alloc), rule, told)?;
    let over = is_over_asks(alloc, board, seat, told.given())?;
    if !over {
        return Err(RunFailed::View);
    }
    Ok(report)
}

/// Whether these are the asks of what a seat runs, with the stamps that they were answered.
fn is_over_asks(
    alloc: Global,
    board: &MemBoard,
    seat: u32,
    told: &[(Text, Answer)],
) -> Result<bool, AllocError>
    ensures { IfOk result (λ is. IsTrue is → (it : RunsRule (course_of board.now) seat)
        → AreStamped it.running.asks told.now) }
{
    let stamped = stamped(alloc, told)?;
    match board.running(seat) {
        Some(running) => Ok(running.asks == stamped),
        None => Ok(false),
    }
}

/// Asks with the stamps of their answers.
fn stamped(alloc: Global, asks: &[(Text, Answer)]) -> Result<StampAsks, AllocError>
    ensures { IfOk result (λ stamped. AreStamped stamped asks.now) }
{
    let mut stamped = Items::new(alloc);
    for (text, answer) in asks {
        stamped.push((text.clone()?, stamp_in(answer)))?;
    }
    Ok(stamped)
}

fn stamp_in(answer: &Answer) -> Option<Stamp>
    ensures { IsStampOf result answer.now }
{
    match answer {
        Answer::Content(content) => Some(content.stamp()),
        Answer::Absent => None,
    }
}
