//! What a command was told, and its report over that.
ghost use Rattle.std.specs.Prelude.{◌≡◌, IfOk};
ghost use Rattle.tup_given.specs.Replies.{answered};
ghost use Rattle.tup_runner.specs.Report.{asks_of};

use std::alloc::{AllocError, Global};
use tup_board::Asked;
use tup_given::Replies;
use tup_path::Text;
use tup_rule::Rule;
use tup_runner::{Answer, Report, RunFailed, Runner, perform};

/// Notes what a text was answered, if it was.
pub(crate) fn note(told: &mut Replies, text: &Text, asked: &Asked) -> Result<(), AllocError> {
    match asked {
        Asked::Content(content) => add(told, text, Answer::Content(content.clone()?)),
        Asked::Absent => add(told, text, Answer::Absent),
        Asked::Denied(_) => Ok(()),
    }
}

/// Adds what a text was answered.
fn add(told: &mut Replies, text: &Text, answer: Answer) -> Result<(), AllocError> {
    told.add(text.clone()?, answer)?;
    Ok(())
}

/// The report of the command of a rule over all that it was told, in its order. Where it asks for others, this is `View`.
pub(crate) fn reported<R: Runner>(
    alloc: Global,
    runner: &mut R,
    rule: &Rule,
    told: &mut Replies,
) -> Result<Report<R>, RunFailed>
    ensures dir { IfOk result (λ report. report.dir ≡ rule.now.dir) }
    ensures text { IfOk result (λ report. report.text ≡ rule.now.text) }
    ensures asks { IfOk result (λ report. asks_of report ≡ told.old.given) }
    ensures given { told.new.given ≡ told.old.given }
{
    let report = performed(alloc, runner, rule, told);
    if told.asked() < told.len() {
        drop(report);
        return Err(RunFailed::View);
    }
    report
}

/// The report of the command of a rule over what it was told.
pub(crate) fn performed<R: Runner>(
    alloc: Global,
    runner: &mut R,
    rule: &Rule,
    told: &mut Replies,
) -> Result<Report<R>, RunFailed>
    ensures dir { IfOk result (λ report. report.dir ≡ rule.now.dir) }
    ensures text { IfOk result (λ report. report.text ≡ rule.now.text) }
    ensures asks { IfOk result (λ report. asks_of report ≡ answered told.new) }
    ensures given { told.new.given ≡ told.old.given }
{
    told.rewind();
    perform(alloc, runner, &rule.dir, &rule.text, told)
}
