//! The asks of a log, put to the view.
ghost use Rattle.std.specs.Prelude.{◌≡◌, ◌↔◌, ◌∷◌, [], None, IsTrue};
ghost use Rattle.tup_proc_runner.specs.Asked.{AsksAs, found as found_in, said_by, said_in};

use std::alloc::Global;
use tup_path::Text;
use tup_proc::LogLine;
use tup_runner::{Answer, RunFailed, View};
use tup_stamp::Stamp;

/// Asks the view for what a log says that its program asked, in order. Gives the text of the first answer that isn't what the
/// log says, if there is one; after it nothing is asked.
pub(crate) fn ask_all<V: View>(
    alloc: Global,
    lines: &[LogLine],
    view: &mut V,
) -> Result<Option<Text>, RunFailed>
    requires { V.refusal view.old ≡ None }
    ensures asked { AsksAs (said_in lines.now)
        (λ asks. V.came view.old asks view.new) (V.refusal view.new) result }
    ensures same { V.same view.old view.new }
{
    for line in lines {
        if let Some(text) = ask(alloc, line, view)? {
            return Ok(Some(text));
        }
    }
    Ok(None)
}

/// Asks the view for what one line says that was asked. Gives its text where the answer isn't what the line says.
fn ask<V: View>(alloc: Global, line: &LogLine, view: &mut V) -> Result<Option<Text>, RunFailed>
    requires { V.refusal view.old ≡ None }
    ensures asked { AsksAs (said_by line.now)
        (λ asks. V.came view.old asks view.new) (V.refusal view.new) result }
    ensures same { V.same view.old view.new }
{
    match line {
        LogLine::Read { stamp, text } => answered(alloc, text, Some(*stamp), view),
        LogLine::Absent { text } => answered(alloc, text, None, view),
        LogLine::Wrote { .. } | LogLine::End { .. } => Ok(None),
    }
}

/// Asks the view for a text. Gives the text where the answer isn't a content of this stamp, or isn't that nothing is there.
fn answered<V: View>(
    alloc: Global,
    text: &Text,
    stamp: Option<Stamp>,
    view: &mut V,
) -> Result<Option<Text>, RunFailed>
    requires { V.refusal view.old ≡ None }
    ensures asked { AsksAs ((text.now, stamp) ∷ [])
        (λ asks. V.came view.old asks view.new) (V.refusal view.new) result }
    ensures same { V.same view.old view.new }
{
    let answer = view.ask(alloc, text)?;
    if fits(&answer, stamp) {
        return Ok(None);
    }
    Ok(Some(text.clone()?))
}

/// Whether this was found.
fn fits(answer: &Answer, stamp: Option<Stamp>) -> bool
    ensures { IsTrue result ↔ (found_in answer.now ≡ stamp) }
{
    found(answer) == stamp
}

/// The stamp of what was found, if anything was.
fn found(answer: &Answer) -> Option<Stamp>
    ensures { result ≡ found_in answer.now }
{
    match answer {
        Answer::Content(content) => Some(content.stamp()),
        Answer::Absent => None,
    }
}
