//! What the steps of a command do, one after another.
ghost use Rattle.std.specs.Prelude.{◌≡◌, [], None, IfOk};
ghost use Rattle.tup_mini.specs.Files.{gathers};
ghost use Rattle.tup_mini.specs.Steps.{echoed as echo_of};
ghost use Rattle.tup_mini.specs.Means.{joins, copies, expansion, copies_if, does, runs};
ghost use Rattle.tup_mini.specs.Through.{kept_of, Follows};

use crate::expand::expand;
use crate::kept::Kept;
use crate::step::MiniStep;
use crate::stopped::Stopped;
use std::alloc::{AllocError, Global};
use tup_path::{Bytes, Text};
use tup_runner::View;

/// How deep a file may stand below the first of an expansion.
const MAX_INCLUDED: u32 = 32;

/// Does the steps in order, up to the first that gives another status than 0.
pub(crate) fn run<V: View>(
    alloc: Global,
    kept: &mut Kept,
    steps: &[MiniStep],
    view: &mut V,
) -> Result<(), Stopped>
    requires { V.refusal view.old ≡ None }
    ensures { Follows V.came V.same V.refusal view.old view.new
        (runs steps.now (kept_of kept.old)) (kept_of kept.new) result }
{
    for step in steps {
        take(alloc, kept, step, view)?;
    }
    Ok(())
}

/// Does one step.
fn take<V: View>(
    alloc: Global,
    kept: &mut Kept,
    step: &MiniStep,
    view: &mut V,
) -> Result<(), Stopped>
    requires { V.refusal view.old ≡ None }
    ensures { Follows V.came V.same V.refusal view.old view.new
        (does step.now (kept_of kept.old)) (kept_of kept.new) result }
{
    match step {
        MiniStep::Join { from, to } => join(alloc, kept, from.as_slice(), to, view),
        MiniStep::Echo { words, to } => kept.write(alloc, to, echoed(alloc, words.as_slice())?),
        MiniStep::Include { from, to } => include(alloc, kept, from, to, view),
        MiniStep::IfExists { probe, from, to } => copy_if(alloc, kept, probe, from, to, view),
        MiniStep::Stop(status) => Err(Stopped::Status(*status)),
    }
}

/// Writes files behind one another.
fn join<V: View>(
    alloc: Global,
    kept: &mut Kept,
    from: &[Text],
    to: &Text,
    view: &mut V,
) -> Result<(), Stopped>
    requires { V.refusal view.old ≡ None }
    ensures { Follows V.came V.same V.refusal view.old view.new
        (joins from.now to.now (kept_of kept.old)) (kept_of kept.new) result }
{
    let whole = gather(alloc, kept, from, view)?;
    kept.write(alloc, to, whole)
}

/// The contents of files, one behind the other.
fn gather<V: View>(
    alloc: Global,
    kept: &mut Kept,
    from: &[Text],
    view: &mut V,
) -> Result<Bytes, Stopped>
    requires { V.refusal view.old ≡ None }
    ensures { Follows V.came V.same V.refusal view.old view.new
        (gathers [] from.now (kept_of kept.old)) (kept_of kept.new) result }
{
    let mut whole = Bytes::new(Vec::new(alloc));
    for text in from {
        let content = kept.need(alloc, text, view)?;
        whole.extend_from_slice(content.as_slice())?;
    }
    Ok(whole)
}

/// Writes a copy of a file.
fn copy<V: View>(
    alloc: Global,
    kept: &mut Kept,
    from: &Text,
    to: &Text,
    view: &mut V,
) -> Result<(), Stopped>
    requires { V.refusal view.old ≡ None }
    ensures { Follows V.came V.same V.refusal view.old view.new
        (copies from.now to.now (kept_of kept.old)) (kept_of kept.new) result }
{
    let content = kept.need(alloc, from, view)?;
    kept.write(alloc, to, content)
}

/// Writes the expansion of a file.
fn include<V: View>(
    alloc: Global,
    kept: &mut Kept,
    from: &Text,
    to: &Text,
    view: &mut V,
) -> Result<(), Stopped>
    requires { V.refusal view.old ≡ None }
    ensures { Follows V.came V.same V.refusal view.old view.new
        (expansion from.now to.now (kept_of kept.old)) (kept_of kept.new) result }
{
    let content = kept.need(alloc, from, view)?;
    let front = Bytes::new(Vec::new(alloc));
    let whole = expand(alloc, kept, from, &content, MAX_INCLUDED, front, view)?;
    kept.write(alloc, to, whole)
}

/// Writes a copy of a file where another is there, else an empty file.
fn copy_if<V: View>(
    alloc: Global,
    kept: &mut Kept,
    probe: &Text,
    from: &Text,
    to: &Text,
    view: &mut V,
) -> Result<(), Stopped>
    requires { V.refusal view.old ≡ None }
    ensures { Follows V.came V.same V.refusal view.old view.new
        (copies_if probe.now from.now to.now (kept_of kept.old)) (kept_of kept.new) result }
{
    match kept.read(alloc, probe, view)? {
        Some(_) => copy(alloc, kept, from, to, view),
        None => kept.write(alloc, to, Bytes::new(Vec::new(alloc))),
    }
}

/// Words parted by one blank, with a line feed behind them.
fn echoed(alloc: Global, words: &[Text]) -> Result<Bytes, AllocError>
    ensures { IfOk result (λ line. line ≡ echo_of words.now) }
{
    let mut line = Vec::new(alloc);
    for (at, word) in words.iter().enumerate() {
        if at > 0 {
            line.push(b' ')?;
        }
        line.extend_from_slice(word.as_str().as_bytes())?;
    }
    line.push(b'\n')?;
    Ok(Bytes::new(line))
}
