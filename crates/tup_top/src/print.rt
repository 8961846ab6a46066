//! What is printed of an order, and how it is handed to a sink.
ghost use Rattle.std.specs.Prelude.{◌≡◌, ◌++◌, IsTrue, IfOk, OnOk, string_bytes};
ghost use Rattle.std.specs.List.{flat_map};
ghost use Rattle.tup_top.specs.Lines as specs;
ghost use Rattle.tup_top.specs.Printed.{Ends, Prints, IsDone};
ghost use Rattle.tup_top.specs.Status.{after_sink_fault as spec_after};

use crate::status::Status;
use std::alloc::{AllocError, Global};
use tup_access::Verdict;
use tup_path::{Bytes, Path, Text};
use tup_promise::{EndedRule, Log};
use tup_tell::{Sink, SinkFailed};
use tup_todo::{DueRule, Todo};

/// All lines of an update with this log, the last one for its status. Behind that of each rule stands why it was run, where
/// there is a chain.
pub(crate) fn lines(
    alloc: Global,
    log: &Log,
    because: &[Option<Text>],
    status: &Status,
) -> Result<Bytes, AllocError>
    ensures { IfOk result (λ text. text ≡ specs.lines log.now because.now status.now) }
{
    let mut text = String::new(alloc);
    add_read(&mut text, log.read.as_slice())?;
    add_removed(&mut text, log.removed.as_slice())?;
    add_ended(&mut text, log.ended.as_slice(), because)?;
    writeln!(text, "{status}")?;
    Ok(Bytes::new(text.into_bytes()))
}

/// All lines of what an update would do, the last one for its status.
pub(crate) fn todo_lines(alloc: Global, todo: &Todo, status: &Status) -> Result<Bytes, AllocError>
    ensures { IfOk result
        (λ text. text ≡ specs.listed_lines todo.now ++ specs.last_line status.now) }
{
    let mut text = String::new(alloc);
    add_read(&mut text, todo.read.as_slice())?;
    add_removes(&mut text, todo.removes.as_slice())?;
    add_runs(&mut text, todo.runs.as_slice())?;
    writeln!(text, "{status}")?;
    Ok(Bytes::new(text.into_bytes()))
}

/// The line of a status alone.
pub(crate) fn last_line(alloc: Global, status: &Status) -> Result<Bytes, AllocError>
    ensures { IfOk result (λ text. text ≡ specs.last_line status.now) }
{
    let text = format!(in alloc; "{status}\n")?;
    Ok(Bytes::new(text.into_bytes()))
}

/// The line of a beginning that ends with a status.
pub(crate) fn begun_line(alloc: Global, status: &Status) -> Result<Bytes, AllocError>
    ensures { IfOk result (λ text. text ≡ specs.begun_line status.now) }
{
    match status {
        Status::Done { .. } => Ok(Bytes::new(Vec::from_slice(alloc, b"initialized\n")?)),
        other => last_line(alloc, other),
    }
}

/// The line of a comparison that ends with a status.
pub(crate) fn compared_line(alloc: Global, status: &Status) -> Result<Bytes, AllocError>
    ensures { IfOk result (λ text. text ≡ specs.compared_line status.now) }
{
    match status {
        Status::Done { .. } => Ok(Bytes::new(Vec::from_slice(alloc, b"same\n")?)),
        other => last_line(alloc, other),
    }
}

/// Adds a line for each folder that was read.
fn add_read(text: &mut String, folders: &[Path]) -> Result<(), AllocError>
    ensures { OnOk result
        (string_bytes text.new ≡ string_bytes text.old ++ flat_map specs.read_line folders.now) }
{
    for dir in folders {
        writeln!(text, "read {dir}")?;
    }
    Ok(())
}

/// Adds a line for each file that was removed.
fn add_removed(text: &mut String, paths: &[Path]) -> Result<(), AllocError>
    ensures { OnOk result
        (string_bytes text.new ≡ string_bytes text.old ++ flat_map specs.removed_line paths.now) }
{
    for path in paths {
        writeln!(text, "remove {path}")?;
    }
    Ok(())
}

/// Adds a line for each file that is to be removed.
fn add_removes(text: &mut String, paths: &[Path]) -> Result<(), AllocError>
    ensures { OnOk result
        (string_bytes text.new ≡ string_bytes text.old ++ flat_map specs.removes_line paths.now) }
{
    for path in paths {
        add_removal(text, path)?;
    }
    Ok(())
}

/// Adds the line of a file that is to be removed.
fn add_removal(text: &mut String, path: &Path) -> Result<(), AllocError>
    ensures { OnOk result
        (string_bytes text.new ≡ string_bytes text.old ++ specs.removes_line path.now) }
{
    writeln!(text, "todo remove {path}")
}

/// Adds a line for each rule that is to be run.
fn add_runs(text: &mut String, rules: &[DueRule]) -> Result<(), AllocError>
    ensures { OnOk result
        (string_bytes text.new ≡ string_bytes text.old ++ flat_map specs.runs_line rules.now) }
{
    for due in rules {
        writeln!(text, "todo run {}: {}", due.rule.dir, due.label)?;
    }
    Ok(())
}

/// Adds a line for each rule that ended, and behind it why it was run.
fn add_ended(
    text: &mut String,
    ended: &[EndedRule],
    because: &[Option<Text>],
) -> Result<(), AllocError>
    ensures { OnOk result (string_bytes text.new
        ≡ string_bytes text.old ++ specs.ended_lines 0 ended.now because.now) }
{
    for (at, one) in ended.iter().enumerate() {
        add_verdict(text, one)?;
        add_because(text, because, at)?;
    }
    Ok(())
}

/// Adds a line for the chain at a place, if there is one.
fn add_because(text: &mut String, because: &[Option<Text>], at: usize) -> Result<(), AllocError>
    ensures { OnOk result (string_bytes text.new
        ≡ string_bytes text.old ++ specs.because_line (specs.chain_at because.now at)) }
{
    match because.get(at) {
        Some(chain) => add_chain(text, chain),
        None => Ok(()),
    }
}

/// Adds the line of a chain, if there is one.
fn add_chain(text: &mut String, chain: &Option<Text>) -> Result<(), AllocError>
    ensures { OnOk result
        (string_bytes text.new ≡ string_bytes text.old ++ specs.because_line chain.now) }
{
    match chain {
        Some(chain) => writeln!(text, "  because {chain}"),
        None => Ok(()),
    }
}

/// Adds the line of a rule that ended.
fn add_verdict(text: &mut String, ended: &EndedRule) -> Result<(), AllocError>
    ensures { OnOk result
        (string_bytes text.new ≡ string_bytes text.old ++ specs.ended_line ended.now) }
{
    let what = match ended.verdict {
        Verdict::Good => "run",
        _ => "bad",
    };
    writeln!(text, "{what} {}: {}", ended.rule.dir, ended.label)
}

/// Writes the line of a status alone, and says how an order that ends with it ends then.
pub(crate) fn tell<K: Sink>(alloc: Global, status: Status, out: &mut K) -> Status
    ensures ends { Ends (K.faults out.old) (K.faults out.new) status result }
    ensures prints { IsTrue K.tells → let before = K.faults out.old in let now = K.faults out.new in
        Prints status (specs.last_line status) before now (K.held out.old) (K.held out.new) result }
{
    match last_line(alloc, &status) {
        Ok(line) => print(alloc, &line, status, out),
        Err(_) => Status::Memory,
    }
}

/// Writes the text of an order that ends with this status, all of it at once, and says how the
/// order ends then.
pub(crate) fn print<K: Sink>(alloc: Global, text: &Bytes, status: Status, out: &mut K) -> Status
    ensures ends { Ends (K.faults out.old) (K.faults out.new) status result }
    ensures counted { IsDone result → K.faults out.new ≡ K.faults out.old }
    ensures prints { IsTrue K.tells → let before = K.faults out.old in let now = K.faults out.new in
        Prints status text.now before now (K.held out.old) (K.held out.new) result }
{
    match out.write(alloc, text) {
        Ok(()) => status,
        Err(SinkFailed::Fault) => after_sink_fault(status),
        Err(SinkFailed::Memory) => Status::Memory,
    }
}

/// The sink's failure is answered where all else went well; another answer tells more.
fn after_sink_fault(status: Status) -> Status
    ensures { result ≡ spec_after status }
{
    match status {
        Status::Done { .. } => Status::SinkFault,
        other => other,
    }
}
