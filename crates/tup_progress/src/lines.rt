//! The lines that are shown of a command.
ghost use Rattle.std.specs.Prelude.{◌≡◌, IfOk, string_bytes};
ghost use Rattle.tup_progress.specs.Lines as specs;

use crate::plain::plain;
use crate::started::Count;
use std::alloc::{AllocError, Global};
use tup_path::{Path, Text};

/// Takes away the line in which the cursor stands.
pub const CLEAR: &str = "\r\x1b[K";

/// Has the terminal cut what is wider than it is.
const CUT: &str = "\x1b[?7l";

/// Ends the cutting, and the line.
const END: &str = "\x1b[?7h\n";

/// Ends the cutting, and puts the cursor behind the last column: what is printed next begins a line of its own, and before
/// that `CLEAR` takes away this one.
const AT_END: &str = "\x1b[?7h\x1b[999C ";

/// The line of a command that is to be run beside others, written over the one that stands there.
pub(crate) fn over(
    alloc: Global,
    begun: Count,
    dir: &Path,
    text: &Text,
) -> Result<String, AllocError> {
    let count = counted(alloc, begun.number, begun.planned, begun.others)?;
    let line = started(alloc, count.as_str(), dir, text)?;
    format!(in alloc; "{CLEAR}{CUT}{line}{AT_END}")
}

/// The line of a command that is to be run, for itself.
pub(crate) fn own(
    alloc: Global,
    begun: Count,
    dir: &Path,
    text: &Text,
) -> Result<String, AllocError>
    ensures { IfOk result (λ line. string_bytes line
        ≡ specs.own_line begun.number begun.planned dir.now text.now) }
{
    let count = counted(alloc, begun.number, begun.planned, 0)?;
    let line = started(alloc, count.as_str(), dir, text)?;
    format!(in alloc; "{line}\n")
}

/// The same, cut by the terminal.
pub(crate) fn own_cut(
    alloc: Global,
    begun: Count,
    dir: &Path,
    text: &Text,
) -> Result<String, AllocError> {
    let count = numbered(alloc, begun.number, begun.planned)?;
    let line = started(alloc, count.as_str(), dir, text)?;
    format!(in alloc; "{CUT}{line}{END}")
}

/// The number of a command, how many are planned, if that is known, and how many run beside it, if any do.
fn counted(alloc: Global, number: u64, planned: u64, others: u64) -> Result<String, AllocError>
    ensures { IfOk result (λ count. string_bytes count ≡ specs.count number planned others) }
{
    let front = numbered(alloc, number, planned)?;
    if others == 0 {
        Ok(front)
    } else {
        format!(in alloc; "{front}+{others}")
    }
}

/// The number of a command, and how many are planned, if that is known.
fn numbered(alloc: Global, number: u64, planned: u64) -> Result<String, AllocError>
    ensures { IfOk result (λ front. string_bytes front ≡ specs.numbered number planned) }
{
    if planned == 0 {
        format!(in alloc; "{number}")
    } else {
        format!(in alloc; "{number}/{planned}")
    }
}

/// A command that is to be run.
fn started(alloc: Global, count: &str, dir: &Path, text: &Text) -> Result<String, AllocError>
    ensures { IfOk result
        (λ line. string_bytes line ≡ specs.started count.now dir.now text.now) }
{
    let line = format!(in alloc; "[{count}] {dir}: {text}")?;
    plain(alloc, line.as_str())
}

/// The line of a command that failed.
pub(crate) fn failed(
    alloc: Global,
    dir: &Path,
    text: &Text,
    status: u8,
) -> Result<String, AllocError>
    ensures { IfOk result
        (λ line. string_bytes line ≡ specs.failed_line dir.now text.now status) }
{
    let line = format!(in alloc; "{dir}: {text}: status {status}")?;
    let line = plain(alloc, line.as_str())?;
    format!(in alloc; "{line}\n")
}

/// The same below what stands in the line of the cursor, which may lack its last line feed.
pub(crate) fn failed_below(
    alloc: Global,
    dir: &Path,
    text: &Text,
    status: u8,
) -> Result<String, AllocError> {
    let line = failed(alloc, dir, text, status)?;
    format!(in alloc; "\n{line}")
}
