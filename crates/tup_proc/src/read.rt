//! How a log is read.
ghost use Rattle.std.specs.Prelude.{◌≡◌, ℕ, Err, IfOk};
ghost use Rattle.tup_proc.specs.Log.{spelling, counted, IsLog, IsBadAt};
ghost use Rattle.tup_proc.specs.Reading.{ReadsNext};

use crate::cut::cut;
use crate::fault::LogFault;
use crate::fields::read_line;
use crate::line::LogLine;
use std::alloc::Global;
use tup_path::Items;

/// The lines that bytes spell. `BadLine` names the first line that doesn't fit: it is none of a log's lines, has no
/// line feed, is an end with lines behind it, or is missing where there is no end.
pub fn read_log(alloc: Global, bytes: &[u8]) -> Result<Items<LogLine>, LogFault>
    ensures log { IfOk result (λ lines. IsLog lines × (bytes.now ≡ spelling lines)) }
    ensures bad { (line : ℕ) → result ≡ Err (LogFault.BadLine line) → IsBadAt bytes.now line }
{
    let mut lines = Items::new(alloc);
    let mut rest = bytes;
    'lines: while let Some((line, size)) = next_line(alloc, rest)? {
        let ends = line.is_end();
        lines.push(line)?;
        if ends {
            return Ok(lines);
        }
        rest = &rest[size..];
    }
    Err(LogFault::BadLine {
        line: number_behind(lines.len()),
    })
}

/// The number of the line behind so many lines; it stands still at the last `u32`.
fn number_behind(lines: usize) -> u32
    ensures { result ≡ counted lines }
{
    match u32::try_from(lines) {
        Ok(lines) => lines.saturating_add(1),
        Err(_) => u32::MAX,
    }
}

/// The next line of a log, and how many bytes it takes with its line feed.
fn next_line(alloc: Global, rest: &[u8]) -> Result<Option<(LogLine, usize)>, LogFault>
    ensures { ReadsNext rest.now result }
{
    let Some((front, behind)) = cut(rest, b'\n') else {
        return Ok(None);
    };
    let Some(line) = read_line(alloc, front)? else {
        return Ok(None);
    };
    if line.is_end() && !behind.is_empty() {
        return Ok(None);
    }
    Ok(Some((line, front.len() + 1)))
}
