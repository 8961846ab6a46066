//! How one line of a log is read: its mark, and the fields behind it.
ghost use Rattle.std.specs.Prelude.{◌≡◌, ◌↔◌, [], ◌∷◌, IsTrue};
ghost use Rattle.tup_proc.specs.Reading.{ReadsLine, ReadsText};

use crate::cut::cut;
use crate::fault::LogFault;
use crate::line::LogLine;
use crate::number::{number, stamp};
use std::alloc::Global;
use tup_path::{Bytes, Text};

/// The line that bytes spell, if they spell one.
pub(crate) fn read_line(alloc: Global, bytes: &[u8]) -> Result<Option<LogLine>, LogFault>
    ensures { ReadsLine bytes.now result }
{
    let Some((mark, said)) = cut(bytes, b' ') else {
        return Ok(None);
    };
    if is_mark(mark, b'R') {
        read(alloc, said)
    } else if is_mark(mark, b'A') {
        absent(alloc, said)
    } else if is_mark(mark, b'W') {
        wrote(alloc, said)
    } else if is_mark(mark, b'E') {
        end(alloc, said)
    } else {
        Ok(None)
    }
}

/// Whether what stands before the first space is this mark.
fn is_mark(front: &[u8], mark: u8) -> bool
    ensures { IsTrue result ↔ (front.now ≡ mark ∷ []) }
{
    matches!(front, [byte] if *byte == mark)
}

/// `R HEX TEXT`, without its mark.
fn read(alloc: Global, said: &[u8]) -> Result<Option<LogLine>, LogFault>
    ensures { ReadsLine (82 ∷ 32 ∷ said.now) result }
{
    let Some((digits, name)) = cut(said, b' ') else {
        return Ok(None);
    };
    let Some(stamp) = stamp(digits) else {
        return Ok(None);
    };
    let Some(text) = text(alloc, name)? else {
        return Ok(None);
    };
    Ok(Some(LogLine::Read { stamp, text }))
}

/// `A TEXT`, without its mark.
fn absent(alloc: Global, said: &[u8]) -> Result<Option<LogLine>, LogFault>
    ensures { ReadsLine (65 ∷ 32 ∷ said.now) result }
{
    let Some(text) = text(alloc, said)? else {
        return Ok(None);
    };
    Ok(Some(LogLine::Absent { text }))
}

/// `W K TEXT`, without its mark.
fn wrote(alloc: Global, said: &[u8]) -> Result<Option<LogLine>, LogFault>
    ensures { ReadsLine (87 ∷ 32 ∷ said.now) result }
{
    let Some((digits, name)) = cut(said, b' ') else {
        return Ok(None);
    };
    let Some(file) = number(alloc, digits)? else {
        return Ok(None);
    };
    let Some(text) = text(alloc, name)? else {
        return Ok(None);
    };
    Ok(Some(LogLine::Wrote { file, text }))
}

/// `E N`, without its mark.
fn end(alloc: Global, said: &[u8]) -> Result<Option<LogLine>, LogFault>
    ensures { ReadsLine (69 ∷ 32 ∷ said.now) result }
{
    let Some(status) = number(alloc, said)? else {
        return Ok(None);
    };
    let Ok(status) = u8::try_from(status) else {
        return Ok(None);
    };
    Ok(Some(LogLine::End { status }))
}

/// The text that bytes are, if it may stand in a line: some bytes in UTF-8, and no line feed.
fn text(alloc: Global, name: &[u8]) -> Result<Option<Text>, LogFault>
    ensures { ReadsText name.now result }
{
    if name.is_empty() || name.contains(&b'\n') {
        return Ok(None);
    }
    Ok(Text::new(Bytes::new(Vec::from_slice(alloc, name)?)))
}
