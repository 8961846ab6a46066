//! The lines of a Tupfile.
ghost use Rattle.std.specs.Prelude.{◌≡◌, ◌⊎◌, ◌++◌, true, false, count_by, OnOk, IfErr, ◌==◌};
ghost use Rattle.std.specs.Str.Lines.{lines as cut_lines};
ghost use Rattle.tup_lex.specs.Covers.{Covers};
ghost use Rattle.tup_lex.specs.Line.{line, line_number, is_long, says_something, told, said, joined_lines, lines};
ghost use Rattle.tup_lex.specs.declared.fault.LexFault.TheVariants.{Memory, LineTooLong};

use crate::blank::trimmed;
use crate::fault::LexFault;
use std::alloc::Global;
use std::str;
use tup_path::{Bytes, Items, Text};

/// How many bytes a line may have, joined and not yet trimmed.
pub const MAX_LINE: usize = 65535;

/// A joined and trimmed line with the number of its first line in the file, counted from 1. In a
/// file of more lines than a `u32` counts, the last number stands for all above it.
#[derive(Drop)]
pub struct Line {
    pub number: u32,
    pub text: Text,
}

/// The lines of a file.
pub type Lines = Items<Line>;

/// The joined, trimmed lines of a file that aren't empty and aren't comments.
///
/// A file that isn't UTF-8 is refused at the line of its first wrong byte, and else one with a joined
/// line of more than 65,535 bytes at the first line of the first such.
pub fn lines(alloc: Global, file: &Bytes) -> Result<Lines, LexFault>
    ensures lines { (result ≡ Err Memory) ⊎ (result ≡ lines file.now) }
    ensures covered { Covers 0 (joined_lines file.now) (cut_lines file.now) }
{
    let bytes = file.as_slice();
    match str::from_utf8(bytes) {
        Ok(text) => said_lines(alloc, text),
        Err(error) => Err(LexFault::NotUtf8 {
            line: last_line(&bytes[..error.valid_up_to()]),
        }),
    }
}

/// The number of the line that has so many before it, counted from 1. The last number of a `u32`
/// stands for all above it.
pub fn line_number(before: usize) -> u32
    ensures { result ≡ line_number before }
{
    u32::try_from(before).unwrap_or(u32::MAX).saturating_add(1)
}

/// The number of the line in which a front of a file ends: that of the byte behind it.
pub fn last_line(front: &[u8]) -> u32
    ensures { result ≡ line_number (count_by (λ byte. byte == 10) front.now) }
{
    line_number(front.iter().filter(|byte| **byte == b'\n').count())
}

/// Whether a text has more bytes than a line may have.
pub fn is_long(text: &str) -> bool
    ensures { result ≡ is_long text.now }
{
    text.len() > MAX_LINE
}

fn said_lines(alloc: Global, text: &str) -> Result<Lines, LexFault>
    ensures { (result ≡ Err Memory) ⊎ (result ≡ said (joined_lines text.now)) }
{
    let mut kept = Lines::new(alloc);
    let mut begun = String::new(alloc);
    let mut first = 1u32;
    let mut number = 1u32;
    for line in text.lines() {
        number = number.saturating_add(1);
        match line.strip_suffix('\\') {
            Some(front) => begun.push_str(front)?,
            None => {
                begun.push_str(line)?;
                keep(alloc, &mut kept, first, begun.as_str())?;
                begun.clear();
                first = number;
            }
        }
    }
    keep(alloc, &mut kept, first, begun.as_str())?;
    Ok(kept)
}

/// Adds a joined line to those that are kept, if it says something.
fn keep(alloc: Global, kept: &mut Lines, number: u32, joined: &str) -> Result<(), LexFault>
    ensures fits { OnOk result (is_long joined.now ≡ false) }
    ensures kept { OnOk result (kept.new ≡ kept.old ++ told (line number joined.now)) }
    ensures refused { IfErr result (λ fault. (fault ≡ Memory)
        ⊎ ((fault ≡ LineTooLong number) × (is_long joined.now ≡ true))) }
{
    if is_long(joined) {
        return Err(LexFault::LineTooLong { line: number });
    }
    let text = trimmed(joined);
    if says_something(text) {
        let text = Text::from_str(alloc, text)?;
        kept.push(Line { number, text })?;
    }
    Ok(())
}

/// Whether a trimmed text says something: it isn't empty, and no comment.
pub fn says_something(text: &str) -> bool
    ensures { result ≡ says_something text.now }
{
    match text.as_bytes() {
        [] => false,
        [first, ..] => *first != b'#',
    }
}
