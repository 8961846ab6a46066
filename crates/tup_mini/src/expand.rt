//! How the lines `#include "x"` of a file are replaced.
ghost use Rattle.std.specs.Prelude.{◌≡◌, ◌<◌, ◌∷◌, ◌++◌, ◌==◌, None, IfOk, length, position};
ghost use Rattle.tup_mini.specs.Include as specs;
ghost use Rattle.tup_mini.specs.Include.{lines_of, includes, expands, folder_part};
ghost use Rattle.tup_mini.specs.Through.{kept_of, Follows};

use crate::kept::Kept;
use crate::stopped::Stopped;
use std::alloc::{AllocError, Global};
use tup_path::{Bytes, Text};
use tup_runner::View;

/// Writes the lines of a file behind a front, each include replaced. `text` is the text by which
/// the file was read, and `left` says how many files may stand below it, one in the other.
#[cycle(expanding)]
pub(crate) fn expand<V: View>(
    alloc: Global,
    kept: &mut Kept,
    text: &Text,
    content: &Bytes,
    left: u32,
    front: Bytes,
    view: &mut V,
) -> Result<Bytes, Stopped>
    requires { V.refusal view.old ≡ None }
    ensures { Follows V.came V.same V.refusal view.old view.new
        (expands (includes left) text.now front (lines_of content.now) (kept_of kept.old))
        (kept_of kept.new) result }
{
    let mut whole = front;
    let mut rest = content.as_slice();
    while !rest.is_empty() {
        let (line, more) = first_line(rest);
        rest = more;
        match included(alloc, unended(line))? {
            Some(name) => {
                let name = beside(alloc, text, &name)?;
                whole = include(alloc, kept, &name, left, whole, view)?;
            }
            None => whole.extend_from_slice(line)?,
        }
    }
    Ok(whole)
}

/// Writes the expansion of an included file behind a front. `left` says how many files may stand
/// above it still, itself counted; at 0 it gives status 1 and isn't read.
#[cycle(expanding)]
fn include<V: View>(
    alloc: Global,
    kept: &mut Kept,
    text: &Text,
    left: u32,
    front: Bytes,
    view: &mut V,
) -> Result<Bytes, Stopped>
    requires { V.refusal view.old ≡ None }
    ensures { Follows V.came V.same V.refusal view.old view.new
        (includes left text.now front (kept_of kept.old)) (kept_of kept.new) result }
{
    if left == 0 {
        return Err(Stopped::Status(1));
    }
    let content = kept.need(alloc, text, view)?;
    expand(alloc, kept, text, &content, left - 1, front, view)
}

/// The first line with its line feed, and what is behind it.
fn first_line(rest: &[u8]) -> (&[u8], &[u8])
    requires { 0 < length rest.now }
    ensures cut { lines_of rest.now ≡ result.0.now ∷ lines_of result.1.now }
    ensures shorter { length result.1.now < length rest.now }
{
    let end = match feed(rest) {
        Some(at) => at + 1,
        None => rest.len(),
    };
    rest.split_at(end)
}

/// The place of the first line feed.
fn feed(rest: &[u8]) -> Option<usize>
    ensures { result ≡ position (λ b. b == 10) rest.now }
{
    rest.iter().position(|byte| *byte == b'\n')
}

/// A line without its line feed.
fn unended(line: &[u8]) -> &[u8]
    ensures { result.now ≡ specs.unended line.now }
{
    match line {
        [text @ .., b'\n'] => text,
        _ => line,
    }
}

/// The file that a line includes, where it is exactly `#include "x"`.
fn included(alloc: Global, line: &[u8]) -> Result<Option<Text>, AllocError>
    ensures { IfOk result (λ name. name ≡ specs.included line.now) }
{
    let Some(quoted) = line.strip_prefix(b"#include \"".as_slice()) else {
        return Ok(None);
    };
    let [name @ .., b'"'] = quoted else {
        return Ok(None);
    };
    if name.is_empty() || name.contains(&b'"') {
        return Ok(None);
    }
    Ok(Text::new(Bytes::new(Vec::from_slice(alloc, name)?)))
}

/// The text of a file beside another: the other's up to and with its last slash, and the name.
fn beside(alloc: Global, text: &Text, name: &Text) -> Result<Text, AllocError>
    ensures { IfOk result (λ beside. beside ≡ folder_part text.now ++ name.now) }
{
    let Some((folder, _)) = text.as_str().rsplit_once('/') else {
        return Ok(name.clone()?);
    };
    let mut beside = Text::from_str(alloc, folder)?;
    beside.push_str("/")?;
    beside.push_str(name.as_str())?;
    Ok(beside)
}
