//! Places that lead through the links of `/proc` to a process's folder and root.
ghost use Rattle.std.specs.Prelude.{◌≡◌, IfOk, length, position, ◌≤◌};
ghost use Rattle.std.specs.Option.{option_copied};
ghost use Rattle.tup_strace.specs.Linked as specs;

use crate::acts::copied;
use crate::folders::Folders;
use std::alloc::{AllocError, Global};
use tup_path::Bytes;

/// The place to which a place leads, if it leads through the folder or the root of a process in `/proc`. Each process has the root
/// of the system.
pub(crate) fn led(
    alloc: Global,
    folders: &Folders,
    process: &Bytes,
    place: Bytes,
) -> Result<Bytes, AllocError>
    ensures { IfOk result (λ led. led ≡ specs.led folders.now process.now place) }
{
    match leads(alloc, folders, process, place.as_slice())? {
        Some(led) => Ok(led),
        None => Ok(place),
    }
}

/// The place to which a place leads through `/proc`.
fn leads(
    alloc: Global,
    folders: &Folders,
    process: &Bytes,
    place: &[u8],
) -> Result<Option<Bytes>, AllocError>
    ensures { IfOk result (λ led. led ≡ specs.leads folders.now process.now place.now) }
{
    let Some(rest) = behind(b"/proc/", place) else {
        return Ok(None);
    };
    let (name, rest) = rest.split_at(end_of_name(rest));
    if is_self(name) || name == process.as_slice() {
        leads_from(alloc, folders.folder_of(process), rest)
    } else {
        leads_named(alloc, folders, name, rest)
    }
}

/// The place to which the rest of a place leads behind the number of a process. One of which nothing is known leads nowhere.
fn leads_named(
    alloc: Global,
    folders: &Folders,
    name: &[u8],
    rest: &[u8],
) -> Result<Option<Bytes>, AllocError>
    ensures { IfOk result (λ led. led ≡ specs.leads_named folders.now name.now rest.now) }
{
    let named = copied(alloc, name)?;
    if folders.is_known(&named) {
        leads_from(alloc, folders.folder_of(&named), rest)
    } else {
        Ok(None)
    }
}

/// The place to which the rest of a place leads behind the name of a process that works in this folder.
fn leads_from(alloc: Global, folder: &[u8], rest: &[u8]) -> Result<Option<Bytes>, AllocError>
    ensures { IfOk result (λ led. led ≡ specs.leads_from folder.now rest.now) }
{
    if let Some(below) = below(b"/cwd", rest) {
        let mut place = copied(alloc, folder)?;
        place.extend_from_slice(below)?;
        return Ok(Some(place));
    }
    match below(b"/root", rest) {
        Some(below) => {
            let mut place = copied(alloc, b"/")?;
            place.extend_from_slice(below)?;
            Ok(Some(place))
        }
        None => Ok(None),
    }
}

/// Whether the name of a process is that of the one that says it.
fn is_self(name: &[u8]) -> bool
    ensures { result ≡ specs.is_self name.now }
{
    name == b"self".as_slice() || name == b"thread-self".as_slice()
}

/// Where the first name of a text ends.
fn end_of_name(text: &[u8]) -> usize
    ensures is { result ≡ specs.end_of_name text.now }
    ensures within { result ≤ length text.now }
{
    match slash_in(text) {
        Some(end) => end,
        None => text.len(),
    }
}

/// Where the first slash of a text stands.
fn slash_in(text: &[u8]) -> Option<usize>
    ensures { result ≡ position specs.is_slash text.now }
{
    text.iter().position(|byte| *byte == b'/')
}

/// What stands behind a name of a place: nothing, or more names.
fn below<'a>(name: &[u8], text: &'a [u8]) -> Option<&'a [u8]>
    ensures { option_copied result ≡ specs.below name.now text.now }
{
    match behind(name, text) {
        Some(rest) if is_over(rest) => Some(rest),
        _ => None,
    }
}

/// Whether a name is over before this text.
fn is_over(text: &[u8]) -> bool
    ensures { result ≡ specs.is_over text.now }
{
    match text {
        [first, ..] => *first == b'/',
        [] => true,
    }
}

/// The rest of a text that begins so.
fn behind<'a>(front: &[u8], text: &'a [u8]) -> Option<&'a [u8]>
    ensures { option_copied result ≡ specs.behind front.now text.now }
{
    text.strip_prefix(front)
}
