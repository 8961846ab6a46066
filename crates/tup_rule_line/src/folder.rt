//! Words that name folders and groups.
ghost use Rattle.std.specs.Prelude.{◌≡◌, ◌<◌, ◌≤◌, ◌+◌, None, Some, IfOk, IfSome, MatchOption, codes, drop, if◌then◌else◌, length, option_and_then, option_map, slice_index};
ghost use Rattle.tup_lex.specs.Word.{last_name};
ghost use Rattle.tup_path.specs.Order.{same_path};
ghost use Rattle.tup_vars.specs.Config.{behind};
ghost use Rattle.tup_rule_line.specs.Caret.{unless_empty};
ghost use Rattle.tup_rule_line.specs.Last.{before_last};
ghost use Rattle.tup_rule_line.specs.Folder as specs;
ghost use Rattle.tup_query.specs.Went.{Gives, IsRefusal};
ghost use Rattle.tup_query.specs.declared.fault.ReadEnd.TheVariants.{Memory};

use crate::last::before_last;
use bstr::ByteSlice;
use std::alloc::{AllocError, Global};
use tup_lex::ParseKind;
use tup_path::{Path, PathFault, Text};
use tup_query::{ReadEnd, Spot};
use tup_rule::GroupRef;

/// The name of a file by its path, if it stands in this folder.
pub(crate) fn name_in<'p>(dir: &Path, path: &'p Path) -> Option<&'p Text>
    ensures { option_map (λ name. name.now) result ≡ specs.name_in dir.now path.now }
{
    match path.names().split_last() {
        Some((name, folder)) => in_folder(dir, folder, name),
        None => None,
    }
}

/// A name, if it stands in this folder.
fn in_folder<'p>(dir: &Path, folder: &[Text], name: &'p Text) -> Option<&'p Text>
    ensures { option_map (λ name. name.now) result
        ≡ (if same_path dir.now folder.now then Some name.now else None) }
{
    if dir.names() == folder {
        Some(name)
    } else {
        None
    }
}

/// The path of a file in a folder, or `None` where its name isn't one that a file may have, or the path
/// would have too many names.
pub fn file_in(alloc: Global, dir: &Path, name: &Text) -> Result<Option<Path>, AllocError>
    ensures path { IfOk result (λ path. path ≡ specs.file_in dir.now name.now) }
    ensures short { IfOk result (λ path. IfSome path (λ _. length name.now ≤ 255)) }
{
    match dir.join(alloc, name) {
        Ok(path) => Ok(Some(path)),
        Err(PathFault::Memory) => Err(AllocError),
        Err(_) => Ok(None),
    }
}

/// Where a text leads from a folder.
///
/// A text that leads nowhere, as above the top folder, is a fault of the kind given; `Stopped` never
/// comes.
pub fn led(
    alloc: Global,
    at: &Spot,
    kind: ParseKind,
    dir: &Path,
    text: &Text,
) -> Result<Path, ReadEnd>
    ensures { Gives (specs.led at.now kind dir.now text.now) result }
{
    match Path::resolve(alloc, dir, text) {
        Ok(path) => Ok(path),
        Err(fault) => Err(path_end(at, kind, fault)),
    }
}

/// The end with a refusal of a path.
fn path_end(at: &Spot, kind: ParseKind, fault: PathFault) -> ReadEnd
    ensures refusal { IsRefusal at.now kind result }
    ensures memory { fault ≡ PathFault.Memory → result ≡ Memory }
{
    match fault {
        PathFault::Memory => ReadEnd::Memory,
        _ => at.refuse(kind),
    }
}

/// The folder of a word, or a fault of this kind.
pub(crate) fn led_to_folder(
    alloc: Global,
    at: &Spot,
    kind: ParseKind,
    word: &str,
) -> Result<Path, ReadEnd>
    ensures { Gives (specs.led_to_folder at.now kind word.now) result }
{
    match front_of(word) {
        Some(front) => {
            let front = Text::from_str(alloc, front)?;
            led(alloc, at, kind, at.dir(), &front)
        }
        None => Ok(at.dir().clone()?),
    }
}

/// What stands before the last slash of a word.
fn front_of(word: &str) -> Option<&str>
    ensures { option_map (λ front. front.now) result ≡ specs.front_of word.now }
{
    let slash = last_slash(word.as_bytes())?;
    Some(&word[..slash])
}

/// What stands behind the last slash of a word.
pub(crate) fn last_name(word: &str) -> &str
    ensures { result.now ≡ last_name word.now }
{
    match last_slash(word.as_bytes()) {
        Some(slash) => &word[slash + 1..],
        None => word,
    }
}

/// The place of the last slash.
fn last_slash(word: &[u8]) -> Option<usize>
    ensures name { MatchOption result (last_name word.now ≡ word.now)
        (λ slash. last_name word.now ≡ drop (slash + 1) word.now) }
    ensures slash { IfSome result (λ slash.
        (slash < length word.now) × (slice_index word.now slash ≡ 47)) }
{
    word.rfind_byte(b'/')
}

/// The name of the bin that a word is.
pub(crate) fn bin_name(word: &str) -> Option<&str>
    ensures { option_map (λ name. name.now) result ≡ specs.bin_name word.now }
{
    some_text(in_braces(word)?)
}

/// What stands between the braces of a word.
fn in_braces(word: &str) -> Option<&str>
    ensures { option_map (λ inside. inside.now) result
        ≡ option_and_then (before_last 125) (behind (codes "{") word.now) }
{
    before_last(word.strip_prefix("{")?, '}')
}

/// The name of the group that a word is.
pub(crate) fn group_name(word: &str) -> Option<&str>
    ensures { option_map (λ name. name.now) result ≡ specs.group_name word.now }
{
    some_text(in_angles(last_name(word))?)
}

/// What stands between `<` and `>`.
fn in_angles(name: &str) -> Option<&str>
    ensures { option_map (λ inside. inside.now) result
        ≡ option_and_then (before_last 62) (behind (codes "<") name.now) }
{
    before_last(name.strip_prefix("<")?, '>')
}

/// A text that isn't empty.
fn some_text(text: &str) -> Option<&str>
    ensures { option_map (λ some. some.now) result ≡ unless_empty text.now }
{
    if text.is_empty() { None } else { Some(text) }
}

/// Whether a word is a group.
pub(crate) fn is_group(word: &str) -> bool
    ensures { result ≡ specs.is_group word.now }
{
    group_name(word).is_some()
}

/// A group by its folder, and the word that names it.
pub(crate) fn group_in(alloc: Global, dir: Path, word: &str) -> Result<GroupRef, AllocError>
    ensures { IfOk result (λ group. group ≡ specs.group_in dir word.now) }
{
    let name = Text::from_str(alloc, group_name(word).unwrap_or(""))?;
    Ok(GroupRef { dir, name })
}
