//! The output words of a rule.
ghost use Rattle.std.specs.Prelude.{◌≡◌, ◌||◌, false, is_some};
ghost use Rattle.tup_rule_line.specs.Output as specs;
ghost use Rattle.tup_query.specs.Went.{Went, asker, Gives};

use crate::flagged::flagged_text;
use crate::folder::led;
use crate::made::Made;
use crate::places::Places;
use crate::way::{is_taken, is_way_blocked};
use std::alloc::Global;
use tup_flags::FlagParts;
use tup_lex::ParseKind;
use tup_path::{Path, Text};
use tup_query::{Env, Log, ReadEnd, Spot, kind_at};
use tup_rule::Kind;

/// The outputs that words name, behind those before them in the rule.
pub(crate) fn from_outputs<E: Env>(
    alloc: Global,
    env: &mut E,
    log: &mut Log,
    at: &Spot,
    parts: &FlagParts,
    drafts: &Made,
    before: Places,
    words: &[Text],
) -> Result<Places, ReadEnd>
    requires { is_some (E.stopped env.old) ≡ false }
    ensures { Went E.tells (asker (E.answers env.old) (E.stopped env.old) (E.asked env.old) log.old)
        (specs.from_outputs at.now parts.now drafts.now before words.now)
        (asker (E.answers env.new) (E.stopped env.new) (E.asked env.new) log.new) result }
{
    let mut outputs = before;
    for word in words {
        let path = from_output(alloc, env, log, at, parts, drafts, &outputs, word)?;
        outputs = outputs.with(alloc, path)?;
    }
    Ok(outputs)
}

/// The output that a word names.
fn from_output<E: Env>(
    alloc: Global,
    env: &mut E,
    log: &mut Log,
    at: &Spot,
    parts: &FlagParts,
    drafts: &Made,
    outputs: &Places,
    word: &Text,
) -> Result<Path, ReadEnd>
    requires { is_some (E.stopped env.old) ≡ false }
    ensures { Went E.tells (asker (E.answers env.old) (E.stopped env.old) (E.asked env.old) log.old)
        (specs.from_output at.now parts.now drafts.now outputs.now word.now)
        (asker (E.answers env.new) (E.stopped env.new) (E.asked env.new) log.new) result }
{
    let text = flagged_text(alloc, at, parts, word)?;
    let path = led(alloc, at, ParseKind::ForeignOutput, at.dir(), &text)?;
    known_output(alloc, env, log, at, drafts, outputs, path)
}

/// A path as an output, behind those before it in its rule and those of earlier rules.
fn known_output<E: Env>(
    alloc: Global,
    env: &mut E,
    log: &mut Log,
    at: &Spot,
    drafts: &Made,
    outputs: &Places,
    path: Path,
) -> Result<Path, ReadEnd>
    requires { is_some (E.stopped env.old) ≡ false }
    ensures { Went E.tells (asker (E.answers env.old) (E.stopped env.old) (E.asked env.old) log.old)
        (specs.known_output at.now drafts.now outputs.now path)
        (asker (E.answers env.new) (E.stopped env.new) (E.asked env.new) log.new) result }
{
    if !may_make(at.dir(), &path) {
        return Err(at.refuse(ParseKind::ForeignOutput));
    }
    let blocked = is_way_blocked(alloc, env, log, at, drafts, outputs, &path)?;
    let kind = kind_at(alloc, env, log, &path)?;
    new_output(at, drafts, outputs, path, blocked, kind)
}

/// An output by what stands at its path and on the way to it: no output before it, no source and no folder,
/// nothing above it but folders, and no output below it.
fn new_output(
    at: &Spot,
    drafts: &Made,
    outputs: &Places,
    path: Path,
    blocked: bool,
    kind: Kind,
) -> Result<Path, ReadEnd>
    ensures { Gives (specs.new_output at.now drafts.now outputs.now path blocked kind) result }
{
    if is_taken(drafts, outputs, &path) {
        return Err(at.refuse(ParseKind::DuplicateOutput));
    }
    match kind {
        Kind::File => Err(at.refuse(ParseKind::OutputIsSource)),
        Kind::Dir => Err(at.refuse(ParseKind::OutputIsDir)),
        Kind::Nothing => lone_output(at, drafts, outputs, path, blocked),
    }
}

/// An output where nothing stands, by what is above it and below it.
fn lone_output(
    at: &Spot,
    drafts: &Made,
    outputs: &Places,
    path: Path,
    blocked: bool,
) -> Result<Path, ReadEnd>
    ensures { Gives (specs.lone_output at.now drafts.now outputs.now path blocked) result }
{
    if is_shut(drafts, outputs, &path, blocked) {
        return Err(at.refuse(ParseKind::OutputBelowFile));
    }
    Ok(path)
}

/// Whether a path can't be a file: the way to it is blocked, or an output so far lies below it.
fn is_shut(drafts: &Made, outputs: &Places, path: &Path, blocked: bool) -> bool
    ensures { result ≡ (blocked || specs.is_above_one drafts.now outputs.now path.now) }
{
    blocked || is_above_one(drafts, outputs, path)
}

/// Whether an output so far lies below a path.
fn is_above_one(drafts: &Made, outputs: &Places, path: &Path) -> bool
    ensures { result ≡ specs.is_above_one drafts.now outputs.now path.now }
{
    drafts.has_below(path) || outputs.has_below(path)
}

/// Whether a rule of a folder may make a path.
fn may_make(dir: &Path, path: &Path) -> bool
    ensures { result ≡ specs.may_make dir.now path.now }
{
    path.is_below(dir) && !is_reserved(path)
}

/// Whether a path is that of a file that says what to build.
fn is_reserved(path: &Path) -> bool
    ensures { result ≡ specs.is_reserved path.now }
{
    match path.names().split_last() {
        Some((name, folder)) => says_what_to_build(folder.is_empty(), name.as_str()),
        None => false,
    }
}

/// Whether a file of this name, in the top folder or another, says what to build.
fn says_what_to_build(at_top: bool, name: &str) -> bool
    ensures { result ≡ specs.says_what_to_build at_top name.now }
{
    match name {
        "Tupfile" | "Tuprules.tup" => true,
        "tup.config" => at_top,
        _ => false,
    }
}
