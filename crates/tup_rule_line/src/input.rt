//! The input words of a rule.
ghost use Rattle.std.specs.Prelude.{◌≡◌, ◌||◌, false, None, IfOk, map as map_list, is_some};
ghost use Rattle.tup_rule_line.specs.State as made;
ghost use Rattle.tup_rule_line.specs.Found.{input, nothing_found};
ghost use Rattle.tup_rule_line.specs.Input as specs;
ghost use Rattle.tup_query.specs.Went.{Went, asker, Gives, IsRefusal};
ghost use Rattle.tup_query.specs.declared.fault.ReadEnd.TheVariants.{Memory};

use crate::flagged::{bare_parts, flagged_text};
use crate::folder::{bin_name, group_in, is_group, led, led_to_folder};
use crate::found::{Found, Input, Inputs};
use crate::gathered::Gathered;
use crate::glob_word::{globbed, is_glob};
use crate::made::Made;
use crate::state::State;
use std::alloc::{AllocError, Global};
use tup_lex::ParseKind;
use tup_macro::{Bins, MacroFault};
use tup_path::{Path, Paths, Text};
use tup_query::{Env, Log, ReadEnd, Spot, kind_at};
use tup_rule::Kind;

/// What input words give.
pub(crate) fn from_words<E: Env>(
    alloc: Global,
    env: &mut E,
    log: &mut Log,
    at: &Spot,
    state: &State,
    words: &[Text],
) -> Result<Found, ReadEnd>
    requires { is_some (E.stopped env.old) ≡ false }
    ensures { Went E.tells (asker (E.answers env.old) (E.stopped env.old) (E.asked env.old) log.old)
        (specs.from_words at.now state.now nothing_found words.now)
        (asker (E.answers env.new) (E.stopped env.new) (E.asked env.new) log.new) result }
{
    let mut found = Gathered::new(alloc);
    for word in words {
        let next = from_word(alloc, env, log, at, state, word)?;
        found = found.with(next)?;
    }
    Ok(found.into_found())
}

/// What an input word gives.
fn from_word<E: Env>(
    alloc: Global,
    env: &mut E,
    log: &mut Log,
    at: &Spot,
    state: &State,
    word: &Text,
) -> Result<Found, ReadEnd>
    requires { is_some (E.stopped env.old) ≡ false }
    ensures { Went E.tells (asker (E.answers env.old) (E.stopped env.old) (E.asked env.old) log.old)
        (specs.from_word at.now state.now word.now)
        (asker (E.answers env.new) (E.stopped env.new) (E.asked env.new) log.new) result }
{
    match bin_name(word.as_str()) {
        Some(name) => from_bin(alloc, at, &state.bins, name),
        None => from_other(alloc, env, log, at, &state.drafts, word),
    }
}

/// What an input word gives that is no bin.
fn from_other<E: Env>(
    alloc: Global,
    env: &mut E,
    log: &mut Log,
    at: &Spot,
    drafts: &Made,
    word: &Text,
) -> Result<Found, ReadEnd>
    requires { is_some (E.stopped env.old) ≡ false }
    ensures { Went E.tells (asker (E.answers env.old) (E.stopped env.old) (E.asked env.old) log.old)
        (specs.from_other at.now drafts.now word.now)
        (asker (E.answers env.new) (E.stopped env.new) (E.asked env.new) log.new) result }
{
    if is_group(word.as_str()) {
        return from_group(alloc, at, word.as_str());
    }
    from_files(alloc, env, log, at, drafts, word)
}

/// The files that a bin holds.
fn from_bin(alloc: Global, at: &Spot, bins: &Bins, name: &str) -> Result<Found, ReadEnd>
    ensures { Gives (specs.from_bin at.now bins.now name.now) result }
{
    let name = Text::from_str(alloc, name)?;
    match bins.members(alloc, &name) {
        Ok(paths) => {
            let inputs = whole_inputs(alloc, paths)?;
            Ok(Found::inputs_alone(alloc, inputs))
        }
        Err(fault) => Err(bin_end(at, fault)),
    }
}

/// The end with a refusal of a bin.
fn bin_end(at: &Spot, fault: MacroFault) -> ReadEnd
    ensures refusal { IsRefusal at.now ParseKind.NoSuchBin result }
    ensures memory { fault ≡ MacroFault.Memory → result ≡ Memory }
{
    match fault {
        MacroFault::Memory => ReadEnd::Memory,
        _ => at.refuse(ParseKind::NoSuchBin),
    }
}

/// Paths as inputs that no glob gave.
fn whole_inputs(alloc: Global, paths: Paths) -> Result<Inputs, AllocError>
    ensures { IfOk result (λ inputs. inputs ≡ map_list (λ path. input path None) paths) }
{
    let mut inputs = Inputs::new(alloc);
    for path in paths.into_vec() {
        inputs.push(Input { path, glob: None })?;
    }
    Ok(inputs)
}

/// The group that a word names.
fn from_group(alloc: Global, at: &Spot, word: &str) -> Result<Found, ReadEnd>
    ensures { Gives (specs.from_group at.now word.now) result }
{
    let dir = led_to_folder(alloc, at, ParseKind::MissingInput, word)?;
    let group = group_in(alloc, dir, word)?;
    Ok(Found::one_group(alloc, group)?)
}

/// What a word that is no bin and no group gives, once its flags are put in.
fn from_files<E: Env>(
    alloc: Global,
    env: &mut E,
    log: &mut Log,
    at: &Spot,
    drafts: &Made,
    word: &Text,
) -> Result<Found, ReadEnd>
    requires { is_some (E.stopped env.old) ≡ false }
    ensures { Went E.tells (asker (E.answers env.old) (E.stopped env.old) (E.asked env.old) log.old)
        (specs.from_files at.now drafts.now word.now)
        (asker (E.answers env.new) (E.stopped env.new) (E.asked env.new) log.new) result }
{
    let text = bare_text(alloc, at, word)?;
    from_text(alloc, env, log, at, drafts, &text)
}

/// A word with its flags put in, of which only the percent sign has a meaning among inputs.
fn bare_text(alloc: Global, at: &Spot, word: &Text) -> Result<Text, ReadEnd>
    ensures { Gives (specs.bare_text at.now word.now) result }
{
    let parts = bare_parts(alloc, at.dir())?;
    flagged_text(alloc, at, &parts, word)
}

/// What a text gives that is no bin and no group: the files that a glob matches, or one file.
fn from_text<E: Env>(
    alloc: Global,
    env: &mut E,
    log: &mut Log,
    at: &Spot,
    drafts: &Made,
    text: &Text,
) -> Result<Found, ReadEnd>
    requires { is_some (E.stopped env.old) ≡ false }
    ensures { Went E.tells (asker (E.answers env.old) (E.stopped env.old) (E.asked env.old) log.old)
        (specs.from_text at.now drafts.now text.now)
        (asker (E.answers env.new) (E.stopped env.new) (E.asked env.new) log.new) result }
{
    if is_glob(text.as_str()) {
        globbed(alloc, env, log, at, drafts, text)
    } else {
        literal(alloc, env, log, at, drafts, text)
    }
}

/// The file that a word names.
fn literal<E: Env>(
    alloc: Global,
    env: &mut E,
    log: &mut Log,
    at: &Spot,
    drafts: &Made,
    word: &Text,
) -> Result<Found, ReadEnd>
    requires { is_some (E.stopped env.old) ≡ false }
    ensures { Went E.tells (asker (E.answers env.old) (E.stopped env.old) (E.asked env.old) log.old)
        (specs.literal at.now drafts.now word.now)
        (asker (E.answers env.new) (E.stopped env.new) (E.asked env.new) log.new) result }
{
    let path = led(alloc, at, ParseKind::MissingInput, at.dir(), word)?;
    let kind = kind_at(alloc, env, log, &path)?;
    known_input(alloc, at, drafts, path, kind)
}

/// A path as an input, by what stands there: a file, or an output of a rule.
fn known_input(
    alloc: Global,
    at: &Spot,
    drafts: &Made,
    path: Path,
    kind: Kind,
) -> Result<Found, ReadEnd>
    ensures { Gives (specs.known_input at.now drafts.now path kind) result }
{
    if !is_there(drafts, &path, kind) {
        return Err(at.refuse(ParseKind::MissingInput));
    }
    Ok(Found::one_input(alloc, path)?)
}

/// Whether a file stands at a path, or is made there.
fn is_there(drafts: &Made, path: &Path, kind: Kind) -> bool
    ensures { result ≡ (specs.is_file kind || made.is_made drafts.now path.now) }
{
    is_file(kind) || drafts.has(path)
}

/// Whether a file stands there.
pub(crate) fn is_file(kind: Kind) -> bool
    ensures { result ≡ specs.is_file kind }
{
    matches!(kind, Kind::File)
}
