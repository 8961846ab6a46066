//! The files that a glob gives.
ghost use Rattle.std.specs.Prelude.{◌≡◌, ◌≤◌, ◌++◌, ◌∷◌, [], false, Some, IfOk, OnOk, fold, length, option_map, is_some};
ghost use Rattle.std.specs.BTreeSet.{insert_key};
ghost use Rattle.std.specs.List.{filter_map};
ghost use Rattle.std.specs.Map.Iter.{deref};
ghost use Rattle.tup_glob.specs.Part.{matched_part};
ghost use Rattle.tup_lex.specs.declared.kind.ParseKind.TheVariants.{OpenBracket};
ghost use Rattle.tup_path.specs.Order.{by_bytes};
ghost use Rattle.tup_rule_line.specs.Glob as specs;
ghost use Rattle.tup_rule_line.specs.State.{made_by};
ghost use Rattle.tup_query.specs.Went.{Went, asker, Gives, IsRefusal};
ghost use Rattle.tup_query.specs.declared.fault.ReadEnd.TheVariants.{Memory};

use crate::folder::{file_in, last_name, led_to_folder, name_in};
use crate::found::{Found, Input, Inputs};
use crate::made::Made;
use crate::span_text::text_at;
use std::alloc::{AllocError, Global};
use std::collections::BTreeSet;
use tup_glob::{Glob, GlobFault};
use tup_lex::ParseKind;
use tup_path::{Path, Text, Texts};
use tup_query::{Env, Log, ReadEnd, Spot, names_at};
use tup_rule::Draft;

/// Whether a word is a glob: its last name has an operator.
pub(crate) fn is_glob(word: &str) -> bool
    ensures { result ≡ specs.is_glob word.now }
{
    last_name(word)
        .as_bytes()
        .iter()
        .any(|byte| is_operator(*byte))
}

/// Whether a byte is an operator of globs.
fn is_operator(byte: u8) -> bool
    ensures { result ≡ specs.is_operator byte }
{
    byte == b'*' || byte == b'?' || byte == b'['
}

/// The files that a glob matches, in byte order.
pub(crate) fn globbed<E: Env>(
    alloc: Global,
    env: &mut E,
    log: &mut Log,
    at: &Spot,
    drafts: &Made,
    word: &Text,
) -> Result<Found, ReadEnd>
    requires { is_some (E.stopped env.old) ≡ false }
    ensures { Went E.tells (asker (E.answers env.old) (E.stopped env.old) (E.asked env.old) log.old)
        (specs.globbed at.now drafts.now word.now)
        (asker (E.answers env.new) (E.stopped env.new) (E.asked env.new) log.new) result }
{
    let glob = glob_of(alloc, at, last_name(word.as_str()))?;
    let dir = led_to_folder(alloc, at, ParseKind::MissingInput, word.as_str())?;
    matched_in(alloc, env, log, drafts, &glob, &dir)
}

/// The glob of a pattern.
fn glob_of(alloc: Global, at: &Spot, pattern: &str) -> Result<Glob, ReadEnd>
    ensures { Gives (specs.glob_of at.now pattern.now) result }
{
    let pattern = Text::from_str(alloc, pattern)?;
    match Glob::read(alloc, &pattern) {
        Ok(glob) => Ok(glob),
        Err(fault) => Err(glob_end(at, fault)),
    }
}

/// The end with a refusal of a glob.
fn glob_end(at: &Spot, fault: GlobFault) -> ReadEnd
    ensures refusal { IsRefusal at.now OpenBracket result }
    ensures memory { fault ≡ GlobFault.Memory → result ≡ Memory }
{
    match fault {
        GlobFault::Memory => ReadEnd::Memory,
        GlobFault::OpenBracket => at.refuse(ParseKind::OpenBracket),
    }
}

/// The files of a folder that match.
fn matched_in<E: Env>(
    alloc: Global,
    env: &mut E,
    log: &mut Log,
    drafts: &Made,
    glob: &Glob,
    dir: &Path,
) -> Result<Found, ReadEnd>
    requires { is_some (E.stopped env.old) ≡ false }
    ensures { Went E.tells (asker (E.answers env.old) (E.stopped env.old) (E.asked env.old) log.old)
        (specs.matched_in drafts.now glob.now dir.now)
        (asker (E.answers env.new) (E.stopped env.new) (E.asked env.new) log.new) result }
{
    let told = names_at(alloc, env, log, dir)?;
    let names = matching_names(alloc, drafts, glob, dir, told)?;
    let inputs = matching(alloc, glob, dir, &names)?;
    Ok(Found::inputs_alone(alloc, inputs))
}

/// The names that a glob matches of the files in a folder, in byte order: of those that were told, and of the outputs of rules. Only
/// these are copied: a folder of many rules has many names for each of its globs.
fn matching_names(
    alloc: Global,
    drafts: &Made,
    glob: &Glob,
    dir: &Path,
    told: Texts,
) -> Result<BTreeSet<Text>, AllocError>
    ensures { IfOk result (λ names. names.keys ≡ specs.in_order (specs.wanted (Some glob.now)
        (told ++ specs.names_among dir.now (made_by drafts.now)))) }
{
    let mut names = in_order(alloc, glob, told)?;
    add_outputs(&mut names, Some(glob), dir, drafts.as_slice())?;
    Ok(names)
}

/// Those of names that a glob matches, in byte order, each once.
fn in_order(alloc: Global, glob: &Glob, told: Texts) -> Result<BTreeSet<Text>, AllocError>
    ensures { IfOk result (λ names.
        names.keys ≡ specs.in_order (specs.wanted (Some glob.now) told)) }
{
    let mut names = BTreeSet::new(alloc);
    for name in told.into_vec() {
        add_told(&mut names, glob, name)?;
    }
    Ok(names)
}

/// Adds a name that was told, if a glob matches it.
fn add_told(names: &mut BTreeSet<Text>, glob: &Glob, name: Text) -> Result<(), AllocError>
    ensures { OnOk result (names.new.keys ≡ fold (insert_key by_bytes) names.old.keys
        (specs.wanted (Some glob.now) (name ∷ []))) }
{
    if !glob.matches(&name) {
        return Ok(());
    }
    names.insert(name)?;
    Ok(())
}

/// Adds the names of those outputs of rules that stand in a folder.
pub fn add_made(names: &mut BTreeSet<Text>, dir: &Path, drafts: &[Draft]) -> Result<(), AllocError>
    ensures { OnOk result (names.new.keys ≡ fold (insert_key by_bytes) names.old.keys
        (specs.names_among dir.now (made_by drafts.now))) }
{
    add_outputs(names, None, dir, drafts)
}

/// Adds the names of those outputs of rules that stand in a folder and, if there is a glob, match it.
fn add_outputs(
    names: &mut BTreeSet<Text>,
    glob: Option<&Glob>,
    dir: &Path,
    drafts: &[Draft],
) -> Result<(), AllocError>
    ensures { OnOk result (names.new.keys ≡ fold (insert_key by_bytes) names.old.keys
        (specs.wanted (option_map deref glob.entry) (specs.names_among dir.now (made_by drafts.now)))) }
{
    for draft in drafts {
        add_names(names, glob, dir, draft.outputs.as_slice())?;
    }
    Ok(())
}

/// Adds the names of those paths that stand in a folder and, if there is a glob, match it.
fn add_names(
    names: &mut BTreeSet<Text>,
    glob: Option<&Glob>,
    dir: &Path,
    paths: &[Path],
) -> Result<(), AllocError>
    ensures { OnOk result (names.new.keys ≡ fold (insert_key by_bytes) names.old.keys
        (specs.wanted (option_map deref glob.entry) (specs.names_among dir.now paths.now))) }
{
    for path in paths {
        add_name(names, glob, dir, path)?;
    }
    Ok(())
}

/// Adds the name of a path, if it stands in a folder and, if there is a glob, matches it.
fn add_name(
    names: &mut BTreeSet<Text>,
    glob: Option<&Glob>,
    dir: &Path,
    path: &Path,
) -> Result<(), AllocError>
    ensures { OnOk result (names.new.keys ≡ fold (insert_key by_bytes) names.old.keys
        (specs.wanted (option_map deref glob.entry) (specs.names_among dir.now (path.now ∷ [])))) }
{
    match name_in(dir, path) {
        Some(name) => add_wanted(names, glob, name),
        None => Ok(()),
    }
}

/// Adds a name, if it is wanted.
fn add_wanted(
    names: &mut BTreeSet<Text>,
    glob: Option<&Glob>,
    name: &Text,
) -> Result<(), AllocError>
    ensures { OnOk result (names.new.keys ≡ fold (insert_key by_bytes) names.old.keys
        (specs.wanted (option_map deref glob.entry) (name.now ∷ []))) }
{
    if !is_wanted(glob, name) {
        return Ok(());
    }
    put_name(names, name)
}

/// Whether a name is wanted: if there is a glob, it has to match.
fn is_wanted(glob: Option<&Glob>, name: &Text) -> bool
    ensures { result ≡ specs.is_wanted (option_map deref glob.entry) name.now }
{
    match glob {
        Some(glob) => glob.matches(name),
        None => true,
    }
}

/// Adds a name.
fn put_name(names: &mut BTreeSet<Text>, name: &Text) -> Result<(), AllocError>
    ensures { OnOk result (names.new.keys ≡ insert_key by_bytes names.old.keys name.now) }
{
    names.insert(name.clone()?)?;
    Ok(())
}

/// The files of these names in a folder that match, as inputs.
fn matching(
    alloc: Global,
    glob: &Glob,
    dir: &Path,
    names: &BTreeSet<Text>,
) -> Result<Inputs, AllocError>
    ensures { IfOk result (λ inputs.
        inputs ≡ filter_map (specs.matching dir.now glob.now) names.now.keys) }
{
    let mut inputs = Inputs::new(alloc);
    for name in names {
        add_match(alloc, &mut inputs, glob, dir, name)?;
    }
    Ok(inputs)
}

/// Adds a file of a folder, if it matches.
fn add_match(
    alloc: Global,
    inputs: &mut Inputs,
    glob: &Glob,
    dir: &Path,
    name: &Text,
) -> Result<(), AllocError>
    ensures { OnOk result (inputs.new
        ≡ inputs.old ++ filter_map (specs.matching dir.now glob.now) (name.now ∷ [])) }
{
    let found = matching_file(alloc, glob, dir, name)?;
    match found {
        Some(input) => Ok(inputs.push(input)?),
        None => Ok(()),
    }
}

/// A file of a folder as an input, if it matches.
fn matching_file(
    alloc: Global,
    glob: &Glob,
    dir: &Path,
    name: &Text,
) -> Result<Option<Input>, AllocError>
    ensures { IfOk result (λ input. input ≡ specs.matching dir.now glob.now name.now) }
{
    if !glob.matches(name) {
        return Ok(None);
    }
    let path = file_in(alloc, dir, name)?;
    match path {
        Some(path) => Ok(Some(matched_input(alloc, glob, name, path)?)),
        None => Ok(None),
    }
}

/// A file as an input, with what the first operator of a glob matched in its name.
fn matched_input(alloc: Global, glob: &Glob, name: &Text, path: Path) -> Result<Input, AllocError>
    requires { length name.now ≤ 255 }
    ensures { IfOk result (λ found. found ≡ specs.matched_input glob.now name.now path) }
{
    let glob = matched_text(alloc, glob, name)?;
    Ok(Input { path, glob })
}

/// What the first operator of a glob matched in a name.
fn matched_text(alloc: Global, glob: &Glob, name: &Text) -> Result<Option<Text>, AllocError>
    requires { length name.now ≤ 255 }
    ensures { IfOk result (λ text.
        text ≡ option_map (specs.bytes_at name.now) (matched_part glob.now name.now)) }
{
    match glob.matched_part(name) {
        Some(span) => Ok(Some(text_at(alloc, name.as_str(), &span)?)),
        None => Ok(None),
    }
}
