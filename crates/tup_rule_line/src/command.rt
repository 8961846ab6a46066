//! The commands of a rule line, one after another.
ghost use Rattle.std.specs.Prelude.{◌≡◌, false, IfOk, OnOk, fold, bytes_eq, is_some};
ghost use Rattle.tup_macro.specs.Gifts.{with_gift};
ghost use Rattle.tup_rule_line.specs.Job as specs;
ghost use Rattle.tup_query.specs.Went.{Went, asker, Gives};

use crate::caret::{Command, command_of};
use crate::flagged::flagged;
use crate::job::{Job, Sources, Spoken};
use crate::made::Made;
use crate::output::from_outputs;
use crate::places::Places;
use crate::state::State;
use crate::words::Words;
use std::alloc::{AllocError, Global};
use tup_flags::{FlagParts, Place};
use tup_lex::ParseKind;
use tup_macro::Bins;
use tup_path::{Path, Paths, Text};
use tup_query::{Env, Log, ReadEnd, Spot};
use tup_rule::{Draft, GroupRef, Pieces};

/// The state with commands one after another.
pub(crate) fn with_jobs<E: Env>(
    alloc: Global,
    env: &mut E,
    log: &mut Log,
    at: &Spot,
    words: &Words,
    sources: &Sources,
    state: State,
    jobs: &[Job],
) -> Result<State, ReadEnd>
    requires { is_some (E.stopped env.old) ≡ false }
    ensures { Went E.tells (asker (E.answers env.old) (E.stopped env.old) (E.asked env.old) log.old)
        (specs.with_jobs at.now words.now sources.now state jobs.now)
        (asker (E.answers env.new) (E.stopped env.new) (E.asked env.new) log.new) result }
{
    let mut reached = state;
    for job in jobs {
        reached = with_job(alloc, env, log, at, words, sources, reached, job)?;
    }
    Ok(reached)
}

/// The state with one command: its outputs, its extra outputs, its text, what is shown.
fn with_job<E: Env>(
    alloc: Global,
    env: &mut E,
    log: &mut Log,
    at: &Spot,
    words: &Words,
    sources: &Sources,
    state: State,
    job: &Job,
) -> Result<State, ReadEnd>
    requires { is_some (E.stopped env.old) ≡ false }
    ensures { Went E.tells (asker (E.answers env.old) (E.stopped env.old) (E.asked env.old) log.old)
        (specs.with_job at.now words.now sources.now state job.now)
        (asker (E.answers env.new) (E.stopped env.new) (E.asked env.new) log.new) result }
{
    let draft = drafted(alloc, env, log, at, words, sources, &state.drafts, job)?;
    Ok(with_draft(alloc, state, &words.bin, draft)?)
}

/// A command as a draft.
fn drafted<E: Env>(
    alloc: Global,
    env: &mut E,
    log: &mut Log,
    at: &Spot,
    words: &Words,
    sources: &Sources,
    drafts: &Made,
    job: &Job,
) -> Result<Draft, ReadEnd>
    requires { is_some (E.stopped env.old) ≡ false }
    ensures { Went E.tells (asker (E.answers env.old) (E.stopped env.old) (E.asked env.old) log.old)
        (specs.drafted at.now words.now sources.now drafts.now job.now)
        (asker (E.answers env.new) (E.stopped env.new) (E.asked env.new) log.new) result }
{
    let parts = flag_parts(alloc, at, words.foreach, sources, job)?;
    with_outputs(alloc, env, log, at, words, &sources.gives, drafts, parts)
}

/// A command as a draft, by what its flags stand for before it has outputs.
fn with_outputs<E: Env>(
    alloc: Global,
    env: &mut E,
    log: &mut Log,
    at: &Spot,
    words: &Words,
    group: &Option<GroupRef>,
    drafts: &Made,
    parts: FlagParts,
) -> Result<Draft, ReadEnd>
    requires { is_some (E.stopped env.old) ≡ false }
    ensures { Went E.tells (asker (E.answers env.old) (E.stopped env.old) (E.asked env.old) log.old)
        (specs.with_outputs at.now words.now group.now drafts.now parts)
        (asker (E.answers env.new) (E.stopped env.new) (E.asked env.new) log.new) result }
{
    let none = Places::new(alloc);
    let named = words.outputs.as_slice();
    let plain = from_outputs(alloc, env, log, at, &parts, drafts, none, named)?;
    let parts = in_extra(parts, plain.into_paths());
    with_extra(alloc, env, log, at, words, group, drafts, parts)
}

/// A command as a draft, by what its flags stand for among its extra outputs.
fn with_extra<E: Env>(
    alloc: Global,
    env: &mut E,
    log: &mut Log,
    at: &Spot,
    words: &Words,
    group: &Option<GroupRef>,
    drafts: &Made,
    parts: FlagParts,
) -> Result<Draft, ReadEnd>
    requires { is_some (E.stopped env.old) ≡ false }
    ensures { Went E.tells (asker (E.answers env.old) (E.stopped env.old) (E.asked env.old) log.old)
        (specs.with_extra at.now words.now group.now drafts.now parts)
        (asker (E.answers env.new) (E.stopped env.new) (E.asked env.new) log.new) result }
{
    let plain = Places::of(alloc, &parts.outputs)?;
    let named = words.extra.as_slice();
    let all = from_outputs(alloc, env, log, at, &parts, drafts, plain, named)?;
    with_text(alloc, at, words, group, in_command(parts), all.into_paths())
}

/// A command as a draft, by what its flags stand for in its text, and all its outputs.
fn with_text(
    alloc: Global,
    at: &Spot,
    words: &Words,
    group: &Option<GroupRef>,
    parts: FlagParts,
    outputs: Paths,
) -> Result<Draft, ReadEnd>
    ensures { Gives (specs.with_text at.now words.now group.now parts outputs) result }
{
    let said = spoken(alloc, at, &parts, words.command.as_str())?;
    Ok(draft_of(at, group, parts, outputs, said)?)
}

/// What flags stand for in a command before it has outputs.
fn flag_parts(
    alloc: Global,
    at: &Spot,
    foreach: bool,
    sources: &Sources,
    job: &Job,
) -> Result<FlagParts, AllocError>
    ensures { IfOk result (λ parts.
        parts ≡ specs.flag_parts at.now foreach sources.now job.now) }
{
    Ok(FlagParts {
        dir: at.dir().clone()?,
        inputs: job.inputs.clone()?,
        order: sources.order.clone()?,
        outputs: Paths::new(alloc),
        foreach,
        glob: job.glob.clone()?,
        groups: sources.groups.clone()?,
        place: Place::Outputs,
    })
}

/// What they stand for among its extra outputs, behind its outputs.
fn in_extra(parts: FlagParts, outputs: Paths) -> FlagParts
    ensures { result ≡ specs.in_extra parts outputs }
{
    let mut parts = parts;
    parts.outputs = outputs;
    parts.place = Place::Extra;
    parts
}

/// What they stand for in its text.
fn in_command(parts: FlagParts) -> FlagParts
    ensures { result ≡ specs.in_command parts }
{
    let mut parts = parts;
    parts.place = Place::Command;
    parts
}

/// What a command says, and what is shown in its place.
fn spoken(alloc: Global, at: &Spot, parts: &FlagParts, text: &str) -> Result<Spoken, ReadEnd>
    ensures { Gives (specs.spoken at.now parts.now text.now) result }
{
    let command = with_carets(alloc, at, text)?;
    let pieces = flagged(alloc, at, parts, &command.text)?;
    let display = shown(alloc, at, parts, &command.display)?;
    Ok(Spoken {
        pieces,
        display,
        compare: command.compare,
    })
}

/// The command of a rule behind its carets.
fn with_carets(alloc: Global, at: &Spot, text: &str) -> Result<Command, ReadEnd>
    ensures { Gives (specs.with_carets at.now text.now) result }
{
    let found = command_of(alloc, text)?;
    match found {
        Some(command) => Ok(command),
        None => Err(at.refuse(ParseKind::BadCaret)),
    }
}

/// What is shown in a command's place, with its flags put in.
fn shown(
    alloc: Global,
    at: &Spot,
    parts: &FlagParts,
    text: &Option<Text>,
) -> Result<Option<Pieces>, ReadEnd>
    ensures { Gives (specs.shown at.now parts.now text.now) result }
{
    match text {
        Some(text) => {
            let pieces = flagged(alloc, at, parts, text)?;
            Ok(Some(pieces))
        }
        None => Ok(None),
    }
}

/// A command as a draft, by what its flags stand for, its outputs and what it says.
fn draft_of(
    at: &Spot,
    group: &Option<GroupRef>,
    parts: FlagParts,
    outputs: Paths,
    said: Spoken,
) -> Result<Draft, AllocError>
    ensures { IfOk result (λ draft.
        draft ≡ specs.draft_of at.now group.now parts outputs said) }
{
    let file = at.file().clone()?;
    let gives = group.clone()?;
    Ok(draft_in(file, at.line(), gives, parts, outputs, said))
}

/// The same by the file and the line in which its rule stands.
fn draft_in(
    file: Path,
    line: u32,
    gives: Option<GroupRef>,
    parts: FlagParts,
    outputs: Paths,
    said: Spoken,
) -> Draft
    ensures { result ≡ specs.draft_in file line gives parts outputs said }
{
    Draft {
        file,
        line,
        pieces: said.pieces,
        display: said.display,
        compare: said.compare,
        inputs: parts.inputs,
        order: parts.order,
        outputs,
        groups: parts.groups,
        gives,
    }
}

/// The state with one more rule, whose outputs go to its bin.
fn with_draft(
    alloc: Global,
    state: State,
    bin: &Option<Text>,
    draft: Draft,
) -> Result<State, AllocError>
    ensures { IfOk result (λ next. next ≡ specs.with_draft state bin.now draft) }
{
    let mut state = state;
    give(&mut state.bins, bin, draft.outputs.as_slice())?;
    with_made(alloc, state, draft)
}

/// The state with one more rule.
fn with_made(alloc: Global, state: State, draft: Draft) -> Result<State, AllocError>
    ensures { IfOk result (λ next. next ≡ specs.with_made state draft) }
{
    let State {
        variables,
        macros,
        bins,
        drafts,
    } = state;
    let drafts = drafts.with(alloc, draft)?;
    Ok(State {
        variables,
        macros,
        bins,
        drafts,
    })
}

/// Gives paths to a bin, if there is one.
fn give(bins: &mut Bins, bin: &Option<Text>, paths: &[Path]) -> Result<(), AllocError>
    ensures { OnOk result (bins.new ≡ specs.with_gifts bins.old bin.now paths.now) }
{
    match bin {
        Some(name) => add_gifts(bins, name, paths),
        None => Ok(()),
    }
}

/// Gives paths to a bin.
fn add_gifts(bins: &mut Bins, name: &Text, paths: &[Path]) -> Result<(), AllocError>
    ensures { OnOk result (bins.new
        ≡ fold (λ all path. with_gift bytes_eq all name.now path) bins.old paths.now) }
{
    for path in paths {
        add_gift(bins, name, path)?;
    }
    Ok(())
}

/// Gives a path to a bin.
fn add_gift(bins: &mut Bins, name: &Text, path: &Path) -> Result<(), AllocError>
    ensures { OnOk result (bins.new ≡ with_gift bytes_eq bins.old name.now path.now) }
{
    match bins.add(name, path) {
        Ok(()) => Ok(()),
        Err(_) => Err(AllocError),
    }
}
