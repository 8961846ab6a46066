//! The reading of a folder's Tupfile, line by line.
ghost use Rattle.std.specs.Prelude.{◌≡◌, false, is_some};
ghost use Rattle.tup_tupfile.specs.Reading as specs;
ghost use Rattle.tup_tupfile.specs.Kind as kind;
ghost use Rattle.tup_query.specs.Went.{Went, asker};

use crate::file::{Held, below, ended, held_in, included_file, lines_of};
use crate::kind::{LineKind, kind_of};
use crate::opening::{Along, comparing, left, looking, turned};
use crate::setting::assigned;
use std::alloc::Global;
use tup_lex::ParseKind;
use tup_path::{Bytes, Path};
use tup_query::{Env, Log, ReadEnd, Spot, expanded};
use tup_rule::Drafts;
use tup_rule_line::{State, defined, ruled};
use tup_vars::{Branches, Vars};

/// How many files more may be open beside the Tupfile.
const ROOM: u32 = 63;

/// The drafts of a folder's Tupfile; a folder without one has no rules.
pub(crate) fn drafts_of<E: Env>(
    alloc: Global,
    env: &mut E,
    log: &mut Log,
    dir: &Path,
) -> Result<Drafts, ReadEnd>
    requires { is_some (E.stopped env.old) ≡ false }
    ensures { Went E.tells (asker (E.answers env.old) (E.stopped env.old) (E.asked env.old) log.old)
        (specs.reading dir.now)
        (asker (E.answers env.new) (E.stopped env.new) (E.asked env.new) log.new) result }
{
    let found = held_in(alloc, env, log, dir, "Tupfile")?;
    match found {
        Some(held) => drafts_in(alloc, env, log, dir, &held),
        None => Ok(Drafts::new(alloc)),
    }
}

/// The drafts of a Tupfile that was found.
fn drafts_in<E: Env>(
    alloc: Global,
    env: &mut E,
    log: &mut Log,
    dir: &Path,
    held: &Held,
) -> Result<Drafts, ReadEnd>
    requires { is_some (E.stopped env.old) ≡ false }
    ensures { Went E.tells (asker (E.answers env.old) (E.stopped env.old) (E.asked env.old) log.old)
        (specs.drafts_in dir.now held.now)
        (asker (E.answers env.new) (E.stopped env.new) (E.asked env.new) log.new) result }
{
    let state = State::new(alloc)?;
    let state = with_file(alloc, env, log, ROOM, dir, &held.path, state, &held.content)?;
    Ok(state.drafts.into_drafts())
}

/// A file that is read for a folder, where so many more may be open.
#[cycle(reading)]
fn with_file<E: Env>(
    alloc: Global,
    env: &mut E,
    log: &mut Log,
    room: u32,
    dir: &Path,
    file: &Path,
    state: State,
    content: &Bytes,
) -> Result<State, ReadEnd>
    requires { is_some (E.stopped env.old) ≡ false }
    ensures { Went E.tells (asker (E.answers env.old) (E.stopped env.old) (E.asked env.old) log.old)
        (specs.with_room room dir.now file.now state content.now)
        (asker (E.answers env.new) (E.stopped env.new) (E.asked env.new) log.new) result }
{
    let lines = lines_of(alloc, dir, file, content)?;
    let mut along = Along {
        levels: Branches::new(alloc),
        state,
    };
    for line in lines.as_slice() {
        let at = Spot::new(dir, file, line.number);
        along = with_line(alloc, env, log, room, &at, along, line.text.as_str())?;
    }
    ended(dir, file, along)
}

/// One line, where so many more files may be open.
#[cycle(reading)]
fn with_line<E: Env>(
    alloc: Global,
    env: &mut E,
    log: &mut Log,
    room: u32,
    at: &Spot,
    before: Along,
    line: &str,
) -> Result<Along, ReadEnd>
    requires { is_some (E.stopped env.old) ≡ false }
    ensures { Went E.tells (asker (E.answers env.old) (E.stopped env.old) (E.asked env.old) log.old)
        (specs.with_kind (specs.opener_of room at.now.dir) at.now before (kind.kind_of line.now))
        (asker (E.answers env.new) (E.stopped env.new) (E.asked env.new) log.new) result }
{
    match kind_of(line) {
        LineKind::Compares(alike, text) => comparing(alloc, env, log, at, before, alike, text),
        LineKind::Looks(wanted, name) => looking(alloc, env, log, at, before, wanted, name),
        LineKind::Else => turned(at, before),
        LineKind::Endif => left(at, before),
        other => plain_line(alloc, env, log, room, at, before, other),
    }
}

/// A line that is no conditional: unread where the lines around it are off.
#[cycle(reading)]
fn plain_line<E: Env>(
    alloc: Global,
    env: &mut E,
    log: &mut Log,
    room: u32,
    at: &Spot,
    before: Along,
    line: LineKind,
) -> Result<Along, ReadEnd>
    requires { is_some (E.stopped env.old) ≡ false }
    ensures { Went E.tells (asker (E.answers env.old) (E.stopped env.old) (E.asked env.old) log.old)
        (specs.plain_line (specs.opener_of room at.now.dir) at.now before
        (kind.in_bytes line.entry))
        (asker (E.answers env.new) (E.stopped env.new) (E.asked env.new) log.new) result }
{
    if !before.levels.on() {
        return Ok(before);
    }
    let Along { levels, state } = before;
    let state = stated(alloc, env, log, room, at, state, line)?;
    Ok(Along { levels, state })
}

/// A line where the conditionals are on, but no conditional itself.
#[cycle(reading)]
fn stated<E: Env>(
    alloc: Global,
    env: &mut E,
    log: &mut Log,
    room: u32,
    at: &Spot,
    state: State,
    line: LineKind,
) -> Result<State, ReadEnd>
    requires { is_some (E.stopped env.old) ≡ false }
    ensures { Went E.tells (asker (E.answers env.old) (E.stopped env.old) (E.asked env.old) log.old)
        (specs.stated (specs.opener_of room at.now.dir) at.now state (kind.in_bytes line.entry))
        (asker (E.answers env.new) (E.stopped env.new) (E.asked env.new) log.new) result }
{
    match line {
        LineKind::Complains(text) => complained(alloc, env, log, at, &state.variables, text),
        LineKind::IncludesRules => ruled_down(alloc, env, log, room, at, state),
        LineKind::Includes(text) => included(alloc, env, log, room, at, state, text),
        LineKind::Rules(text) => ruled(alloc, env, log, at, state, text),
        LineKind::Defines(name, body) => defined(alloc, env, log, at, state, name, body),
        LineKind::Sets(name, value) => assigned(alloc, env, log, at, state, name, value),
        _ => Err(at.refuse(ParseKind::UnknownLine)),
    }
}

/// What a user says is wrong.
fn complained<E: Env>(
    alloc: Global,
    env: &mut E,
    log: &mut Log,
    at: &Spot,
    variables: &Vars,
    text: &str,
) -> Result<State, ReadEnd>
    requires { is_some (E.stopped env.old) ≡ false }
    ensures { Went E.tells (asker (E.answers env.old) (E.stopped env.old) (E.asked env.old) log.old)
        (specs.complained at.now variables.now text.now)
        (asker (E.answers env.new) (E.stopped env.new) (E.asked env.new) log.new) result }
{
    let said = expanded(alloc, env, log, at, variables, text)?;
    Err(at.refuse(ParseKind::UserError(said)))
}

/// `include`.
#[cycle(reading)]
fn included<E: Env>(
    alloc: Global,
    env: &mut E,
    log: &mut Log,
    room: u32,
    at: &Spot,
    state: State,
    text: &str,
) -> Result<State, ReadEnd>
    requires { is_some (E.stopped env.old) ≡ false }
    ensures { Went E.tells (asker (E.answers env.old) (E.stopped env.old) (E.asked env.old) log.old)
        (specs.included (specs.opener_of room at.now.dir) at.now state text.now)
        (asker (E.answers env.new) (E.stopped env.new) (E.asked env.new) log.new) result }
{
    let held = included_file(alloc, env, log, at, &state.variables, text)?;
    opened(alloc, env, log, room, at, state, &held)
}

/// `include_rules`: `Tuprules.tup` in each folder from the top down to the one that is read, where
/// there is one.
#[cycle(reading)]
fn ruled_down<E: Env>(
    alloc: Global,
    env: &mut E,
    log: &mut Log,
    room: u32,
    at: &Spot,
    state: State,
) -> Result<State, ReadEnd>
    requires { is_some (E.stopped env.old) ≡ false }
    ensures { Went E.tells (asker (E.answers env.old) (E.stopped env.old) (E.asked env.old) log.old)
        (specs.ruled_down (specs.opener_of room at.now.dir) at.now state)
        (asker (E.answers env.new) (E.stopped env.new) (E.asked env.new) log.new) result }
{
    let mut folder = Path::top(alloc);
    let mut reached = ruled_by(alloc, env, log, room, at, state, &folder)?;
    for name in at.dir().names() {
        folder = below(alloc, &folder, name)?;
        reached = ruled_by(alloc, env, log, room, at, reached, &folder)?;
    }
    Ok(reached)
}

/// `Tuprules.tup` in a folder, where there is one.
#[cycle(reading)]
fn ruled_by<E: Env>(
    alloc: Global,
    env: &mut E,
    log: &mut Log,
    room: u32,
    at: &Spot,
    state: State,
    folder: &Path,
) -> Result<State, ReadEnd>
    requires { is_some (E.stopped env.old) ≡ false }
    ensures { Went E.tells (asker (E.answers env.old) (E.stopped env.old) (E.asked env.old) log.old)
        (specs.ruled_by (specs.opener_of room at.now.dir) at.now state folder.now)
        (asker (E.answers env.new) (E.stopped env.new) (E.asked env.new) log.new) result }
{
    let found = held_in(alloc, env, log, folder, "Tuprules.tup")?;
    match found {
        Some(held) => opened(alloc, env, log, room, at, state, &held),
        None => Ok(state),
    }
}

/// A file that is included: it has to find room.
#[cycle(reading)]
fn opened<E: Env>(
    alloc: Global,
    env: &mut E,
    log: &mut Log,
    room: u32,
    at: &Spot,
    state: State,
    held: &Held,
) -> Result<State, ReadEnd>
    requires { is_some (E.stopped env.old) ≡ false }
    ensures { Went E.tells (asker (E.answers env.old) (E.stopped env.old) (E.asked env.old) log.old)
        (specs.opened (specs.opener_of room at.now.dir) at.now state held.now)
        (asker (E.answers env.new) (E.stopped env.new) (E.asked env.new) log.new) result }
{
    if room == 0 {
        return Err(at.refuse(ParseKind::TooDeep));
    }
    with_file(
        alloc,
        env,
        log,
        room - 1,
        at.dir(),
        &held.path,
        state,
        &held.content,
    )
}
