//! The files that a reading opens.
ghost use Rattle.std.specs.Prelude.{◌≡◌, ◌++◌, ◌∷◌, [], false, IfOk, option_map, is_some};
ghost use Rattle.tup_rule_line.specs.Folder.{file_in};
ghost use Rattle.tup_tupfile.specs.File as specs;
ghost use Rattle.tup_query.specs.Went.{Went, asker, Gives};

use crate::opening::Along;
use std::alloc::{AllocError, Global};
use tup_lex::{LexFault, Lines, ParseKind, lines};
use tup_path::{Bytes, Path, Text};
use tup_query::{Env, Log, ReadEnd, Spot, content_at, expanded};
use tup_rule_line::{State, file_in, led, lex_end};
use tup_vars::{VarFault, Vars};

/// A source file: its path, and its content.
#[derive(Drop)]
pub(crate) struct Held {
    pub(crate) path: Path,
    pub(crate) content: Bytes,
}

/// The source file at a path, if there is one.
fn held_at<E: Env>(
    alloc: Global,
    env: &mut E,
    log: &mut Log,
    path: Path,
) -> Result<Option<Held>, ReadEnd>
    requires { is_some (E.stopped env.old) ≡ false }
    ensures { Went E.tells (asker (E.answers env.old) (E.stopped env.old) (E.asked env.old) log.old)
        (specs.held_at path)
        (asker (E.answers env.new) (E.stopped env.new) (E.asked env.new) log.new) result }
{
    let content = content_at(alloc, env, log, &path)?;
    Ok(holding(path, content))
}

/// A path with the content that stands there.
fn holding(path: Path, content: Option<Bytes>) -> Option<Held>
    ensures { result ≡ option_map (specs.held path) content }
{
    match content {
        Some(content) => Some(Held { path, content }),
        None => None,
    }
}

/// The source file of a name in a folder, if there is one.
pub(crate) fn held_in<E: Env>(
    alloc: Global,
    env: &mut E,
    log: &mut Log,
    dir: &Path,
    name: &str,
) -> Result<Option<Held>, ReadEnd>
    requires { is_some (E.stopped env.old) ≡ false }
    ensures { Went E.tells (asker (E.answers env.old) (E.stopped env.old) (E.asked env.old) log.old)
        (specs.held_in dir.now name.now)
        (asker (E.answers env.new) (E.stopped env.new) (E.asked env.new) log.new) result }
{
    let path = named_in(alloc, dir, name)?;
    match path {
        Some(path) => held_at(alloc, env, log, path),
        None => Ok(None),
    }
}

/// The path of a file of a name in a folder, unless it has more names than a path may have.
fn named_in(alloc: Global, dir: &Path, name: &str) -> Result<Option<Path>, AllocError>
    ensures { IfOk result (λ path. path ≡ file_in dir.now name.now) }
{
    let name = Text::from_str(alloc, name)?;
    file_in(alloc, dir, &name)
}

/// The file that an `include` names, from the folder of the file in which it stands.
pub(crate) fn included_file<E: Env>(
    alloc: Global,
    env: &mut E,
    log: &mut Log,
    at: &Spot,
    variables: &Vars,
    text: &str,
) -> Result<Held, ReadEnd>
    requires { is_some (E.stopped env.old) ≡ false }
    ensures { Went E.tells (asker (E.answers env.old) (E.stopped env.old) (E.asked env.old) log.old)
        (specs.included_file at.now variables.now text.now)
        (asker (E.answers env.new) (E.stopped env.new) (E.asked env.new) log.new) result }
{
    let name = expanded(alloc, env, log, at, variables, text)?;
    let path = included_path(alloc, at, &name)?;
    named_file(alloc, env, log, at, path)
}

/// Where the name of an `include` leads.
fn included_path(alloc: Global, at: &Spot, name: &Text) -> Result<Path, ReadEnd>
    ensures { Gives (specs.included_path at.now name.now) result }
{
    let folder = at.folder(alloc)?;
    led(alloc, at, ParseKind::IncludeMissing, &folder, name)
}

/// A file that is named in a line: it has to be there.
fn named_file<E: Env>(
    alloc: Global,
    env: &mut E,
    log: &mut Log,
    at: &Spot,
    path: Path,
) -> Result<Held, ReadEnd>
    requires { is_some (E.stopped env.old) ≡ false }
    ensures { Went E.tells (asker (E.answers env.old) (E.stopped env.old) (E.asked env.old) log.old)
        (specs.named_file at.now path)
        (asker (E.answers env.new) (E.stopped env.new) (E.asked env.new) log.new) result }
{
    let found = held_at(alloc, env, log, path)?;
    match found {
        Some(held) => Ok(held),
        None => Err(at.refuse(ParseKind::IncludeMissing)),
    }
}

/// The path of what stands in a folder under a name that a path may have.
pub(crate) fn below(alloc: Global, dir: &Path, name: &Text) -> Result<Path, AllocError>
    ensures { IfOk result (λ path. path ≡ dir.now ++ name.now ∷ []) }
{
    match dir.join(alloc, name) {
        Ok(path) => Ok(path),
        Err(_) => Err(AllocError),
    }
}

/// The line in which a text can't be cut into lines.
fn fault_line(fault: &LexFault) -> u32
    ensures { result ≡ specs.fault_line fault.now }
{
    match fault {
        LexFault::NotUtf8 { line } => *line,
        LexFault::LineTooLong { line } => *line,
        _ => 1,
    }
}

/// The lines of a file.
pub(crate) fn lines_of(
    alloc: Global,
    dir: &Path,
    file: &Path,
    content: &Bytes,
) -> Result<Lines, ReadEnd>
    ensures { Gives (specs.lines_of dir.now file.now content.now) result }
{
    match lines(alloc, content) {
        Ok(all) => Ok(all),
        Err(fault) => Err(lex_end(&Spot::new(dir, file, fault_line(&fault)), &fault)),
    }
}

/// The end of a file: no conditional may be left open.
pub(crate) fn ended(dir: &Path, file: &Path, along: Along) -> Result<State, ReadEnd>
    ensures { Gives (specs.ended dir.now file.now along) result }
{
    match along.levels.end() {
        Ok(()) => Ok(along.state),
        Err(VarFault::MissingEndif { line }) => {
            let at = Spot::new(dir, file, line);
            Err(at.refuse(ParseKind::MissingEndif))
        }
        Err(_) => Err(ReadEnd::Memory),
    }
}
