//! Questions, each asked once.
ghost use Rattle.std.specs.Prelude.{◌≡◌, false, is_some};
ghost use Rattle.tup_query.specs.Ask as specs;
ghost use Rattle.tup_query.specs.Went.{Went, asker};

use crate::env::Env;
use crate::fault::ReadEnd;
use crate::key::Key;
use crate::log::Log;
use std::alloc::Global;
use tup_path::{Bytes, Path, Text, Texts};
use tup_rule::{Kind, Question, Told};

/// Asks a question, unless the log has it; then what was told before is the answer.
fn ask<E: Env>(
    alloc: Global,
    env: &mut E,
    log: &mut Log,
    question: Question,
) -> Result<Told, ReadEnd>
    requires { is_some (E.stopped env.old) ≡ false }
    ensures { Went E.tells (asker (E.answers env.old) (E.stopped env.old) (E.asked env.old) log.old)
        (specs.asks question)
        (asker (E.answers env.new) (E.stopped env.new) (E.asked env.new) log.new) result }
{
    let key = Key { question };
    if let Some(told) = log.answer_to(&key) {
        return Ok(told.clone()?);
    }
    let told = env.answer(alloc, &key.question)?;
    log.add(key, told.clone()?)?;
    Ok(told)
}

/// What the source file at a path holds, in bytes; `None` where there is none.
///
/// `Stopped` comes just where who answers has stopped in this call.
pub fn content_at<E: Env>(
    alloc: Global,
    env: &mut E,
    log: &mut Log,
    path: &Path,
) -> Result<Option<Bytes>, ReadEnd>
    requires { is_some (E.stopped env.old) ≡ false }
    ensures { Went E.tells (asker (E.answers env.old) (E.stopped env.old) (E.asked env.old) log.old)
        (specs.content_at path.now)
        (asker (E.answers env.new) (E.stopped env.new) (E.asked env.new) log.new) result }
{
    let question = Question::Content(path.clone()?);
    let told = ask(alloc, env, log, question)?;
    Ok(content_in(told))
}

/// What tup.config sets a name to; `None` where it doesn't.
///
/// `Stopped` comes just where who answers has stopped in this call.
pub fn setting_of<E: Env>(
    alloc: Global,
    env: &mut E,
    log: &mut Log,
    name: &Text,
) -> Result<Option<Text>, ReadEnd>
    requires { is_some (E.stopped env.old) ≡ false }
    ensures { Went E.tells (asker (E.answers env.old) (E.stopped env.old) (E.asked env.old) log.old)
        (specs.setting_of name.now)
        (asker (E.answers env.new) (E.stopped env.new) (E.asked env.new) log.new) result }
{
    let question = Question::Config(name.clone()?);
    let told = ask(alloc, env, log, question)?;
    Ok(setting_in(told))
}

/// The names of the files right below a folder, as they are told.
///
/// `Stopped` comes just where who answers has stopped in this call.
pub fn names_at<E: Env>(
    alloc: Global,
    env: &mut E,
    log: &mut Log,
    dir: &Path,
) -> Result<Texts, ReadEnd>
    requires { is_some (E.stopped env.old) ≡ false }
    ensures { Went E.tells (asker (E.answers env.old) (E.stopped env.old) (E.asked env.old) log.old)
        (specs.names_at dir.now)
        (asker (E.answers env.new) (E.stopped env.new) (E.asked env.new) log.new) result }
{
    let question = Question::Names(dir.clone()?);
    let told = ask(alloc, env, log, question)?;
    Ok(names_in(alloc, told))
}

/// What stands at a path: a file, a folder, or nothing.
///
/// `Stopped` comes just where who answers has stopped in this call.
pub fn kind_at<E: Env>(
    alloc: Global,
    env: &mut E,
    log: &mut Log,
    path: &Path,
) -> Result<Kind, ReadEnd>
    requires { is_some (E.stopped env.old) ≡ false }
    ensures { Went E.tells (asker (E.answers env.old) (E.stopped env.old) (E.asked env.old) log.old)
        (specs.kind_at path.now)
        (asker (E.answers env.new) (E.stopped env.new) (E.asked env.new) log.new) result }
{
    let question = Question::Kind(path.clone()?);
    let told = ask(alloc, env, log, question)?;
    Ok(kind_in(&told))
}

/// The content in an answer about a file.
fn content_in(told: Told) -> Option<Bytes>
    ensures { result ≡ specs.content_in told }
{
    match told {
        Told::Content(content) => content,
        _ => None,
    }
}

/// The value in an answer about a setting.
fn setting_in(told: Told) -> Option<Text>
    ensures { result ≡ specs.setting_in told }
{
    match told {
        Told::Config(value) => value,
        _ => None,
    }
}

/// The names in an answer about a folder.
fn names_in(alloc: Global, told: Told) -> Texts
    ensures { result ≡ specs.names_in told }
{
    match told {
        Told::Names(names) => names,
        _ => Texts::new(alloc),
    }
}

/// The kind in an answer about what stands at a path.
fn kind_in(told: &Told) -> Kind
    ensures { result ≡ specs.kind_in told.now }
{
    match told {
        Told::Kind(kind) => *kind,
        _ => Kind::Nothing,
    }
}
