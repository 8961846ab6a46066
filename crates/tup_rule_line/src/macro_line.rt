//! Macro lines.
ghost use Rattle.std.specs.Prelude.{◌≡◌, ◌<◌, ◌^◌, false, Ok, Err, MatchResult, length, is_some};
ghost use Rattle.std.specs.List.{list_any};
ghost use Rattle.tup_rule_line.specs.MacroLine as specs;
ghost use Rattle.tup_query.specs.Went.{Went, asker, Gives};

use crate::folder::{bin_name, is_group};
use crate::state::State;
use crate::words::{Words, cut};
use std::alloc::{AllocError, Global};
use tup_lex::{ParseKind, trimmed};
use tup_macro::{Macro, MacroFault, Macros};
use tup_path::Text;
use tup_query::{Env, Log, ReadEnd, Spot, expanded};
use tup_vars::{Vars, is_name};

/// The state with a macro line, by what stands before its first `=` and behind it.
///
/// `Fault` names a bad name, what can't be cut, a macro with inputs, a group or a bin, or one that is
/// defined already; `Stopped` comes just where who answers has stopped in this call.
pub fn defined<E: Env>(
    alloc: Global,
    env: &mut E,
    log: &mut Log,
    at: &Spot,
    state: State,
    left: &str,
    right: &str,
) -> Result<State, ReadEnd>
    requires { is_some (E.stopped env.old) ≡ false }
    ensures { Went E.tells (asker (E.answers env.old) (E.stopped env.old) (E.asked env.old) log.old)
        (specs.defined at.now state left.now right.now)
        (asker (E.answers env.new) (E.stopped env.new) (E.asked env.new) log.new) result }
{
    let name = trimmed(left);
    let body = body_in(alloc, env, log, at, &state.variables, name, right)?;
    with_body(alloc, at, state, name, body)
}

/// The macro of a name, by what stands behind its `=`.
fn body_in<E: Env>(
    alloc: Global,
    env: &mut E,
    log: &mut Log,
    at: &Spot,
    variables: &Vars,
    name: &str,
    right: &str,
) -> Result<Macro, ReadEnd>
    requires { is_some (E.stopped env.old) ≡ false }
    ensures { Went E.tells (asker (E.answers env.old) (E.stopped env.old) (E.asked env.old) log.old)
        (specs.body_in at.now variables.now name.now right.now)
        (asker (E.answers env.new) (E.stopped env.new) (E.asked env.new) log.new) result }
{
    let text = expanded(alloc, env, log, at, variables, right)?;
    named_body(alloc, at, name, &text)
}

/// The same once its variables are put in.
fn named_body(alloc: Global, at: &Spot, name: &str, text: &Text) -> Result<Macro, ReadEnd>
    requires { length text.now < 2 ^ 32 }
    ensures { Gives (specs.named_body at.now name.now text.now) result }
{
    if !is_name(name) {
        return Err(at.refuse(ParseKind::BadName));
    }
    let words = cut(alloc, at, text)?;
    only_body(at, words)
}

/// The macro that words are, unless they have what no macro has.
fn only_body(at: &Spot, words: Words) -> Result<Macro, ReadEnd>
    ensures { Gives (specs.only_body at.now words) result }
{
    if !is_body(&words) {
        return Err(at.refuse(ParseKind::BadBrace));
    }
    Ok(body_of(words))
}

/// The state with one more macro.
fn with_body(
    alloc: Global,
    at: &Spot,
    state: State,
    name: &str,
    body: Macro,
) -> Result<State, ReadEnd>
    ensures { Gives (specs.with_body at.now state name.now body) result }
{
    let mut state = state;
    define(alloc, at, &mut state.macros, name, body)?;
    Ok(state)
}

/// Adds a macro, unless its name has one.
fn define(
    alloc: Global,
    at: &Spot,
    macros: &mut Macros,
    name: &str,
    body: Macro,
) -> Result<(), ReadEnd>
    ensures { MatchResult result
        (λ _. Gives (specs.one_more at.now macros.old name.now body) (Ok macros.new))
        (λ end. Gives (specs.one_more at.now macros.old name.now body) (Err end)) }
{
    let name = Text::from_str(alloc, name)?;
    match macros.define(&name, body) {
        Ok(()) => Ok(()),
        Err(MacroFault::DefinedTwice) => Err(at.refuse(ParseKind::DefinedTwice)),
        Err(_) => Err(ReadEnd::Memory),
    }
}

/// Whether words are those of a macro.
fn is_body(words: &Words) -> bool
    ensures { result ≡ specs.is_body words.now }
{
    !words.foreach
        && words.inputs.len() == 0
        && !has_gift(words.order.as_slice())
        && words.group.is_none()
        && words.bin.is_none()
}

/// Whether one of words is a bin or a group.
fn has_gift(words: &[Text]) -> bool
    ensures { result ≡ list_any specs.is_gift words.now }
{
    words.iter().any(|word| is_gift(word.as_str()))
}

/// Whether a word is a bin or a group.
fn is_gift(word: &str) -> bool
    ensures { result ≡ specs.is_gift word.now }
{
    bin_name(word).is_some() || is_group(word)
}

/// What a macro says.
fn body_of(words: Words) -> Macro
    ensures { result ≡ specs.body_of words }
{
    Macro {
        order: words.order,
        command: words.command,
        outputs: words.outputs,
        extra: words.extra,
    }
}
