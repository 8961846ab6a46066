//! What conditionals test.
ghost use Rattle.std.specs.Prelude.{◌≡◌, false, option_map, is_some};
ghost use Rattle.tup_tupfile.specs.Conditional as specs;
ghost use Rattle.tup_query.specs.Went.{Went, asker};

use std::alloc::Global;
use tup_lex::ParseKind;
use tup_path::Text;
use tup_query::{Env, Log, ReadEnd, Spot, expanded, setting_of};
use tup_rule_line::before_last;
use tup_vars::{Vars, is_name};

/// Whether the two sides of `(LEFT,RIGHT)` stand for the same, or for different texts where that is
/// wanted.
pub(crate) fn compares<E: Env>(
    alloc: Global,
    env: &mut E,
    log: &mut Log,
    at: &Spot,
    variables: &Vars,
    alike: bool,
    text: &str,
) -> Result<bool, ReadEnd>
    requires { is_some (E.stopped env.old) ≡ false }
    ensures { Went E.tells (asker (E.answers env.old) (E.stopped env.old) (E.asked env.old) log.old)
        (specs.compares at.now variables.now alike text.now)
        (asker (E.answers env.new) (E.stopped env.new) (E.asked env.new) log.new) result }
{
    match sides(text) {
        Some((left, right)) => compared(alloc, env, log, at, variables, alike, left, right),
        None => Err(at.refuse(ParseKind::Unclosed)),
    }
}

/// Whether two texts stand for the same, or for different ones where that is wanted.
fn compared<E: Env>(
    alloc: Global,
    env: &mut E,
    log: &mut Log,
    at: &Spot,
    variables: &Vars,
    alike: bool,
    left: &str,
    right: &str,
) -> Result<bool, ReadEnd>
    requires { is_some (E.stopped env.old) ≡ false }
    ensures { Went E.tells (asker (E.answers env.old) (E.stopped env.old) (E.asked env.old) log.old)
        (specs.compared at.now variables.now alike left.now right.now)
        (asker (E.answers env.new) (E.stopped env.new) (E.asked env.new) log.new) result }
{
    let one = expanded(alloc, env, log, at, variables, left)?;
    let other = expanded(alloc, env, log, at, variables, right)?;
    Ok(agrees(alike, one == other))
}

/// Whether tup.config sets a name, or doesn't where that is wanted.
pub(crate) fn looked_up<E: Env>(
    alloc: Global,
    env: &mut E,
    log: &mut Log,
    at: &Spot,
    wanted: bool,
    name: &str,
) -> Result<bool, ReadEnd>
    requires { is_some (E.stopped env.old) ≡ false }
    ensures { Went E.tells (asker (E.answers env.old) (E.stopped env.old) (E.asked env.old) log.old)
        (specs.looked_up at.now wanted name.now)
        (asker (E.answers env.new) (E.stopped env.new) (E.asked env.new) log.new) result }
{
    if !is_name(name) {
        return Err(at.refuse(ParseKind::BadName));
    }
    let name = Text::from_str(alloc, name)?;
    let value = setting_of(alloc, env, log, &name)?;
    Ok(agrees(wanted, value.is_some()))
}

/// Whether what was found is what was wanted.
fn agrees(wanted: bool, found: bool) -> bool
    ensures { result ≡ specs.agrees wanted found }
{
    if wanted { found } else { !found }
}

/// The two sides of `(LEFT,RIGHT)`.
fn sides(text: &str) -> Option<(&str, &str)>
    ensures { option_map (λ cut. (cut.0.now, cut.1.now)) result ≡ specs.sides text.now }
{
    bracketed(text)?.split_once(',')
}

/// What stands in a bracket that begins and ends a text.
fn bracketed(text: &str) -> Option<&str>
    ensures { option_map (λ inside. inside.now) result ≡ specs.bracketed text.now }
{
    before_last(text.strip_prefix("(")?, ')')
}
