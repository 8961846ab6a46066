//! Assignments.
ghost use Rattle.std.specs.Prelude.{◌≡◌, ◌⊎◌, false, Ok, Err, MatchResult, is_some};
ghost use Rattle.tup_tupfile.specs.Setting as specs;
ghost use Rattle.tup_query.specs.Went.{Went, asker, Gives};

use std::alloc::Global;
use tup_lex::{ParseKind, trimmed};
use tup_path::Text;
use tup_query::{Env, Log, ReadEnd, Spot, expanded, var_end};
use tup_rule_line::{State, before_last};
use tup_vars::{VarFault, Vars, is_free};

/// An assignment, by what stands before its `=` and behind it.
pub(crate) fn assigned<E: Env>(
    alloc: Global,
    env: &mut E,
    log: &mut Log,
    at: &Spot,
    state: State,
    left: &str,
    right: &str,
) -> Result<State, ReadEnd>
    requires { is_some (E.stopped env.old) ≡ false }
    ensures { Went E.tells (asker (E.answers env.old) (E.stopped env.old) (E.asked env.old) log.old)
        (specs.assigned at.now state left.now right.now)
        (asker (E.answers env.new) (E.stopped env.new) (E.asked env.new) log.new) result }
{
    let name = set_name(left);
    let value = value_of(alloc, env, log, at, &state.variables, name, trimmed(right))?;
    with_value(alloc, at, state, name, goes_on(left), value)
}

/// What a text stands for that is set to a name; the name has to be one that may be set.
fn value_of<E: Env>(
    alloc: Global,
    env: &mut E,
    log: &mut Log,
    at: &Spot,
    variables: &Vars,
    name: &str,
    text: &str,
) -> Result<Text, ReadEnd>
    requires { is_some (E.stopped env.old) ≡ false }
    ensures { Went E.tells (asker (E.answers env.old) (E.stopped env.old) (E.asked env.old) log.old)
        (specs.value_of at.now variables.now name.now text.now)
        (asker (E.answers env.new) (E.stopped env.new) (E.asked env.new) log.new) result }
{
    if !is_free(name) {
        return Err(at.refuse(ParseKind::BadName));
    }
    expanded(alloc, env, log, at, variables, text)
}

/// The name before an `=`.
fn set_name(left: &str) -> &str
    ensures { result.now ≡ specs.set_name left.now }
{
    trimmed(unmarked(left))
}

/// A text without a `:` or a `+` at its end.
fn unmarked(left: &str) -> &str
    ensures { result.now ≡ specs.unmarked left.now }
{
    match before_last(left, ':') {
        Some(front) => front,
        None => match before_last(left, '+') {
            Some(front) => front,
            None => left,
        },
    }
}

/// Whether what is set goes on behind what was set before.
fn goes_on(left: &str) -> bool
    ensures { result ≡ specs.goes_on left.now }
{
    before_last(left, '+').is_some()
}

/// The state with a variable.
fn with_value(
    alloc: Global,
    at: &Spot,
    state: State,
    name: &str,
    more: bool,
    value: Text,
) -> Result<State, ReadEnd>
    ensures { Gives (specs.with_value at.now state name.now more value) result }
{
    let mut state = state;
    match put_value(alloc, &mut state.variables, name, more, value) {
        Ok(()) => Ok(state),
        Err(fault) => Err(var_end(at, fault)),
    }
}

/// Sets a variable, or adds to what it is set to.
fn put_value(
    alloc: Global,
    variables: &mut Vars,
    name: &str,
    more: bool,
    value: Text,
) -> Result<(), VarFault>
    ensures { let put = specs.put_value variables.old name.now more value in
        MatchResult result (λ _. put ≡ Ok variables.new)
        (λ fault. (fault ≡ VarFault.Memory) ⊎ (put ≡ Err fault)) }
{
    let name = Text::from_str(alloc, name)?;
    if more {
        variables.append(alloc, &name, &value)
    } else {
        variables.set(alloc, &name, value)
    }
}
