//! The conditional lines of a file.
ghost use Rattle.std.specs.Prelude.{◌≡◌, false, is_some};
ghost use Rattle.tup_vars.specs.Branches as branches;
ghost use Rattle.tup_tupfile.specs.Conditional.{compares, looked_up};
ghost use Rattle.tup_tupfile.specs.Opening as specs;
ghost use Rattle.tup_query.specs.Went.{Went, asker, Gives};

use crate::conditional::{compares, looked_up};
use std::alloc::Global;
use tup_query::{Env, Log, ReadEnd, Spot, var_end};
use tup_rule_line::State;
use tup_vars::Branches;

/// The conditionals of a file that are open, and the state.
#[derive(Drop)]
pub(crate) struct Along {
    pub(crate) levels: Branches,
    pub(crate) state: State,
}

/// `ifeq` or `ifneq`: off, and unread, where the lines around it are off.
pub(crate) fn comparing<E: Env>(
    alloc: Global,
    env: &mut E,
    log: &mut Log,
    at: &Spot,
    before: Along,
    alike: bool,
    text: &str,
) -> Result<Along, ReadEnd>
    requires { is_some (E.stopped env.old) ≡ false }
    ensures { Went E.tells (asker (E.answers env.old) (E.stopped env.old) (E.asked env.old) log.old)
        (specs.opening at.now before (compares at.now before.state.variables alike text.now))
        (asker (E.answers env.new) (E.stopped env.new) (E.asked env.new) log.new) result }
{
    if !before.levels.on() {
        return unread(at, before);
    }
    let on = compares(alloc, env, log, at, &before.state.variables, alike, text)?;
    entered(at, before, on)
}

/// `ifdef` or `ifndef`: off, and unread, where the lines around it are off.
pub(crate) fn looking<E: Env>(
    alloc: Global,
    env: &mut E,
    log: &mut Log,
    at: &Spot,
    before: Along,
    wanted: bool,
    name: &str,
) -> Result<Along, ReadEnd>
    requires { is_some (E.stopped env.old) ≡ false }
    ensures { Went E.tells (asker (E.answers env.old) (E.stopped env.old) (E.asked env.old) log.old)
        (specs.opening at.now before (looked_up at.now wanted name.now))
        (asker (E.answers env.new) (E.stopped env.new) (E.asked env.new) log.new) result }
{
    if !before.levels.on() {
        return unread(at, before);
    }
    let on = looked_up(alloc, env, log, at, wanted, name)?;
    entered(at, before, on)
}

/// A conditional is opened where lines are off: it counts, and what it tests isn't read.
fn unread(at: &Spot, before: Along) -> Result<Along, ReadEnd>
    ensures { Gives (specs.at_levels at.now before.state
        (branches.entered before.levels at.now.line false)) result }
{
    entered(at, before, false)
}

/// A conditional is opened.
fn entered(at: &Spot, before: Along, on: bool) -> Result<Along, ReadEnd>
    ensures { Gives (specs.at_levels at.now before.state
        (branches.entered before.levels at.now.line on)) result }
{
    let Along { mut levels, state } = before;
    match levels.enter(at.line(), on) {
        Ok(()) => Ok(Along { levels, state }),
        Err(fault) => Err(var_end(at, fault)),
    }
}

/// The `else` of the innermost conditional.
pub(crate) fn turned(at: &Spot, before: Along) -> Result<Along, ReadEnd>
    ensures { Gives (specs.at_levels at.now before.state (branches.turned before.levels)) result }
{
    let Along { mut levels, state } = before;
    match levels.other() {
        Ok(()) => Ok(Along { levels, state }),
        Err(fault) => Err(var_end(at, fault)),
    }
}

/// The `endif` of the innermost conditional.
pub(crate) fn left(at: &Spot, before: Along) -> Result<Along, ReadEnd>
    ensures { Gives (specs.at_levels at.now before.state (branches.left before.levels)) result }
{
    let Along { mut levels, state } = before;
    match levels.leave() {
        Ok(()) => Ok(Along { levels, state }),
        Err(fault) => Err(var_end(at, fault)),
    }
}
