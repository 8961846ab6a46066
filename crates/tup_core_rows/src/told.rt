//! What a core tells of its state.
ghost use Rattle.tup_core_rows.specs.Machine.{IsOfPlan};

use crate::machine::Machine;
use crate::run::ready;
use std::alloc::Global;
use tup_access::Access;
use tup_rows::{RowFault, Words};

/// What a core that took all events tells: to `run` `all`, and the rules that are ready.
pub(crate) fn told(alloc: Global, machine: &Machine, call: &str, said: &Words) -> Words
    requires { IsOfPlan machine.now }
{
    match call {
        "run" => ready(alloc, machine, Words::word(alloc, b"all")),
        "turn" => turn(alloc, machine),
        "allows" => allows(alloc, machine, said),
        "state" => machine.state(alloc),
        _ => Words::none(alloc, RowFault::NoSuchCall),
    }
}

/// Whose turn it is: the first rule that is ready, or `none`.
fn turn(alloc: Global, machine: &Machine) -> Words
    requires { IsOfPlan machine.now }
{
    match machine.first_turn(alloc) {
        Ok(Some(rule)) => Words::shown(alloc, &rule),
        Ok(None) => Words::word(alloc, b"none"),
        Err(fault) => Words::none(alloc, fault),
    }
}

/// What becomes of an ask of the command at a seat: the path that it may ask for, `no` where it may not, or `none` where the
/// seat runs nothing.
fn allows(alloc: Global, machine: &Machine, said: &Words) -> Words
    requires { IsOfPlan machine.now }
{
    let seat = (said.number_at(2) & 0xff) as u32;
    match machine.allows(alloc, seat, &said.text_at(alloc, 3)) {
        Ok(Some(Access::Yes(path))) => Words::shown(alloc, &path),
        Ok(Some(Access::No(_))) => Words::word(alloc, b"no"),
        Ok(None) => Words::word(alloc, b"none"),
        Err(fault) => Words::none(alloc, fault),
    }
}
