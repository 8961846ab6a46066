//! The events of a row, taken one after another.
ghost use Rattle.tup_core_rows.specs.Machine.{IsOfPlan};

use crate::event::event;
use crate::machine::Machine;
use crate::opening::{opening, reach_at};
use crate::told::told;
use std::alloc::Global;
use tup_given::Project;
use tup_rows::{RowFault, Words};

/// Takes the events of a row, each behind a `;`, and answers a call then.
pub(crate) fn run(alloc: Global, project: &Project, call: &str, said: &Words) -> Words {
    let keep_going = said.word_at(1) == b"keep".as_slice();
    match opening(alloc, project, reach_at(alloc, said, 0), keep_going) {
        Ok(mut machine) => answer(alloc, &mut machine, call, said),
        Err(fault) => Words::none(alloc, fault),
    }
}

/// The answer of a row whose events a core takes. To all calls but `run` each event is enabled.
fn answer(alloc: Global, machine: &mut Machine, call: &str, said: &Words) -> Words
    requires { IsOfPlan machine.old }
{
    match first_refused(alloc, machine, said.as_slice()) {
        Ok(None) => told(alloc, machine, call, said),
        Ok(Some(number)) if call == "run" => ready(alloc, machine, Words::shown(alloc, &number)),
        Ok(Some(_)) => Words::none(alloc, RowFault::OtherKind),
        Err(fault) => Words::none(alloc, fault),
    }
}

/// These words, and then the rules that are ready.
pub(crate) fn ready(alloc: Global, machine: &Machine, mut words: Words) -> Words
    requires { IsOfPlan machine.now }
{
    machine.add_ready(alloc, &mut words);
    words
}

/// The number of the first event that isn't enabled, from 1 on.
fn first_refused(
    alloc: Global,
    machine: &mut Machine,
    words: &[Vec<u8>],
) -> Result<Option<usize>, RowFault>
    requires { IsOfPlan machine.old }
    ensures { IsOfPlan machine.new }
{
    for (number, spelled) in words
        .split(|word| word.as_slice() == b";".as_slice())
        .enumerate()
        .skip(1)
    {
        if !takes(alloc, machine, spelled)? {
            return Ok(Some(number));
        }
    }
    Ok(None)
}

/// Whether a core takes the event that some words spell.
fn takes(alloc: Global, machine: &mut Machine, spelled: &[Vec<u8>]) -> Result<bool, RowFault>
    requires { IsOfPlan machine.old }
    ensures { IsOfPlan machine.new }
{
    match event(alloc, spelled) {
        Ok(event) => machine.takes(alloc, &event),
        Err(fault) => Err(fault),
    }
}
