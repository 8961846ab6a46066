//! Updates in many orders, compared with the clean build.
ghost use Rattle.tup_core_rows.specs.Machine.{IsOfPlan};

use crate::machine::Machine;
use crate::opening::{opening, reach_at};
use crate::sources::sorted;
use crate::update::Update;
use std::alloc::Global;
use tup_clean::clean_build;
use tup_core::CoreEvent;
use tup_given::Project;
use tup_mini::Mini;
use tup_path::Files;
use tup_rows::{RowFault, Words};

/// How many turns of seats an order has.
const TURNS: usize = 1000;

/// Runs the rules of a reach from so many seats in so many orders. The answer is `same` where each
/// end has the files of the clean build, and else `other`.
pub(crate) fn drive(alloc: Global, project: &Project, said: &Words) -> Words {
    match clean_tree(alloc, project) {
        Ok(tree) if all_end_with(alloc, project, said, &tree) => Words::word(alloc, b"same"),
        Ok(_) => Words::word(alloc, b"other"),
        Err(fault) => Words::none(alloc, fault),
    }
}

/// The tree that the clean build leaves.
fn clean_tree(alloc: Global, project: &Project) -> Result<Files, RowFault> {
    let sources = sorted(alloc, &project.sources)?;
    match clean_build(
        alloc,
        project.rules.as_slice(),
        &sources,
        &mut Mini::new(alloc),
    ) {
        Ok(clean) => Ok(clean.tree),
        Err(_) => Err(RowFault::Memory),
    }
}

/// Whether each order ends with these files.
fn all_end_with(alloc: Global, project: &Project, said: &Words, tree: &Files) -> bool {
    for order in 0..said.number_at(1) {
        match ends_with(alloc, project, said, order, tree) {
            Ok(true) => {}
            Ok(false) => return false,
            Err(fault) => said.fail(fault),
        }
    }
    true
}

/// Whether an order ends with these files.
fn ends_with(
    alloc: Global,
    project: &Project,
    said: &Words,
    order: u64,
    tree: &Files,
) -> Result<bool, RowFault> {
    match opening(alloc, project, reach_at(alloc, said, 2), true) {
        Ok(mut machine) => {
            leads_to(alloc, project, said.number_at(0), &mut machine, order, tree)
        }
        Err(fault) => Err(fault),
    }
}

/// Whether a core at its opening is led by an order to these files.
fn leads_to(
    alloc: Global,
    project: &Project,
    seats: u64,
    machine: &mut Machine,
    order: u64,
    tree: &Files,
) -> Result<bool, RowFault>
    requires { IsOfPlan machine.old }
{
    match Update::new(alloc, project) {
        Ok(mut update) => {
            update.add_seats(seats);
            ran(alloc, machine, &mut update, order, tree)
        }
        Err(_) => Err(RowFault::Memory),
    }
}

/// Whether an update ends with these files.
fn ran(
    alloc: Global,
    machine: &mut Machine,
    update: &mut Update,
    order: u64,
    tree: &Files,
) -> Result<bool, RowFault>
    requires { IsOfPlan machine.old }
{
    run(alloc, machine, update, order)?;
    update.ends_with(tree)
}

/// Seats take turns by the lots of an order, and the core has to take what happens in each.
fn run(
    alloc: Global,
    machine: &mut Machine,
    update: &mut Update,
    order: u64,
) -> Result<(), RowFault>
    requires { IsOfPlan machine.old }
    ensures { IsOfPlan machine.new }
{
    let mut lot = order;
    for _ in 0..TURNS {
        lot = next_lot(lot);
        update.turn(alloc, lot >> 33, machine.first_ready());
        take_all(alloc, machine, &update.tell(alloc))?;
    }
    Ok(())
}

/// The next number that a lot gives.
fn next_lot(lot: u64) -> u64 {
    lot.wrapping_mul(6_364_136_223_846_793_005)
        .wrapping_add(1_442_695_040_888_963_407)
}

/// Has the core take some events. `OtherKind` where it refuses one.
fn take_all(alloc: Global, machine: &mut Machine, events: &[CoreEvent]) -> Result<(), RowFault>
    requires { IsOfPlan machine.old }
    ensures { IsOfPlan machine.new }
{
    for event in events {
        if !machine.takes(alloc, event)? {
            return Err(RowFault::OtherKind);
        }
    }
    Ok(())
}
