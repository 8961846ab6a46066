//! How the begins and the ends of rules followed each other.
ghost use Rattle.std.specs.Prelude.{◌≡◌, ◌≤◌, ◌+◌, [], IfOk, length, vec_capacity, vec_len};
ghost use Rattle.tup_update.specs.Steps as specs;

use std::alloc::{AllocError, Global};
use tup_core::{CoreEvent, Plan};
use tup_path::Items;
use tup_promise::Step;

/// The steps of a history, and room for more. It is made before the first rule is run, so that there is room for all, even if
/// no memory is left by then.
#[derive(Drop)]
pub(crate) struct Steps {
    taken: Vec<Step>,
}

impl Steps {
    /// No steps, and room for a begin and an end of each rule that a plan has to run.
    pub(crate) fn of(alloc: Global, plan: &Plan) -> Result<Steps, AllocError>
        ensures { IfOk result (specs.HasRoomFor plan.now) }
    {
        let taken = Vec::with_capacity(alloc, 2 * plan.reach.as_slice().len())?;
        Ok(Steps { taken })
    }

    /// The steps of a history. It takes no memory.
    pub(crate) fn in_history(mut self, history: &[CoreEvent]) -> Items<Step>
        requires none { self.taken.items ≡ [] }
        requires room { vec_len self.taken + length (specs.steps_of history.now) ≤ vec_capacity self.taken }
        ensures { result ≡ specs.steps_of history.now }
    {
        for event in history {
            if let Some(step) = step_of(event) {
                self.taken.push_reserved(step);
            }
        }
        Items::from_vec(self.taken)
    }
}

/// The step that an event is, if it is one.
fn step_of(event: &CoreEvent) -> Option<Step>
    ensures { result ≡ specs.step_of event.now }
{
    match event {
        CoreEvent::Claim { .. } => Some(Step::Begin),
        CoreEvent::Finish { .. } => Some(Step::End),
        _ => None,
    }
}
