//! How a core and its history take events.
ghost use Rattle.std.specs.Prelude.{◌≡◌, ◌++◌, ◌∷◌, ◌+◌, ◌^◌, ◌<◌, ◌≤◌, [], IfOk, OnOk, OnErr, length, vec_len, vec_capacity};
ghost use Rattle.std.specs.FinMap as finite;
ghost use Rattle.tup_core.specs.Machine.{state_of, IsCore, TakesMemory};
ghost use Rattle.tup_core.specs.Sound.{HasNear, IsInRange};
ghost use Rattle.tup_core.specs.Step.{IsEnabled, opening, after};

use std::alloc::{AllocError, Global};
use tup_core::{Core, CoreEvent, Plan};
use tup_path::ByPath;
use tup_stamp::Stamp;

/// The core of a plan at its opening, over files with these stamps.
pub(crate) fn opened(alloc: Global, plan: &Plan, files: &ByPath<Stamp>) -> Result<Core, AllocError>
    requires range { IsInRange plan.now }
    requires near { HasNear plan.now }
    ensures core { IfOk result (IsCore plan.now) }
    ensures first { IfOk result (λ core. core.files.first.value ≡ files.now) }
    ensures state { IfOk result (λ core. state_of core
        ≡ opening plan.now (finite.entries files.now)) }
{
    match Core::new(alloc, plan, files) {
        Ok(core) => Ok(core),
        Err(_) => Err(AllocError),
    }
}

/// Takes an event that may happen, and for which no memory is wanted.
pub(crate) fn take(
    alloc: Global,
    core: &mut Core,
    history: &mut Vec<CoreEvent>,
    plan: &Plan,
    event: CoreEvent,
)
    requires core { IsCore plan.now core.old }
    requires enabled { IsEnabled plan.now (state_of core.old) event }
    requires memory { TakesMemory (state_of core.old) event → ⊥ }
    requires room { vec_len history.old < vec_capacity history.old }
    ensures core { IsCore plan.now core.new }
    ensures first { core.new.files.first ≡ core.old.files.first }
    ensures state { state_of core.new ≡ after plan.now (state_of core.old) event }
    ensures history { history.new.items ≡ history.old.items ++ event ∷ [] }
    ensures capacity { vec_capacity history.old ≤ vec_capacity history.new }
{
    let _ = core.take(alloc, plan, &event);
    let _ = history.push(event);
}

/// Takes an event that may happen, and makes room for so many more. After a refusal nothing has changed.
pub(crate) fn try_take(
    alloc: Global,
    core: &mut Core,
    history: &mut Vec<CoreEvent>,
    plan: &Plan,
    event: CoreEvent,
    more: usize,
) -> Result<(), AllocError>
    requires core { IsCore plan.now core.old }
    requires enabled { IsEnabled plan.now (state_of core.old) event }
    requires few { more < 2 ^ 63 }
    ensures core { IsCore plan.now core.new }
    ensures first { core.new.files.first ≡ core.old.files.first }
    ensures state { OnOk result (state_of core.new ≡ after plan.now (state_of core.old) event) }
    ensures history { OnOk result (history.new.items ≡ history.old.items ++ event ∷ []) }
    ensures room { OnOk result (length history.new.items + more ≤ vec_capacity history.new) }
    ensures unchanged { OnErr result (state_of core.new ≡ state_of core.old) }
    ensures as_before { OnErr result (history.new.items ≡ history.old.items) }
    ensures no_less { vec_capacity history.old ≤ vec_capacity history.new }
{
    history.reserve(more + 1)?;
    match core.take(alloc, plan, &event) {
        Ok(()) => {
            let _ = history.push(event);
            Ok(())
        }
        Err(_) => Err(AllocError),
    }
}
