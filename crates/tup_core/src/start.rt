//! What stands at an opening.
ghost use Rattle.std.specs.Prelude.{◌≡◌, ℕ, false, None, IfOk, length, replicate};
ghost use Rattle.tup_access.specs.Inputs.{AreInputs, AreInputsOfAll};
ghost use Rattle.tup_core.specs.Step.{is_reached};
ghost use Rattle.tup_core.specs.Sound.{IsInRange};
ghost use Rattle.tup_core.specs.Waiting.{flag};

use crate::plan::Plan;
use std::alloc::{AllocError, Global};
use tup_access::Inputs;
use tup_rule::Rule;

/// Flags that are all down.
pub(crate) fn lowered(alloc: Global, count: usize) -> Result<Vec<bool>, AllocError>
    ensures { IfOk result (λ flags. flags.items ≡ replicate count false) }
{
    Ok(vec![in alloc; false; count]?)
}

/// Nothing, so many times.
pub(crate) fn nothing<T: Drop>(alloc: Global, count: usize) -> Result<Vec<Option<T>>, AllocError>
    ensures { IfOk result (λ entries. entries.items ≡ replicate count None) }
{
    let mut entries = Vec::with_capacity(alloc, count)?;
    for _ in 0..count {
        entries.push(None)?;
    }
    Ok(entries)
}

/// The same flags.
pub(crate) fn copied(alloc: Global, flags: &[bool]) -> Result<Vec<bool>, AllocError>
    ensures { IfOk result (λ copy. copy.items ≡ flags.now) }
{
    Ok(Vec::from_slice(alloc, flags)?)
}

/// A flag for each rule: whether it is in the reach.
pub(crate) fn reached(alloc: Global, plan: &Plan) -> Result<Vec<bool>, AllocError>
    requires { IsInRange plan.now }
    ensures length { IfOk result (λ flags. length flags.items ≡ length plan.now.rules) }
    ensures flags { IfOk result (λ flags. (at : ℕ) → flag flags.items at ≡ is_reached plan.now at) }
{
    let mut flags = lowered(alloc, plan.rules.len())?;
    for at in plan.reach.as_slice() {
        flags[*at as usize] = true;
    }
    Ok(flags)
}

/// Whether the flag at a place is up.
pub(crate) fn is_up(flags: &[bool], at: usize) -> bool
    ensures { result ≡ flag flags.now at }
{
    flags.get(at).copied().unwrap_or(false)
}

/// What each rule declares, as its command asks for it, for those whose flag is up.
pub(crate) fn inputs_of_all(
    alloc: Global,
    rules: &[Rule],
    flags: &[bool],
) -> Result<Vec<Inputs>, AllocError>
    ensures { IfOk result (λ all. AreInputsOfAll rules.now all.items) }
{
    let mut all = Vec::with_capacity(alloc, rules.len())?;
    for (at, rule) in rules.iter().enumerate() {
        all.push(inputs_if(alloc, rule, is_up(flags, at))?)?;
    }
    Ok(all)
}

/// What a rule declares, where somebody will ask.
fn inputs_if(alloc: Global, rule: &Rule, asked: bool) -> Result<Inputs, AllocError>
    ensures { IfOk result (AreInputs rule.now) }
{
    if asked {
        return Inputs::of(alloc, rule);
    }
    Ok(Inputs::few())
}
