//! What a machine tells of its state.
ghost use Rattle.std.specs.Prelude.{◌≡◌, ◌↔◌, ◌<◌, ℕ, None, Some, IsTrue, IsSome, IfOk, length, slice_get};
ghost use Rattle.std.specs.Option.{option_copied};
ghost use Rattle.tup_rule.specs.declared.rule.Rule.{Rule as RuleValue};
ghost use Rattle.tup_access.specs.Access.{access as access_of};
ghost use Rattle.tup_clean.specs.Queue.{count_of};
ghost use Rattle.tup_core.specs.Waiting.{times};
ghost use Rattle.tup_core.specs.Files.{IsSeenAt};
ghost use Rattle.tup_core.specs.Machine.{state_of, IsCore};
ghost use Rattle.tup_core.specs.Reading.{open_test, pass_test};

use super::Core;
use crate::event::Cause;
use crate::plan::Plan;
use crate::running::Running;
use crate::start::is_up;
use std::alloc::{AllocError, Global};
use tup_access::Access;
use tup_path::{Path, Text};
use tup_stamp::Stamp;

impl Core {
    /// Whether a rule may be claimed unless something is stopped: it is pending, wasn't claimed and waits for none.
    pub fn is_open(&self, at: usize) -> bool
        ensures { result ≡ open_test self.now at }
    {
        is_up(&self.pending, at) && !is_up(&self.claimed, at) && self.waiting.is_clear(at)
    }

    /// The rules that wait for one that is pending, or waited for it; those behind one that isn't reached stand in its own list.
    pub fn waiters(&self, at: usize) -> &[usize]
        requires { at < length self.now.waiting.waiters.items }
        ensures { (other : ℕ) → count_of other result.now
            ≡ times self.now.waiting.waiters.items at other }
    {
        self.waiting.waiters(at)
    }

    /// Whether a rule that isn't pending waits for none, so that none behind it waits on its account.
    pub fn passes_on(&self, at: usize) -> bool
        ensures { result ≡ pass_test self.now at }
    {
        !is_up(&self.pending, at) && self.waiting.is_clear(at)
    }

    /// What a seat runs.
    pub fn running(&self, seat: u32) -> Option<&Running>
        ensures { option_copied result ≡ (state_of self.now).seats seat }
    {
        match self.seats.get(seat as usize) {
            Some(Some(running)) => Some(running),
            _ => None,
        }
    }

    /// Whether no seat runs anything.
    pub fn is_idle(&self) -> bool
        ensures { IsTrue result ↔ ((seat : ℕ) → (state_of self.now).seats seat ≡ None) }
    {
        for seat in &self.seats {
            if seat.is_some() {
                return false;
            }
        }
        true
    }

    /// The stamp of the file at a path that had this one at the opening, if there is one.
    pub fn file(&self, path: &Path, seen: Option<Stamp>) -> Option<Stamp>
        requires { IsSeenAt self.now.files path.now seen }
        ensures { result ≡ (state_of self.now).files path.now }
    {
        self.files.get(path, seen)
    }

    /// Why the first stop came, if one did.
    pub fn stopped(&self) -> Option<Cause>
        ensures { result ≡ (state_of self.now).stopped }
    {
        self.stopped
    }

    /// Whether a verdict was bad.
    pub fn has_bad(&self) -> bool
        ensures { IsTrue result ↔ ((at : ℕ) × IsSome ((state_of self.now).bad at)) }
    {
        for verdict in &self.bad {
            if verdict.is_some() {
                return true;
            }
        }
        false
    }

    /// Whether the command that a seat runs may ask for a text.
    pub fn allows(
        &self,
        alloc: Global,
        plan: &Plan,
        running: &Running,
        text: &Text,
    ) -> Result<Access, AllocError>
        requires core { IsCore plan.now self.now }
        requires rule { running.now.rule < length plan.now.rules }
        ensures { IfOk result (λ given. (rule : RuleValue)
            → slice_get plan.now.rules running.now.rule ≡ Some rule
            → given ≡ access_of plan.now.rules rule (length running.now.asks) text.now) }
    {
        let rule = &plan.rules.as_slice()[running.rule as usize];
        match self.access(alloc, plan, rule, running, text) {
            Ok(given) => Ok(given),
            Err(_) => Err(AllocError),
        }
    }
}
