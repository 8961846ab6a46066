//! What is known of each rule of a plan, handed out for those that were begun or for those that ended.
ghost use Rattle.std.specs.Prelude.{◌≡◌, ◌++◌, ◌≢◌, ◌∷◌, [], ℕ, None, Some, IsSome, IfOk, All, map, nat_eq};
ghost use Rattle.std.specs.List.{IsDistinct};
ghost use Rattle.tup_core.specs.Run.{claims};
ghost use Rattle.tup_update.specs.Ended.{ends, numbers};
ghost use Rattle.tup_update.specs.Names.{HasRoom, IsWaiting, value_at};

use crate::ended::{SEATS, claim_at, claimed_at};
use std::alloc::{AllocError, Global};
use std::collections::BTreeMap;
use tup_core::CoreEvent;
use tup_path::Items;

/// A value for each rule of a plan that waits, by its number, and those that were handed out, in their order. All are made
/// before the first rule is run, so that there is one for each that was, even if no memory is left by then.
#[derive(Drop)]
pub(crate) struct ByRule<V> {
    waiting: BTreeMap<u32, V>,
    begun: Vec<V>,
}

impl<V: Drop> ByRule<V> {
    /// These values, of which none is handed out.
    pub(crate) fn of(alloc: Global, waiting: BTreeMap<u32, V>) -> Result<ByRule<V>, AllocError>
        ensures { IfOk result (IsWaiting waiting) }
    {
        let begun = Vec::with_capacity(alloc, waiting.len())?;
        Ok(ByRule { waiting, begun })
    }

    /// The values of the rules that were begun, in their order. It takes no memory.
    pub(crate) fn claimed(mut self, history: &[CoreEvent]) -> Items<V>
        requires room { HasRoom self }
        requires once { IsDistinct nat_eq (claims history.now) }
        requires named { All (λ number. IsSome (value_at self number)) (claims history.now) }
        requires none { self.begun.items ≡ [] }
        ensures { map Some result ≡ map (value_at self) (claims history.now) }
    {
        for event in history {
            if let CoreEvent::Claim { rule, .. } = event {
                self.begin(*rule);
            }
        }
        Items::from_vec(self.begun)
    }

    /// The values of the rules whose command came to a verdict, in the order of the ends. It takes no memory.
    pub(crate) fn ended(mut self, history: &[CoreEvent]) -> Items<V>
        requires room { HasRoom self }
        requires once { IsDistinct nat_eq (numbers (ends history.now)) }
        requires named { All (λ number. IsSome (value_at self number)) (numbers (ends history.now)) }
        requires none { self.begun.items ≡ [] }
        ensures { map Some result ≡ map (value_at self) (numbers (ends history.now)) }
    {
        let mut claimed = [None; SEATS];
        for event in history {
            match event {
                CoreEvent::Claim { seat, rule } => claim_at(&mut claimed, *seat, *rule),
                CoreEvent::Finish { seat, .. } => self.begin_any(claimed_at(&claimed, *seat)),
                _ => {}
            }
        }
        Items::from_vec(self.begun)
    }

    /// The value of this rule is taken, if there is one.
    fn begin_any(&mut self, number: Option<u32>)
        requires room { HasRoom self.old }
        requires named { (at : ℕ) → number ≡ Some at → IsSome (value_at self.old at) }
        ensures room { HasRoom self.new }
        ensures begun { (at : ℕ) (value : V) → number ≡ Some at → value_at self.old at ≡ Some value
            → self.new.begun.items ≡ self.old.begun.items ++ value ∷ [] }
        ensures others { (at other : ℕ) → number ≡ Some at → other ≢ at
            → value_at self.new other ≡ value_at self.old other }
        ensures none { number ≡ None → self.new ≡ self.old }
    {
        if let Some(number) = number {
            self.begin(number);
        }
    }

    /// A rule is begun whose value waits.
    fn begin(&mut self, number: u32)
        requires room { HasRoom self.old }
        requires named { IsSome (value_at self.old number) }
        ensures room { HasRoom self.new }
        ensures begun { (value : V) → value_at self.old number ≡ Some value
            → self.new.begun.items ≡ self.old.begun.items ++ value ∷ [] }
        ensures others { (other : ℕ) → other ≢ number
            → value_at self.new other ≡ value_at self.old other }
    {
        if let Some(value) = self.waiting.remove(&number) {
            self.begun.push_reserved(value);
        }
    }
}
