//! Which rule may be claimed first.
ghost use Rattle.std.specs.Prelude.{◌≡◌, ◌<◌, ◌&&◌, ◌||◌, ◌==◌, ◌∷◌, [], ℕ, true, false, if◌then◌else◌, IfOk, MatchOption, length};
ghost use Rattle.std.specs.List.{list_any};
ghost use Rattle.tup_clean.specs.Queue.{count_of};
ghost use Rattle.tup_core.specs.Machine.{state_of, IsCore};
ghost use Rattle.tup_core.specs.Reading.{open_test};
ghost use Rattle.tup_core.specs.Waiting.{times};
ghost use Rattle.tup_schedule.specs.Marks.{IsMarks, is_marked};
ghost use Rattle.tup_core.specs.Step.{State, IsReady};
ghost use Rattle.tup_schedule.specs.Turn.{IsFirstReady, IsTurn, IsTold, HasTurn, Takes, Frees};

use crate::marks::Marks;
use std::alloc::{AllocError, Global};
use tup_core::{Core, Plan};

/// The rules of a plan that may be claimed as soon as nothing is stopped, kept beside its core.
#[derive(Drop)]
pub struct Turn {
    marks: Marks,
}

impl Turn {
    /// Those of a core. It takes the memory for all that comes.
    pub fn new(alloc: Global, plan: &Plan, core: &Core) -> Result<Turn, AllocError>
        requires { IsCore plan.now core.now }
        ensures { IfOk result (IsTurn plan.now (state_of core.now)) }
    {
        let mut marks = Marks::new(alloc, plan.rules.len())?;
        mark_open(&mut marks, core, plan.reach.as_slice());
        Ok(Turn { marks })
    }

    /// The first rule that may be claimed. It takes no memory, and as many steps as the number of rules has digits.
    pub fn first_ready(&self, plan: &Plan, core: &Core) -> Option<u32>
        requires core { IsCore plan.now core.now }
        requires turn { IsTurn plan.now (state_of core.now) self.now }
        ensures { MatchOption result ((at : ℕ) → IsReady plan.now (state_of core.now) at → ⊥)
            (IsFirstReady plan.now (state_of core.now)) }
    {
        if core.stopped().is_some() {
            return None;
        }
        match self.marks.first() {
            Some(at) => Some(at as u32),
            None => None,
        }
    }

    /// A rule of the plan was claimed.
    pub fn claim(&mut self, plan: &Plan, rule: u32)
        requires rule { rule < length plan.now.rules }
        requires before { HasTurn plan.now self.old }
        ensures { (before now : State) → IsTurn plan.now before self.old → Takes before rule now
            → IsTurn plan.now now self.new }
    {
        self.marks.set(rule as usize, false);
    }

    /// A rule of the plan is pending no longer in a core: those that waited for it alone may be claimed. A rule that isn't pending
    /// itself passes on that it waits for none, so those behind it are looked at only then.
    pub fn free(&mut self, plan: &Plan, core: &Core, rule: u32)
        requires core { IsCore plan.now core.now }
        requires rule { rule < length plan.now.rules }
        requires before { HasTurn plan.now self.old }
        ensures { (before : State) → IsTurn plan.now before self.old
            → Frees plan.now before rule (state_of core.now)
            → IsTurn plan.now (state_of core.now) self.new }
    {
        self.marks.set(rule as usize, false);
        mark_waiters(&mut self.marks, core, core.waiters(rule as usize));
    }
}

/// Marks those of some rules that are open in a core.
fn mark_open(marks: &mut Marks, core: &Core, numbers: &[u32])
    requires marks { IsMarks marks.old }
    requires places { (at : ℕ) → open_test core.now at ≡ true → at < marks.old.places }
    requires none { (at : ℕ) → is_marked marks.old at ≡ false }
    ensures marks { IsMarks marks.new }
    ensures places { marks.new.places ≡ marks.old.places }
    ensures set { (at : ℕ) → is_marked marks.new at
        ≡ (list_any (λ number. at == number) numbers.now && open_test core.now at) }
{
    for at in numbers {
        mark_if_open(marks, core, *at as usize);
    }
}

/// Marks a rule, if it's open in a core.
fn mark_if_open(marks: &mut Marks, core: &Core, at: usize)
    requires marks { IsMarks marks.old }
    requires place { open_test core.now at ≡ true → at < marks.old.places }
    ensures marks { IsMarks marks.new }
    ensures places { marks.new.places ≡ marks.old.places }
    ensures set { (other : ℕ) → is_marked marks.new other
        ≡ (is_marked marks.old other || (other == at && open_test core.now at)) }
{
    if core.is_open(at) {
        marks.set(at, true);
    }
}

/// Marks those of some rules that are open in a core, and those behind rules that pass on, and takes the marks of the others away.
fn mark_waiters(marks: &mut Marks, core: &Core, places: &[usize])
    requires marks { IsMarks marks.old }
    requires places { (at : ℕ) → 0 < count_of at places.now → at < marks.old.places }
    requires lists { (at : ℕ) → 0 < count_of at places.now
        → at < length core.now.waiting.waiters.items }
    requires behind { (next at : ℕ) → 0 < times core.now.waiting.waiters.items next at
        → at < marks.old.places }
    ensures marks { IsMarks marks.new }
    ensures places { marks.new.places ≡ marks.old.places }
    ensures told { (at : ℕ) → IsTold core.now places.now marks.old marks.new at }
{
    for at in places {
        mark_one(marks, core, *at);
    }
}

/// Marks a rule, if it's open, and, if it passes on, those behind it that are.
fn mark_one(marks: &mut Marks, core: &Core, place: usize)
    requires marks { IsMarks marks.old }
    requires place { place < marks.old.places }
    requires list { place < length core.now.waiting.waiters.items }
    requires behind { (next at : ℕ) → 0 < times core.now.waiting.waiters.items next at
        → at < marks.old.places }
    ensures marks { IsMarks marks.new }
    ensures places { marks.new.places ≡ marks.old.places }
    ensures told { (at : ℕ) → IsTold core.now (place ∷ []) marks.old marks.new at }
{
    marks.set(place, core.is_open(place));
    if !core.passes_on(place) {
        return;
    }
    mark_all(marks, core, core.waiters(place));
}

/// Marks those of some rules that are open in a core, and takes the marks of the others away.
fn mark_all(marks: &mut Marks, core: &Core, places: &[usize])
    requires marks { IsMarks marks.old }
    requires places { (at : ℕ) → 0 < count_of at places.now → at < marks.old.places }
    ensures marks { IsMarks marks.new }
    ensures places { marks.new.places ≡ marks.old.places }
    ensures set { (at : ℕ) → is_marked marks.new at
        ≡ (if count_of at places.now == 0 then is_marked marks.old at else open_test core.now at) }
{
    for at in places {
        marks.set(*at, core.is_open(*at));
    }
}
