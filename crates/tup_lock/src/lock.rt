//! The lock.
ghost use Rattle.std.specs.Prelude.{◌≡◌, ◌≢◌, ◌∷◌, ℕ, [], Some, None, IfOk, IfErr};
ghost use Rattle.tup_lock.specs.Held.{Shows, OwnStep, inside, holding, given, left_with, right_of, both_of, first_view};

use crate::logged::Logged;
use crate::rule::{Draw, Give, Order, Take, Unite};
use crate::view::View;
use atomic_table::{Refused, Table};
use crossbeam_utils::Backoff;
use std::alloc::Global;
use std::snapshot::Snapshot;
use std::sync::Wait;

/// What a seat of the table is.
pub type Place<T> = atomic_table::Seat<Option<T>, View<T>>;

/// Why there is no lock.
#[derive(Clone, Copy, PartialEq, Eq)]
pub enum LockFault {
    /// There was no memory.
    Memory,
}

/// A lock round a value, which goes by the seats that hold it in turn.
#[derive(Drop)]
pub struct Lock<T: Logged> {
    table: Table<Option<T>, View<T>, Snapshot<T>, Order, Global>,
    ghost sized: { (table.shared.table_id.words ≡ 1) × (table.shared.table_id.slots ≡ 1) },
}

impl<T: Logged + Drop> Lock<T> {
    /// A lock, and its first seat.
    pub(crate) fn open(alloc: Global, value: T) -> Result<(Lock<T>, Place<T>), (T, LockFault)>
        requires none { T.history value ≡ [] }
        ensures ok { IfOk result (λ made. (made.1.table_id ≡ made.0.table.shared.table_id) × (made.1.me ≡ (first_view value, []))) }
        ensures err { IfErr result (λ back. back ≡ (value, LockFault.Memory)) }
    {
        let Ok(mut slots) = Vec::with_capacity(alloc, 1) else {
            return Err((value, LockFault::Memory));
        };
        let about = Snapshot::of(&value);
        slots.push_reserved(Some(value));
        match Table::new(alloc, &[0], slots, &about) {
            Ok((table, place)) => Ok((Lock { table }, place)),
            Err(Refused { mut slots }) => match slots.pop() {
                Some(Some(value)) => Err((value, LockFault::Memory)),
                _ => unreachable!(),
            },
        }
    }

    /// A new seat with the next number.
    pub(crate) fn draw(&self, first: &mut Place<T>) -> Place<T>
        requires own { first.old.table_id ≡ self.now.table.shared.table_id }
        requires first { first.old.me.0.count ≢ 0 }
        ensures first { (first.new.table_id ≡ first.old.table_id) × (first.new.me ≡ (left_with first.old.me.0, first.old.me.1)) }
        ensures new { (result.table_id ≡ first.old.table_id) × (result.me ≡ (right_of first.old.me.0, [])) }
    {
        self.table.shared.split_seat::<Draw>(first)
    }

    /// A seat gets what another knows.
    pub(crate) fn unite(&self, place: &mut Place<T>, other: Place<T>)
        requires own { (place.old.table_id ≡ self.now.table.shared.table_id) × (other.table_id ≡ self.now.table.shared.table_id) }
        requires other { (other.me.1 ≡ []) × (other.me.0.count ≡ 0) }
        ensures { (place.new.table_id ≡ place.old.table_id) × (place.new.me ≡ (both_of place.old.me.0 other.me.0, place.old.me.1)) }
    {
        self.table.shared.join_seat::<Unite>(place, other);
    }

    /// Waits until the lock is free, and takes it: the value is out.
    pub(crate) fn take<R: Wait>(&self, rt: &R, place: &mut Place<T>) -> T
        requires own { (place.old.table_id ≡ self.now.table.shared.table_id) × (place.old.me.1 ≡ []) }
        ensures own { place.new.table_id ≡ place.old.table_id }
        ensures holds { place.new.me ≡ (holding place.old.me.0 result, (0, None) ∷ []) }
        ensures shows { Shows T.Logged.own place.old.me.0 result }
    {
        let shared = &self.table.shared;
        let backoff = Backoff::new();
        for _ in rt.forever() {
            let found = shared.compare_exchange::<Take>(place, 0, 0, 1);
            if found == 0 {
                return self.lift(place);
            }
            self.rest(rt, &backoff);
        }
        unreachable!()
    }

    /// Waits for the value to be given back: for a few short turns, and from then on asleep.
    fn rest<R: Wait>(&self, rt: &R, backoff: &Backoff) {
        if backoff.is_completed() {
            self.table.shared.park(rt, 0, 1);
        } else {
            backoff.snooze();
        }
    }

    /// Moves the value out of the slot.
    fn lift(&self, place: &mut Place<T>) -> T
        requires own { place.old.table_id ≡ self.now.table.shared.table_id }
        requires full { (t : T) × (place.old.me.1 ≡ (0, Some t) ∷ []) }
        ensures own { place.new.table_id ≡ place.old.table_id }
        ensures was { place.old.me.1 ≡ (0, Some result) ∷ [] }
        ensures left { place.new.me ≡ (place.old.me.0, (0, None) ∷ []) }
    {
        match self.table.shared.exchange(place, 0, None) {
            Some(value) => value,
            None => unreachable!(),
        }
    }

    /// Puts the value back, and lets the lock go.
    pub(crate) fn give(&self, place: &mut Place<T>, value: T)
        requires own { place.old.table_id ≡ self.now.table.shared.table_id }
        requires holds { (number : ℕ) × (last : T) × (found : T)
            × (place.old.me ≡ (inside number last place.old.me.0.count found, (0, None) ∷ []))
            × OwnStep T.Logged.own number found value }
        ensures own { place.new.table_id ≡ place.old.table_id }
        ensures left { (number : ℕ) (last : T) → place.old.me.0.lasts ≡ (number, last) ∷ []
            → place.new.me ≡ (given place.old.me.0 number value, []) }
    {
        let shared = &self.table.shared;
        drop(shared.exchange(place, 0, Some(value)));
        shared.store::<Give>(place, 0, 0);
        shared.wake_one(0);
    }
}
