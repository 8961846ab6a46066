//! The end of a lock.
ghost use Rattle.std.specs.Prelude.{◌≡◌, ◌≢◌, ◌<◌, ◌++◌, ℕ, [], length, map, slice_index_or, All};
ghost use Rattle.tup_lock.specs.Held.{entries_of};
ghost use Rattle.tup_lock.specs.Seats.{AreSeatsOf, AreNumbered, last_of};

use crate::lock::Place;
use crate::logged::Logged;
use crate::seat::Seat;
use crate::seat_lock::SeatLock;
use std::sync::Wait;

impl<T: Logged + Drop, W: Wait + Drop> SeatLock<T, W> {
    /// Takes the value out for good: each seat's entries are those that it knows of, and there are no others.
    pub fn close(self, seats: Vec<Seat<T>>) -> T
        requires own { AreSeatsOf T.Logged.own self seats.items }
        requires some { 0 < self.seats }
        ensures began { T.origin result ≡ T.origin self.first.value }
        ensures stood { (count : ℕ) → T.stood result count → T.stood self.first.value count }
        ensures entries { (i : ℕ) (d : _) → i < length seats.items
            → entries_of T.Logged.own i (T.history result) ≡ entries_of T.Logged.own i (T.history (slice_index_or seats.items i d).last.value) }
        ensures no_others { All (λ event. T.seat_of event < self.seats) (T.history result) }
    {
        let mut place = self.unite_all(seats);
        self.lock.take(&self.rt, &mut place)
    }

    /// What all seats know comes to one.
    fn unite_all(&self, mut seats: Vec<Seat<T>>) -> Place<T>
        requires own { AreSeatsOf T.Logged.own self.now seats.items }
        requires some { 0 < self.now.seats }
        ensures table { result.table_id ≡ self.now.lock.table.shared.table_id }
        ensures slots { result.me.1 ≡ [] }
        ensures count { result.me.0.count ≡ self.now.seats }
        ensures lasts { result.me.0.lasts ≡ map last_of seats.items }
    {
        match seats.pop() {
            Some(last) => self.unite_below(last.place, seats),
            None => unreachable!(),
        }
    }

    /// The same, where a place knows what all seats of higher numbers do.
    fn unite_below(&self, mut place: Place<T>, mut seats: Vec<Seat<T>>) -> Place<T>
        requires table { place.table_id ≡ self.now.lock.table.shared.table_id }
        requires slots { place.me.1 ≡ [] }
        requires seats { AreNumbered T.Logged.own self.now seats.items }
        requires first { length seats.items ≡ 0 → place.me.0.count ≡ self.now.seats }
        requires others { length seats.items ≢ 0 → place.me.0.count ≡ 0 }
        ensures table { result.table_id ≡ self.now.lock.table.shared.table_id }
        ensures slots { result.me.1 ≡ [] }
        ensures count { result.me.0.count ≡ self.now.seats }
        ensures lasts { result.me.0.lasts ≡ map last_of seats.items ++ place.me.0.lasts }
    {
        while let Some(seat) = seats.pop() {
            let mut lower = seat.place;
            self.lock.unite(&mut lower, place);
            place = lower;
        }
        place
    }
}
