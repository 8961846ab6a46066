//! Who is let in to the value under a lock.
ghost use Rattle.std.specs.Prelude.{◌≡◌};
ghost use Rattle.tup_lock.specs.Held.{OwnStep, IsFound};
ghost use Rattle.tup_lock.specs.Seats.{IsSeatOf, IsInside};
ghost use Rattle.tup_lock.specs.Within.{Takes, Ran};

use crate::ends::Ends;
use crate::lock::Lock;
use crate::logged::Logged;
use crate::seat::Seat;
use std::snapshot::Snapshot;
use std::sync::Wait;

/// A lock that waits by a handle of its own.
#[derive(Drop)]
pub struct SeatLock<T: Logged, W: Wait> {
    pub(crate) lock: Lock<T>,
    pub(crate) rt: W,
    pub(crate) seats: u32,
    pub(crate) first: Snapshot<T>,
    pub(crate) ends: Ends,
}

impl<T: Logged + Drop, W: Wait> SeatLock<T, W> {
    /// Waits until no other seat is in, and takes the value. Until `leave` no other seat gets in.
    pub fn enter(&self, seat: &mut Seat<T>) -> T
        requires own { IsSeatOf T.Logged.own self.now seat.old }
        ensures found { IsFound T.Logged.own seat.old.number seat.old.last.value result }
        ensures inside { IsInside T.Logged.own self.now seat.old result seat.new }
    {
        self.lock.take(&self.rt, &mut seat.place)
    }

    /// Puts the value back that `enter` gave, with what the seat did to it.
    pub fn leave(&self, seat: &mut Seat<T>, value: T)
        requires inside { (found : T) × (was : _) × IsInside T.Logged.own self.now was found seat.old
            × OwnStep T.Logged.own seat.old.number found value }
        ensures own { IsSeatOf T.Logged.own self.now seat.new }
        ensures left { (seat.new.number ≡ seat.old.number) × (seat.new.last.value ≡ value) }
    {
        seat.last = Snapshot::of(&value);
        self.lock.give(&mut seat.place, value);
    }

    /// Lets the seat in to the value while no other is. Those that wait for a change go on.
    pub fn with<X, F: FnOnce(&mut T, u32) -> X>(&self, seat: &mut Seat<T>, f: F) -> X
        requires own { IsSeatOf T.Logged.own self.now seat.old }
        requires may { (value : T) → IsFound T.Logged.own seat.old.number seat.old.last.value value
            → Takes F.FnOnce f value seat.old.number }
        requires keeps { (value left : T) (x : X) → IsFound T.Logged.own seat.old.number seat.old.last.value value
            → Ran F.FnOnce f value seat.old.number x left → OwnStep T.Logged.own seat.old.number value left }
        ensures own { IsSeatOf T.Logged.own self.now seat.new }
        ensures number { seat.new.number ≡ seat.old.number }
        ensures ran { (value : T) × IsFound T.Logged.own seat.old.number seat.old.last.value value
            × Ran F.FnOnce f value seat.old.number result seat.new.last.value }
    {
        let number = seat.number;
        let mut value = self.enter(seat);
        let x = f(&mut value, number);
        self.leave(seat, value);
        self.ends.tell();
        x
    }
}
