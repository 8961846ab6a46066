//! The beginning of a lock.
ghost use Rattle.std.specs.Prelude.{◌≡◌, ◌≤◌, ◌<◌, ◌+◌, ℕ, [], length, IfOk, IfErr, All};
ghost use Rattle.std.specs.Vec.{vec_len, vec_capacity};
ghost use Rattle.tup_lock.specs.Seats.{AreDrawn, AreNew, IsDrawn};

use crate::ends::Ends;
use crate::lock::{Lock, LockFault};
use crate::logged::Logged;
use crate::seat::Seat;
use crate::seat_lock::SeatLock;
use std::alloc::{AllocError, Global};
use std::snapshot::Snapshot;
use std::sync::Wait;

impl<T: Logged + Drop, W: Wait + Drop> SeatLock<T, W> {
    /// A lock round a value at which nothing happened, with its seats, numbered from 0. Want of memory gives the value back.
    pub fn new(
        alloc: Global,
        rt: W,
        value: T,
        seats: u32,
    ) -> Result<(SeatLock<T, W>, Vec<Seat<T>>), (T, LockFault)>
        requires seats { 0 < seats }
        requires none { T.history value ≡ [] }
        ensures value { IfOk result (λ made. (made.0.first.value ≡ value) × (made.0.seats ≡ seats)) }
        ensures seats { IfOk result (λ made. AreNew T.Logged.own made.0 value made.1.items) }
        ensures memory { IfErr result (λ back. back ≡ (value, LockFault.Memory)) }
    {
        let Ok(lasts) = snapshots(alloc, &value, seats - 1) else {
            return Err((value, LockFault::Memory));
        };
        let Ok(mut made) = Vec::with_capacity(alloc, seats as usize) else {
            return Err((value, LockFault::Memory));
        };
        let first = Snapshot::of(&value);
        let last = Snapshot::of(&value);
        let (lock, place) = match Lock::open(alloc, value) {
            Ok(opened) => opened,
            Err(back) => return Err(back),
        };
        made.push_reserved(Seat {
            place,
            number: 0,
            last,
        });
        lock.draw_all(&mut made, lasts, &first);
        Ok((
            SeatLock {
                lock,
                rt,
                seats,
                first,
                ends: Ends::new(),
            },
            made,
        ))
    }
}

/// A value, as many times as this.
fn snapshots<T>(alloc: Global, value: &T, count: u32) -> Result<Vec<Snapshot<T>>, AllocError>
    ensures { IfOk result (λ made. (length made.items ≡ count) × All (λ one. one.value ≡ value.now) made.items) }
{
    let mut made = Vec::new(alloc);
    for _ in 0..count {
        made.push(Snapshot::of(value))?;
    }
    Ok(made)
}

impl<T: Logged + Drop> Lock<T> {
    /// A seat for each of these, with the next numbers.
    fn draw_all(&self, made: &mut Vec<Seat<T>>, mut lasts: Vec<Snapshot<T>>, first: &Snapshot<T>)
        requires one { AreDrawn self.now first.now.value 1 made.old.items }
        requires lasts { All (λ one. one.value ≡ first.now.value) lasts.items }
        requires room { (1 + length lasts.items ≤ vec_capacity made.old) × (1 + length lasts.items < 4294967296) }
        ensures { AreDrawn self.now first.now.value (1 + length lasts.items) made.new.items }
    {
        while let Some(last) = lasts.pop() {
            self.draw_next(made, last, first);
        }
    }

    /// A seat with the next number.
    fn draw_next(&self, made: &mut Vec<Seat<T>>, last: Snapshot<T>, first: &Snapshot<T>)
        requires drawn { AreDrawn self.now first.now.value (length made.old.items) made.old.items }
        requires last { last.value ≡ first.now.value }
        requires some { 0 < length made.old.items }
        requires room { (vec_len made.old < vec_capacity made.old) × (length made.old.items < 4294967296) }
        ensures drawn { AreDrawn self.now first.now.value (length made.old.items + 1) made.new.items }
        ensures room { vec_capacity made.new ≡ vec_capacity made.old }
    {
        let number = made.len() as u32;
        let seat = self.draw_at(&mut made[0], number, last, first);
        made.push_reserved(seat);
    }

    /// The seat of this number, which the first seat draws.
    fn draw_at(
        &self,
        chief: &mut Seat<T>,
        number: u32,
        last: Snapshot<T>,
        first: &Snapshot<T>,
    ) -> Seat<T>
        requires chief { IsDrawn self.now first.now.value number 0 chief.old }
        requires some { 0 < number }
        requires last { last.value ≡ first.now.value }
        ensures chief { IsDrawn self.now first.now.value (number + 1) 0 chief.new }
        ensures seat { IsDrawn self.now first.now.value (number + 1) number result }
    {
        let place = self.draw(&mut chief.place);
        Seat {
            place,
            number,
            last,
        }
    }
}
