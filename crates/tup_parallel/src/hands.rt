//! Seats with their runners.
ghost use Rattle.std.specs.Prelude.{◌≡◌, ◌≤◌, ℕ, [], length, map, IfOk};
ghost use Rattle.std.specs.Vec.{vec_capacity};
ghost use Rattle.tup_parallel.specs.Hands.{HasRoom, runner_of, seat_of};

use std::alloc::{AllocError, Global};
use tup_workers::Hand;

/// All memory that a crew at work needs beside its lock: for its hands, and for what they are taken apart into.
#[derive(Drop)]
pub(crate) struct Room<T, R> {
    pub(crate) hands: Vec<Hand<T, R>>,
    pub(crate) seats: Vec<T>,
    pub(crate) runners: Vec<R>,
}

impl<T: Drop, R: Drop> Room<T, R> {
    /// The room for so many hands.
    pub(crate) fn of(alloc: Global, count: usize) -> Result<Room<T, R>, AllocError>
        ensures { IfOk result (HasRoom count) }
    {
        Ok(Room {
            hands: Vec::with_capacity(alloc, count)?,
            seats: Vec::with_capacity(alloc, count)?,
            runners: Vec::with_capacity(alloc, count)?,
        })
    }
}

/// Each seat with the runner of its place. There are 16 at most, so taking the first of the rest is cheap.
pub(crate) fn hands_of<T: Drop, R: Drop>(
    mut hands: Vec<Hand<T, R>>,
    mut seats: Vec<T>,
    mut runners: Vec<R>,
) -> Vec<Hand<T, R>>
    requires count { length runners.items ≡ length seats.items }
    requires none { hands.items ≡ [] }
    requires room { length seats.items ≤ vec_capacity hands }
    ensures seats { map seat_of result.items ≡ seats.items }
    ensures runners { map runner_of result.items ≡ runners.items }
{
    while !seats.is_empty() {
        let seat = seats.remove(0);
        let runner = runners.remove(0);
        hands.push_reserved(Hand { seat, runner });
    }
    hands
}

/// The seats of hands, and their runners.
pub(crate) fn parted<T: Drop, R: Drop>(
    mut hands: Vec<Hand<T, R>>,
    mut seats: Vec<T>,
    mut runners: Vec<R>,
) -> (Vec<T>, Vec<R>)
    requires none { (seats.items ≡ []) × (runners.items ≡ []) }
    requires room { (length hands.items ≤ vec_capacity seats) × (length hands.items ≤ vec_capacity runners) }
    ensures seats { result.0.items ≡ map seat_of hands.items }
    ensures runners { result.1.items ≡ map runner_of hands.items }
{
    while !hands.is_empty() {
        let Hand { seat, runner } = hands.remove(0);
        seats.push_reserved(seat);
        runners.push_reserved(runner);
    }
    (seats, runners)
}
