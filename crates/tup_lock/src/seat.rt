//! A seat of a lock.
ghost use Rattle.std.specs.Prelude.{◌≡◌, ◌∷◌, []};

use crate::lock::Place;
use crate::logged::Logged;
use std::snapshot::Snapshot;

/// A seat of a lock: it has the value as this seat left it.
#[derive(Drop)]
pub struct Seat<T: Logged> {
    pub(crate) place: Place<T>,
    pub(crate) number: u32,
    pub(crate) last: Snapshot<T>,
    ghost seated: { place.me.0.lasts ≡ (number, last.value) ∷ [] },
}

impl<T: Logged> Seat<T> {
    /// Its number.
    pub fn number(&self) -> u32
        ensures { result ≡ self.now.number }
    {
        self.number
    }
}
