//! Where a worker passes between the calls of its board.

/// What a seat has just done.
#[derive(Clone, Copy, PartialEq, Eq)]
pub enum When {
    /// It has claimed a rule.
    Claimed,
    /// Its command has asked.
    Asked,
    /// Its command has ended.
    Finished,
}

/// What each worker passes after a call of its board. A test holds one there until another has come on.
pub trait Gate: Sync {
    /// Passes.
    fn pass(&self, seat: u32, when: When);
}

/// The gate that holds nobody.
pub struct Open;

impl Gate for Open {
    fn pass(&self, seat: u32, when: When) {
        let _ = (seat, when);
    }
}
