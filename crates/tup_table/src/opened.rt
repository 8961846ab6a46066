//! What the bytes of a store stand for.
use crate::entries::Entries;

/// What the bytes of a store stand for.
#[derive(Drop)]
pub struct Opened {
    /// What its commits leave.
    pub entries: Entries,
    /// The offset of the gate behind the last commit, at which the next commit goes; the store may end there. In a store
    /// that is being compacted it is where this gate stands once that is done.
    pub gate: u64,
}
