//! What a commit takes.
use tup_path::Bytes;

/// A commit as it is written.
#[derive(Drop)]
pub(crate) struct Due {
    /// Its length, its changes, and the next gate.
    pub bytes: Bytes,
    /// How many bytes the entries take after it.
    pub size: u64,
    /// Whether the store is compacted first.
    pub first: bool,
}
