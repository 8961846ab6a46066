//! What stands under a key.
use tup_path::Bytes;

/// What stands under a key.
#[derive(Drop)]
pub struct Entry {
    pub value: Bytes,
    /// The offset of the gate of the commit that put the value.
    pub origin: u64,
}
