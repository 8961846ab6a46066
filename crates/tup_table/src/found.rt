//! Where the entries of a store were read.
use crate::compacting::Snapshot;
use crate::opened::Opened;

/// Where the entries of a store were read.
#[derive(Drop)]
pub(crate) enum Found {
    /// In the low area, behind a closed switch.
    Low(Opened),
    /// In the high area, behind an open switch: the store is being compacted.
    High {
        /// What it is compacted to.
        snapshot: Snapshot,
        /// The offset of the gate behind the commits of the high area; the store may end there.
        end: u64,
    },
}
