//! What a refresh gives.
use tup_path::{Items, Path, Paths};
use tup_rule::Reading;

/// The readings of a project's folders, and which of them are new.
#[derive(Drop)]
pub struct Refreshed {
    /// The readings of all folders that have a Tupfile, in the order of folders.
    pub all: Items<(Path, Reading)>,
    /// Those of them that were read now, in the same order.
    pub fresh: Items<(Path, Reading)>,
    /// The folders of kept readings that have no Tupfile any more, in their order.
    pub gone: Paths,
}
