//! What happens to a site in memory between two calls.
use tup_path::{Bytes, Items, Path};

/// Paths with the files that they get, or `None` where they get none.
pub type Changed = Items<(Path, Option<Bytes>)>;

/// A world that a crash may leave: the bytes of the store, and the files of the tree that differ
/// from the present ones, each with its content or as absent.
#[derive(Drop)]
pub struct Choice {
    pub db: Bytes,
    pub tree: Changed,
}

/// What happens to a site between two calls.
#[derive(Drop)]
pub enum Deed {
    /// Somebody sets a file, or takes it away.
    Edit { path: Path, content: Option<Bytes> },
    /// The machine stops, and leaves this.
    Crash { choice: Choice },
}
