//! What happens to a site in memory.
use crate::choice::Choice;
use tup_path::{Bytes, Path};

/// One change of a site, or one call of it that failed.
#[derive(Drop)]
pub(crate) enum Change {
    Put { path: Path, content: Bytes },
    Removed { path: Path },
    Settled,
    Written { at: usize, bytes: Bytes },
    Cut { len: u64 },
    Synced,
    Edited { path: Path, content: Option<Bytes> },
    Crashed { choice: Choice },
    Failed,
}
