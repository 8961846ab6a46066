//! What is seen of a file that isn't opened.

use std::fs::Metadata;
use std::os::unix::fs::MetadataExt;

/// How many nanoseconds a second has.
const SECOND: u64 = 1_000_000_000;

/// Which file of the system one is, whatever its name is.
#[derive(Clone, Copy, PartialEq, Eq)]
pub struct Inode {
    pub device: u64,
    pub number: u64,
}

/// What is seen of a file that isn't opened. Times are in nanoseconds since 1970.
#[derive(Clone, Copy, PartialEq, Eq)]
pub struct Stat {
    pub inode: Inode,
    pub len: u64,
    /// When it was last written. Its owner may set that to any time.
    pub written: u64,
    /// When it was last written, renamed, or changed in any other way. Only the system sets that. It is 0 where that can't be told.
    pub changed: u64,
}

/// What the system tells of a file.
pub(crate) fn stat_of(found: &Metadata) -> Stat {
    Stat {
        inode: Inode {
            device: found.dev(),
            number: found.ino(),
        },
        len: found.len(),
        written: nanos(found.mtime(), found.mtime_nsec()),
        changed: nanos(found.ctime(), found.ctime_nsec()),
    }
}

/// A time in nanoseconds since 1970: 0 before that, and the last number once they don't fit.
fn nanos(seconds: i64, more: i64) -> u64 {
    match (u64::try_from(seconds), u64::try_from(more)) {
        (Ok(seconds), Ok(more)) => seconds.saturating_mul(SECOND).saturating_add(more),
        _ => 0,
    }
}
