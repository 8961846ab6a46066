//! What a scan found, as a row says it.
use std::alloc::Global;
use tup_path::{Bytes, Items, Path};
use tup_rows::Words;
use tup_scan::Seen;
use tup_stamp::{Stamp, stamp_of};

/// So many files, as a scan sees them.
pub fn seen(alloc: Global, said: &Words, count: usize) -> Seen {
    let mut files = Items::new(alloc);
    for at in 0..count {
        said.list(&mut files, file(alloc, said, at.saturating_mul(2)));
    }
    Seen {
        files,
        config: config(alloc, said, count),
    }
}

/// The file that two words say, with the stamp of its content.
fn file(alloc: Global, said: &Words, at: usize) -> (Path, Stamp) {
    (
        said.path_at(alloc, at),
        stamp_of(said.word_at(at.saturating_add(1))),
    )
}

/// The content of tup.config among so many files.
pub fn config(alloc: Global, said: &Words, count: usize) -> Option<Bytes> {
    for at in 0..count {
        let at = at.saturating_mul(2);
        if said.str_at(at) == "tup.config" {
            return Some(Bytes::new(said.bytes_at(alloc, at.saturating_add(1))));
        }
    }
    None
}
