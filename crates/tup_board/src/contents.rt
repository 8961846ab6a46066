//! The contents that a board keeps, so that what many commands ask for is read and digested once.
ghost use Rattle.std.specs.Prelude.{◌≡◌, ◌≤◌, [], length, None, Some, IfOk};
ghost use Rattle.tup_board.specs.Contents.{AddsAtMost, FitsRoom, kept, kept_as, most_kept};

use std::alloc::{AllocError, Global};
use std::collections::BTreeMap;
use tup_path::Bytes;
use tup_stamp::Stamp;

/// At most so many bytes of contents are kept: 64 MiB.
const MOST_KEPT: usize = 67_108_864;

/// Contents by their stamps, and for how many bytes more there is room.
#[derive(Drop)]
pub(crate) struct Contents {
    by_stamp: BTreeMap<Stamp, Bytes>,
    room: usize,
}

impl Contents {
    /// No content is kept. It takes no memory.
    pub(crate) fn new(alloc: Global) -> Contents
        ensures none { result.by_stamp.entries ≡ [] }
        ensures room { result.room ≡ most_kept }
    {
        Contents {
            by_stamp: BTreeMap::new(alloc),
            room: MOST_KEPT,
        }
    }

    /// A copy of the content that is kept under a stamp, if both are there.
    pub(crate) fn copy(&self, stamp: Option<Stamp>) -> Result<Option<Bytes>, AllocError>
        ensures { IfOk result (λ copy. copy ≡ kept_as self.now stamp) }
    {
        match stamp {
            Some(stamp) => self.copy_of(&stamp),
            None => Ok(None),
        }
    }

    /// A copy of the content that is kept under a stamp, if there is one.
    fn copy_of(&self, stamp: &Stamp) -> Result<Option<Bytes>, AllocError>
        ensures { IfOk result (λ copy. copy ≡ kept self.now stamp.now) }
    {
        match self.by_stamp.get(stamp) {
            Some(content) => Ok(Some(content.clone()?)),
            None => Ok(None),
        }
    }

    /// Keeps a copy of what was found under its stamp, if there is something, and room and memory for it.
    pub(crate) fn keep(&mut self, stamp: Option<Stamp>, found: &Option<Bytes>)
        ensures adds { AddsAtMost stamp found.now self.old self.new }
        ensures room { FitsRoom self.old → FitsRoom self.new }
    {
        if let (Some(stamp), Some(content)) = (stamp, found) {
            self.keep_content(stamp, content);
        }
    }

    /// Keeps a copy of a content under a stamp, if there is room and memory for it.
    fn keep_content(&mut self, stamp: Stamp, content: &Bytes)
        ensures adds { AddsAtMost (Some stamp) (Some content.now) self.old self.new }
        ensures room { FitsRoom self.old → FitsRoom self.new }
    {
        if content.as_slice().len() > self.room {
            return;
        }
        if let Ok(copy) = content.clone() {
            self.take(stamp, copy);
        }
    }

    /// Takes a content, for which there is room, if there is memory for one more.
    fn take(&mut self, stamp: Stamp, content: Bytes)
        requires { length content ≤ self.old.room }
        ensures adds { AddsAtMost (Some stamp) (Some content) self.old self.new }
        ensures room { FitsRoom self.old → FitsRoom self.new }
    {
        let size = content.as_slice().len();
        if self.by_stamp.insert(stamp, content).is_ok() {
            self.room -= size;
        }
    }
}
