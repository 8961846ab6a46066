//! The contents that a site in memory knows, by their stamps.
ghost use Rattle.std.specs.Prelude.{◌≡◌, ◌≢◌, [], ◌∷◌, None, Some, cond, is_some, not, IsTrue, IfOk, OnOk, OnErr, Err};
ghost use Rattle.std.specs.BTreeMap.{is_at};
ghost use Rattle.tup_site.specs.Known.{MayJoin};
ghost use Rattle.tup_site.specs.Held.{by_stamp, under, may_take, IsHeld};
ghost use Rattle.tup_site.specs.declared.refused.MemRefused.TheVariants.{NotATree, SameStamp, NotAnImage};

use crate::refused::MemRefused;
use std::alloc::{AllocError, AllocFailed, Global};
use std::collections::BTreeMap;
use tup_path::Bytes;
use tup_stamp::{Stamp, stamp_of};

/// Every content that ever stood in the tree, by its stamp.
#[derive(Drop)]
pub(crate) struct Known {
    contents: BTreeMap<Stamp, Bytes>,
}

impl Known {
    pub fn new(alloc: Global) -> Known
        ensures { result.contents.entries ≡ [] }
    {
        Known {
            contents: BTreeMap::new(alloc),
        }
    }

    /// The same contents once more.
    pub fn copy(&self) -> Result<Known, AllocError>
        ensures { IfOk result (λ copy. copy.contents.entries ≡ self.now.contents.entries) }
    {
        Ok(Known {
            contents: self.contents.clone()?,
        })
    }

    /// Takes up a content, which may have the stamp of no other.
    pub fn take_up(&mut self, content: &Bytes) -> Result<(), MemRefused>
        ensures held { OnOk result ((contents : _) → IsHeld self.old.contents.entries contents
            → IsHeld self.new.contents.entries (content.now ∷ contents)) }
        ensures same_stamp { result ≡ Err SameStamp → (contents : _)
            → IsHeld self.old.contents.entries contents → ¬ MayJoin contents content.now }
        ensures no_tree { result ≢ Err NotATree }
        ensures no_image { result ≢ Err NotAnImage }
    {
        let stamp = stamp_of(content.as_slice());
        if !self.may_take(stamp, content) {
            return Err(MemRefused::SameStamp);
        }
        self.take(stamp, content.clone()?)?;
        Ok(())
    }

    /// Whether no other content has this stamp.
    pub fn may_take(&self, stamp: Stamp, content: &Bytes) -> bool
        ensures { result ≡ may_take (under self.now.contents.entries stamp) content.now }
    {
        match self.contents.get(&stamp) {
            Some(other) => other == content,
            None => true,
        }
    }

    /// Takes a content up under its stamp, and answers whether none stood there.
    pub fn take(
        &mut self,
        stamp: Stamp,
        content: Bytes,
    ) -> Result<bool, AllocFailed<(Stamp, Bytes)>>
        ensures taken { OnOk result ((key : _) → under self.new.contents.entries key
            ≡ cond (is_at (by_stamp stamp) key) (Some content)
            (under self.old.contents.entries key)) }
        ensures is_new { IfOk result
            (λ is_new. is_new ≡ not (is_some (under self.old.contents.entries stamp))) }
        ensures unchanged { OnErr result (self.new.contents.entries ≡ self.old.contents.entries) }
    {
        Ok(self.contents.insert(stamp, content)?.is_none())
    }

    /// Undoes a `take` that answered so.
    pub fn undo(&mut self, stamp: Stamp, is_new: bool)
        ensures { (key : _) → under self.new.contents.entries key
            ≡ cond is_new
            (cond (is_at (by_stamp stamp) key) None (under self.old.contents.entries key))
            (under self.old.contents.entries key) }
    {
        if is_new {
            self.contents.remove(&stamp);
        }
    }
}
