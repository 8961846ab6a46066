//! What a crash now may leave, without a choice of one's own.
ghost use Rattle.std.specs.Prelude.{◌≡◌, [], IfOk, OnOk, OnErr, Err};
ghost use Rattle.tup_site.specs.Choice.{IsChoice, chosen_world};
ghost use Rattle.tup_site.specs.declared.refused.MemRefused.TheVariants.{Memory};
ghost use Rattle.tup_site.specs.declared.tear.Tear.TheVariants.{Kept};

use crate::change::Change;
use crate::choice::{Changed, Choice};
use crate::memory::MemSite;
use crate::refused::MemRefused;
use crate::unsettled::{Bounds, is_loose, is_written_at};
use std::alloc::{AllocError, Global};
use std::collections::{BTreeMap, BTreeSet};
use tup_path::{Bytes, Items, Path};

/// What a crash does to all that isn't durable.
#[derive(Clone, Copy, Debug, PartialEq, Eq)]
pub enum Tear {
    /// All stays as it is.
    Kept,
    /// Files are gone, the store ends where it is durable, and its other loose bytes are 0.
    Lost,
    /// Files have the content `zz`, unless one above or below is there by then, and loose bytes are
    /// 255.
    Torn,
}

impl MemSite {
    ghost use Rattle.tup_site.specs.Memory.{tree_in, store_in, world_in, MayLeave};

    /// A choice that a crash now may leave. Where a crash can't tear so, since `zz` has the stamp of
    /// another content, all is kept.
    pub fn choice(&self, alloc: Global, tear: Tear) -> Result<Choice, MemRefused>
        ensures is_choice { IfOk result (λ choice. IsChoice (tree_in self.now) choice.tree) }
        ensures leaves { IfOk result (λ choice. MayLeave self.now choice) }
        ensures kept { tear ≡ Kept → IfOk result
            (λ choice. chosen_world (tree_in self.now) choice ≡ world_in self.now) }
        ensures memory { OnErr result (result ≡ Err Memory) }
    {
        match tear {
            Tear::Kept => Ok(self.kept(alloc)?),
            Tear::Lost => self.or_kept(alloc, self.lost(alloc)?),
            Tear::Torn => self.or_kept(alloc, self.torn(alloc)?),
        }
    }

    // The choice of what is there.
    fn kept(&self, alloc: Global) -> Result<Choice, AllocError>
        ensures tree { IfOk result (λ choice. choice.tree ≡ []) }
        ensures store { IfOk result (λ choice. choice.db ≡ store_in self.now) }
    {
        Ok(Choice {
            db: Bytes::new(Vec::from_slice(alloc, &self.store)?),
            tree: Items::new(alloc),
        })
    }

    // The choice itself where a crash now may leave it, else that of what is there.
    fn or_kept(&self, alloc: Global, choice: Choice) -> Result<Choice, MemRefused>
        ensures is_choice { IfOk result (λ choice. IsChoice (tree_in self.now) choice.tree) }
        ensures leaves { IfOk result (λ choice. MayLeave self.now choice) }
        ensures memory { OnErr result (result ≡ Err Memory) }
    {
        match self.allow(&choice) {
            Ok(()) => Ok(choice),
            Err(MemRefused::Memory) => Err(MemRefused::Memory),
            Err(_) => Ok(self.kept(alloc)?),
        }
    }

    fn lost(&self, alloc: Global) -> Result<Choice, AllocError> {
        let floor = Bounds::of(&self.changes).floor;
        Ok(Choice {
            db: self.left_store(alloc, floor, 0)?,
            tree: self.without_loose(alloc)?,
        })
    }

    fn torn(&self, alloc: Global) -> Result<Choice, AllocError> {
        Ok(Choice {
            db: self.left_store(alloc, self.store.len(), 255)?,
            tree: self.torn_files(alloc)?,
        })
    }

    // The store up to a length, where each byte that isn't durable is this one.
    fn left_store(&self, alloc: Global, len: usize, loose: u8) -> Result<Bytes, AllocError> {
        let floor = Bounds::of(&self.changes).floor;
        let mut left = Vec::new(alloc);
        for (place, byte) in self.store.iter().take(len).enumerate() {
            let is_durable = place < floor && !is_written_at(&self.changes, place);
            left.push(if is_durable { *byte } else { loose })?;
        }
        Ok(Bytes::new(left))
    }

    // The paths that aren't settled, in the order of paths.
    fn loose_paths(&self, alloc: Global) -> Result<BTreeSet<Path>, AllocError> {
        let mut paths = BTreeSet::new(alloc);
        for change in &self.changes {
            if let Change::Put { path, content: _ } | Change::Removed { path } = change {
                if is_loose(&self.changes, path) {
                    paths.insert(path.clone()?)?;
                }
            }
        }
        Ok(paths)
    }

    fn without_loose(&self, alloc: Global) -> Result<Changed, AllocError> {
        let mut left = Items::new(alloc);
        for path in &self.loose_paths(alloc)? {
            left.push((path.clone()?, None))?;
        }
        Ok(left)
    }

    fn torn_files(&self, alloc: Global) -> Result<Changed, AllocError> {
        let mut files = self.files.clone()?;
        let mut left = Items::new(alloc);
        for path in &self.loose_paths(alloc)? {
            if is_free(&files, path) {
                files.insert(path.clone()?, torn_content(alloc)?)?;
                left.push((path.clone()?, Some(torn_content(alloc)?)))?;
            }
        }
        Ok(left)
    }
}

// Whether no file is above or below a path.
fn is_free(files: &BTreeMap<Path, Bytes>, path: &Path) -> bool {
    !files
        .keys()
        .any(|file| file.is_below(path) || path.is_below(file))
}

fn torn_content(alloc: Global) -> Result<Bytes, AllocError> {
    Ok(Bytes::new(Vec::from_slice(alloc, b"zz")?))
}
