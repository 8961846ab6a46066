//! The files that a command wrote.
ghost use Rattle.std.specs.Prelude.{◌≡◌, [], None, Some, IfOk, OnOk};
ghost use Rattle.std.specs.BTreeMap.{get as entry_of};
ghost use Rattle.tup_path.specs.Order.{by_names};
ghost use Rattle.tup_mini.specs.Kept.{path_of, own_content, with_write};
ghost use Rattle.tup_mini.specs.Places.{HasPlaces};

use std::alloc::{AllocError, Global};
use std::collections::BTreeMap;
use tup_path::{Bytes, Items, Path, PathFault, Text};
use tup_runner::Writes;

/// The files that a command wrote, in the order of the first write to each path.
#[derive(Drop)]
pub(crate) struct Written {
    /// The folder from which texts name paths.
    dir: Path,
    writes: Vec<(Text, Bytes)>,
    /// The place of the write to each path that was written.
    places: BTreeMap<Path, usize>,
    ghost placed: { HasPlaces dir writes.items places },
}

impl Written {
    /// Nothing written yet.
    pub(crate) fn new(alloc: Global, dir: &Path) -> Result<Written, AllocError>
        ensures dir { IfOk result (λ written. written.dir ≡ dir.now) }
        ensures nothing { IfOk result (λ written. written.writes.items ≡ []) }
    {
        Ok(Written {
            dir: dir.clone()?,
            writes: Vec::new(alloc),
            places: BTreeMap::new(alloc),
        })
    }

    /// What was written to the path of a text, if anything.
    pub(crate) fn get(&self, alloc: Global, text: &Text) -> Result<Option<Bytes>, AllocError>
        ensures { IfOk result (λ found.
            found ≡ own_content self.now.dir self.now.writes.items text.now) }
    {
        let Some(path) = named(alloc, &self.dir, text)? else {
            return Ok(None);
        };
        match self.places.get(&path) {
            Some(at) => Ok(Some(self.writes[*at].1.clone()?)),
            None => Ok(None),
        }
    }

    /// Writes a file. A path that was written keeps its place and its first text.
    pub(crate) fn put(
        &mut self,
        alloc: Global,
        text: &Text,
        content: Bytes,
    ) -> Result<(), AllocError>
        ensures dir { self.new.dir ≡ self.old.dir }
        ensures written { OnOk result (self.new.writes.items
            ≡ with_write self.old.dir self.old.writes.items text.now content) }
    {
        let Some(path) = named(alloc, &self.dir, text)? else {
            self.writes.push((text.clone()?, content))?;
            return Ok(());
        };
        match self.places.get(&path).copied() {
            Some(at) => {
                let write = &mut self.writes[at];
                write.1 = content;
                Ok(())
            }
            None => self.add(path, text.clone()?, content),
        }
    }

    /// Writes a file to a path that wasn't written.
    fn add(&mut self, path: Path, text: Text, content: Bytes) -> Result<(), AllocError>
        requires named { path_of self.old.dir text ≡ Some path }
        requires fresh { entry_of by_names self.old.places path ≡ None }
        ensures dir { self.new.dir ≡ self.old.dir }
        ensures written { OnOk result (self.new.writes.items
            ≡ with_write self.old.dir self.old.writes.items text content) }
    {
        self.writes.reserve(1)?;
        self.places.insert(path, self.writes.len())?;
        self.writes.push((text, content))?;
        Ok(())
    }

    /// The files with their contents; nothing is copied.
    pub(crate) fn into_writes(self) -> Writes
        ensures { result ≡ self.writes.items }
    {
        Items::from_vec(self.writes)
    }
}

/// The path that a text names from a folder, if any.
fn named(alloc: Global, dir: &Path, text: &Text) -> Result<Option<Path>, AllocError>
    ensures { IfOk result (λ path. path ≡ path_of dir.now text.now) }
{
    match Path::resolve(alloc, dir, text) {
        Ok(path) => Ok(Some(path)),
        Err(PathFault::Memory) => Err(AllocError),
        Err(_) => Ok(None),
    }
}
