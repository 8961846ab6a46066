//! What stands in the upper folder.
use std::alloc::Global;
use std::str;
use tup_child::Failure;
use tup_path::{Path, PathFault};

/// What something in the upper folder is.
#[derive(Clone, Copy, PartialEq, Eq)]
pub(crate) enum Kind {
    File,
    Folder,
    /// The mark that a source was removed.
    Mark,
    /// A link, a pipe, a socket or a device, which no output can be.
    Strange,
}

/// Something that stands in the upper folder.
#[derive(Drop)]
pub(crate) struct Entry {
    pub(crate) kind: Kind,
    pub(crate) path: Path,
}

/// What stands in the upper folder.
#[derive(Drop)]
pub(crate) struct Entries {
    pub(crate) list: Vec<Entry>,
    /// How many files have names that no path has.
    pub(crate) lost: u32,
}

impl Entries {
    pub(crate) fn none(alloc: Global) -> Entries {
        Entries {
            list: Vec::new(alloc),
            lost: 0,
        }
    }

    /// The entries of a list, which end with a zero byte each and begin with the letters of their kinds.
    pub(crate) fn read(alloc: Global, list: &[u8]) -> Result<Entries, Failure> {
        let mut entries = Entries::none(alloc);
        for line in list.split(|byte| *byte == 0) {
            if let Some((letter, name)) = line.split_first() {
                entries.add(alloc, kind_of(*letter), name)?;
            }
        }
        Ok(entries)
    }

    /// Adds what has a name.
    pub(crate) fn add(&mut self, alloc: Global, kind: Kind, name: &[u8]) -> Result<(), Failure> {
        match path_of(alloc, name)? {
            Some(path) => self.list.push(Entry { kind, path })?,
            None if is_lost(kind) => self.lost = self.lost.saturating_add(1),
            None => {}
        }
        Ok(())
    }
}

/// The kind that a letter of `find` says.
fn kind_of(letter: u8) -> Kind {
    match letter {
        b'f' => Kind::File,
        b'd' => Kind::Folder,
        b'c' => Kind::Mark,
        _ => Kind::Strange,
    }
}

/// Whether something isn't kept where no path has its name: no folder, and no mark that a source was removed.
fn is_lost(kind: Kind) -> bool {
    kind != Kind::Folder && kind != Kind::Mark
}

/// The path of a name.
fn path_of(alloc: Global, name: &[u8]) -> Result<Option<Path>, Failure> {
    let Ok(text) = str::from_utf8(name) else {
        return Ok(None);
    };
    match Path::from_top(alloc, text) {
        Ok(path) => Ok(Some(path)),
        Err(PathFault::Memory) => Err(Failure::Memory),
        Err(_) => Ok(None),
    }
}
