//! The calls of `folders.rows` and `project.rows`.
ghost use Rattle.std.specs.Prelude.{IsTrue, IfOk};
ghost use Rattle.std.specs.FinMap as finite;
ghost use Rattle.tup_path.specs.Order.{by_names};

use crate::linked::linked;
use crate::readings::shown;
use std::alloc::{AllocError, Global};
use std::{fs, io, mem};
use tup_path::{ByPath, Bytes, Files};
use tup_project::read_all;
use tup_readings::read_folders;
use tup_rows::{Answers, RowFault, Words, try_file_by};

pub(crate) fn try_rows<R: fs::Files + Print>(rt: &R, alloc: Global, name: &str) -> io::Result<()> {
    try_file_by(rt, alloc, name, Folders::new(alloc))
}

/// The sources that the rows above have put.
#[derive(Drop)]
struct Folders {
    files: ByPath<Bytes>,
}

impl Folders {
    /// No sources.
    fn new(alloc: Global) -> Folders {
        Folders {
            files: ByPath::new(alloc),
        }
    }

    /// Puts a source, in place of the one at its path.
    fn file(&mut self, alloc: Global, said: &Words) -> Words {
        let path = said.path_at(alloc, 0);
        match self.files.insert(path, Bytes::new(said.bytes_at(alloc, 1))) {
            Ok(()) => Words::new(alloc),
            Err(_) => Words::none(alloc, RowFault::Memory),
        }
    }

    /// The readings of all folders of the sources. The next project begins without any.
    fn folders(&mut self, alloc: Global) -> Words {
        match self.sources(alloc) {
            Ok(sources) => {
                let found = read_folders(alloc, &sources);
                let words = shown(alloc, &found);
                drop(found);
                words
            }
            Err(_) => Words::none(alloc, RowFault::Memory),
        }
    }

    /// The rules of the sources. The next project begins without any.
    fn rules(&mut self, alloc: Global) -> Words {
        match self.sources(alloc) {
            Ok(sources) => {
                let found = read_all(alloc, &sources);
                let words = linked(alloc, &found);
                drop(found);
                words
            }
            Err(_) => Words::none(alloc, RowFault::Memory),
        }
    }

    /// Takes the sources.
    fn sources(&mut self, alloc: Global) -> Result<Files, AllocError>
        ensures { IfOk result (λ files. IsTrue (finite.is_sorted by_names files)) }
    {
        mem::replace(&mut self.files, ByPath::new(alloc)).into_items(alloc)
    }
}

impl Answers for Folders {
    /// Makes one of the calls that the files in `data/` name.
    fn answer(&mut self, alloc: Global, call: &str, said: &Words) -> Result<Words, RowFault> {
        Ok(match call {
            "file" => self.file(alloc, said),
            "folders" => self.folders(alloc),
            "rules" => self.rules(alloc),
            _ => Words::none(alloc, RowFault::NoSuchCall),
        })
    }
}
