//! The files below the folder.
ghost use Rattle.std.specs.Prelude.{IfOk};
ghost use Rattle.std.specs.List.Sorted.{IsSorted};
ghost use Rattle.tup_path.specs.Order.{by_names};

use crate::answers::Answers;
use crate::emptied::Emptied;
use crate::notes::Notes;
use std::alloc::Global;
use std::fs::File;
use std::rt::Files;
use tup_disk::{Disk, Listing, Refused, Seen};
use tup_path::Path;

/// What is known of the tree: the folders that were seen, whether the file system may ignore case,
/// once that was asked, what was answered for its files, and what is noted of them; which folders were noted because files in them
/// were removed; and the first place at which a pipe, a socket or a device stood where a file was asked for.
#[derive(Drop)]
pub(crate) struct Tree {
    pub seen: Seen,
    pub ignores_case: Option<bool>,
    pub answers: Answers,
    pub notes: Notes,
    pub emptied: Emptied,
    pub strange: Option<String>,
}

impl Tree {
    pub fn new(alloc: Global) -> Tree {
        Tree {
            seen: Seen::new(alloc),
            ignores_case: None,
            answers: Answers::new(alloc),
            notes: Notes::none(alloc),
            emptied: Emptied::none(alloc),
            strange: None,
        }
    }

    /// All files, in the order of paths.
    pub fn list<R: Files<File = File> + Clone + Drop>(
        &mut self,
        disk: &Disk<R>,
    ) -> Result<Vec<Path>, Refused>
        ensures { IfOk result (λ files. IsSorted by_names files.items) }
    {
        let Listing { paths, places } = disk.files(&mut self.seen)?;
        if self.answers.is_new() {
            self.notes.list(disk, &places)?;
        }
        self.answers.list(disk.alloc, places)?;
        Ok(paths)
    }
}
