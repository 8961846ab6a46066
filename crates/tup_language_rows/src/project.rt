//! The project that rows give.
use crate::draft::{bare, numbered, pieces_of, tops};
use std::alloc::{AllocError, Global};
use tup_link::{LinkFault, link};
use tup_path::{Items, Path};
use tup_rows::{RowFault, Words, set};
use tup_rule::{Draft, Drafts, Reading, Rules};

/// The drafts of the rows so far, by the folders that they are read in.
#[derive(Drop)]
pub(crate) struct Project {
    folders: Vec<(Path, Drafts)>,
}

impl Project {
    pub(crate) fn new(alloc: Global) -> Project {
        Project {
            folders: Vec::new(alloc),
        }
    }

    /// The rules of the project.
    pub(crate) fn link(&self, alloc: Global) -> Result<Rules, LinkFault> {
        let readings = self.readings(alloc)?;
        link(alloc, &readings)
    }

    fn readings(&self, alloc: Global) -> Result<Vec<(Path, Reading)>, AllocError> {
        let mut readings = Vec::new(alloc);
        for (dir, drafts) in &self.folders {
            let reading = Reading::new(drafts.clone()?, Items::new(alloc))?;
            readings.push((dir.clone()?, reading))?;
        }
        Ok(readings)
    }

    /// Begins the reading of a folder.
    pub(crate) fn begin(&mut self, alloc: Global, said: &Words, dir: Path) {
        if self.folders.push((dir, Items::new(alloc))).is_err() {
            said.fail(RowFault::Memory);
        }
    }

    /// Adds a draft to the last reading.
    pub(crate) fn add(&mut self, said: &Words, draft: Draft) {
        match self.folders.last_mut() {
            Some((_, drafts)) => said.list(drafts, draft),
            None => said.fail(RowFault::OtherKind),
        }
    }

    /// Adds so many drafts to the last reading; each makes a file of the next one's.
    pub(crate) fn add_chain(&mut self, alloc: Global, said: &Words, dir: &Path, count: u64) {
        for number in 0..count {
            self.add(said, link_of(alloc, said, dir, number));
        }
    }

    /// Adds so many drafts to the last reading, with so many inputs each.
    pub(crate) fn add_wide(&mut self, alloc: Global, said: &Words, count: u64, inputs: u64) {
        for number in 0..count {
            self.add(said, wide(alloc, said, number, inputs));
        }
    }
}

/// A draft that makes the file of its number from the file of the next number.
fn link_of(alloc: Global, said: &Words, dir: &Path, number: u64) -> Draft {
    let mut draft = named(alloc, said, number);
    let before = numbered(alloc, said, dir, number.saturating_add(1));
    said.list(&mut draft.inputs, before);
    said.list(&mut draft.outputs, numbered(alloc, said, dir, number));
    draft
}

fn wide(alloc: Global, said: &Words, number: u64, inputs: u64) -> Draft {
    let mut draft = named(alloc, said, number);
    set(&mut draft.inputs, tops(alloc, said, inputs));
    draft
}

/// A draft whose command is its number.
fn named(alloc: Global, said: &Words, number: u64) -> Draft {
    let mut draft = bare(alloc, Path::top(alloc));
    match format!(in alloc; "{number}") {
        Ok(text) => set(&mut draft.pieces, pieces_of(alloc, said, &text)),
        Err(_) => said.fail(RowFault::Memory),
    }
    draft
}
