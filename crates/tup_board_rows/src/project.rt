//! The project that rows give.
use std::alloc::Global;
use tup_given::Project;
use tup_path::{Items, Path};
use tup_rows::{RowFault, Words, set};

/// What the rows so far gave.
#[derive(Drop)]
pub(crate) struct Given {
    pub(crate) project: Project,
    /// The source that grows once it was scanned, and how many bytes it has then.
    pub(crate) large: Option<(Path, u64)>,
}

impl Given {
    /// Nothing yet.
    pub(crate) fn new(alloc: Global) -> Given {
        Given {
            project: Project::new(alloc),
            large: None,
        }
    }

    /// Forgets what the rows gave.
    pub(crate) fn begin_anew(&mut self, alloc: Global) -> Words {
        set(self, Given::new(alloc));
        Words::new(alloc)
    }

    /// Has a source grow to so many bytes once it was scanned.
    pub(crate) fn set_large(&mut self, alloc: Global, said: &Words) -> Words {
        let large = (said.path_at(alloc, 0), said.number_at(1));
        set(&mut self.large, Some(large));
        Words::new(alloc)
    }
}

/// The numbers of rules that a word of a row is, parted by blanks.
pub(crate) fn reach_at(alloc: Global, said: &Words, at: usize) -> Items<u32> {
    let mut numbers = Items::new(alloc);
    for word in said.str_at(at).split_ascii_whitespace() {
        said.list(&mut numbers, number_of(said, word));
    }
    numbers
}

/// The number that a word is. Where it is none the row differs, and this is 0.
fn number_of(said: &Words, word: &str) -> u32 {
    match word.parse() {
        Ok(number) => number,
        Err(_) => {
            said.fail(RowFault::OtherKind);
            0
        }
    }
}
