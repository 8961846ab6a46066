//! Many files at once.
use std::alloc::{AllocError, Global};
use tup_path::{Bytes, Path, Text};
use tup_rows::{RowFault, Words};
use tup_site::MemSite;

/// A user writes so many empty files into a folder, whose names are the numbers from 0 on.
pub(crate) fn write_many(alloc: Global, site: &mut MemSite, said: &Words) -> Words {
    let folder = said.path_at(alloc, 0);
    for number in 0..said.number_at(1) {
        write_empty(alloc, site, said, numbered(alloc, &folder, number));
    }
    Words::done(alloc)
}

/// Writes an empty file.
fn write_empty(alloc: Global, site: &mut MemSite, said: &Words, path: Result<Path, AllocError>) {
    let is_written = match path {
        Ok(path) => site
            .edit(alloc, path, Some(Bytes::new(Vec::new(alloc))))
            .is_ok(),
        Err(_) => false,
    };
    if !is_written {
        said.fail(RowFault::Memory);
    }
}

/// The path of this number in a folder.
fn numbered(alloc: Global, folder: &Path, number: u64) -> Result<Path, AllocError> {
    let name = format!(in alloc; "{number}")?;
    let text = Text::from_str(alloc, name.as_str())?;
    match folder.join(alloc, &text) {
        Ok(path) => Ok(path),
        Err(_) => Err(AllocError),
    }
}
