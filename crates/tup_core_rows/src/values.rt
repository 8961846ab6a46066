//! What rows are made of: paths, lists of paths, texts and contents.
use std::alloc::Global;
use tup_path::{Bytes, Items, Path, PathFault, Paths, Text};
use tup_rows::RowFault;

pub(crate) fn text(alloc: Global, word: &str) -> Result<Text, RowFault> {
    Ok(Text::from_str(alloc, word)?)
}

pub(crate) fn content(alloc: Global, word: &[u8]) -> Result<Bytes, RowFault> {
    Ok(Bytes::new(Vec::from_slice(alloc, word)?))
}

/// The path that a text names from the top directory.
pub(crate) fn path(alloc: Global, word: &str) -> Result<Path, RowFault> {
    match Path::from_top(alloc, word) {
        Ok(path) => Ok(path),
        Err(PathFault::Memory) => Err(RowFault::Memory),
        Err(_) => Err(RowFault::OtherKind),
    }
}

/// Paths from the top directory, parted by blanks.
pub(crate) fn paths(alloc: Global, word: &str) -> Result<Paths, RowFault> {
    let mut paths = Items::new(alloc);
    for name in word.split_ascii_whitespace() {
        paths.push(path(alloc, name)?)?;
    }
    Ok(paths)
}
