//! The folder above the sources that has what the command wrote.
use std::fs::File;
use std::rt::Files;
use tup_child::{Failure, Tree};
use tup_path::Path;

/// The place of what was written at a path.
pub(crate) fn written<R: Files<File = File> + Clone + Drop>(
    tree: &Tree<R>,
    path: &Path,
) -> Result<String, Failure> {
    let up = tree.staged("up")?;
    tree.below(up.as_str(), path)
}

/// What was written at a path.
pub(crate) fn written_content<R: Files<File = File> + Clone + Drop>(
    tree: &Tree<R>,
    path: &Path,
) -> Result<Vec<u8>, Failure> {
    let place = written(tree, path)?;
    tree.content(place.as_str())
}
