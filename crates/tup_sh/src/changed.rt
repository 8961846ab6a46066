//! What was changed while a command ran: so it isn't known what the command saw.
use crate::ground::Ground;
use crate::mark::{Moment, now};
use std::fs;
use std::fs::File;
use std::rt::Files;
use tup_child::{Failure, Tree};
use tup_path::{Path, Text};

/// The first of these paths whose file or link was changed from a moment on until now, if there is one. The rule's own outputs were
/// hidden. A time that is still to come, as a wrong clock leaves it, says nothing.
pub(crate) fn changed<R: Files<File = File> + Clone + Drop>(
    tree: &Tree<R>,
    ground: &Ground,
    since: Moment,
    paths: &[Path],
) -> Result<Option<Text>, Failure> {
    let until = now(tree)?;
    for path in paths {
        if !tree.own.contains(path) && is_changed(tree, ground, since, until, path)? {
            return match path.show(tree.alloc) {
                Ok(text) => Ok(Some(text)),
                Err(_) => Err(Failure::Memory),
            };
        }
    }
    Ok(None)
}

/// Whether the file or link at a path was changed behind one moment and not behind another, as far as its file system tells that.
fn is_changed<R: Files<File = File> + Clone + Drop>(
    tree: &Tree<R>,
    ground: &Ground,
    since: Moment,
    until: Moment,
    path: &Path,
) -> Result<bool, Failure> {
    let place = tree.source(path)?;
    Ok(match fs::symlink_metadata(&tree.rt, place.as_str()) {
        Ok(found) => {
            let moment = Moment::of(&found);
            !found.is_dir() && moment > since && moment <= until && ground.is_timed(place.as_str())
        }
        Err(_) => false,
    })
}
