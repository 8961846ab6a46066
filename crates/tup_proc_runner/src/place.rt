//! The place of a file that a log names.
ghost use Rattle.std.specs.Prelude.{◌≡◌, ◌∷◌, ◌++◌, IfOk};
ghost use Rattle.tup_proc_runner.specs.Told as specs;

use std::alloc::{AllocError, Global};
use tup_path::{Path, PathFault, Text};

/// Where a text of a log leads from a folder, with the root before it. One that names no path stands for itself.
pub(crate) fn place_of(
    alloc: Global,
    root: &Text,
    dir: &Path,
    text: &Text,
) -> Result<Text, PathFault>
    ensures { IfOk result (λ place. place ≡ specs.place_of root.now dir.now text.now) }
{
    match Path::resolve(alloc, dir, text) {
        Ok(path) => Ok(below(root, &path.show(alloc)?)?),
        Err(PathFault::Memory) => Err(PathFault::Memory),
        Err(_) => Ok(text.clone()?),
    }
}

/// A text behind a folder's and a slash.
fn below(folder: &Text, text: &Text) -> Result<Text, AllocError>
    ensures { IfOk result (λ place. place ≡ folder.now ++ 47 ∷ text.now) }
{
    let mut place = folder.clone()?;
    place.push_str("/")?;
    place.push_str(text.as_str())?;
    Ok(place)
}
