//! A path as its folder and its name.
ghost use Rattle.std.specs.Prelude.{IfOk};
ghost use Rattle.tup_readings.specs.Index.{IsParted};

use std::alloc::{AllocError, Global};
use tup_path::{Path, Text};

/// The folder of a path and its name in it; none for the top.
pub(crate) fn parted(alloc: Global, path: &Path) -> Result<Option<(Path, Text)>, AllocError>
    ensures { IfOk result (IsParted path.now) }
{
    let Some((name, _)) = path.names().split_last() else {
        return Ok(None);
    };
    let name = name.clone()?;
    match path.parent(alloc) {
        Ok(Some(dir)) => Ok(Some((dir, name))),
        Ok(None) => Ok(None),
        Err(_) => Err(AllocError),
    }
}
