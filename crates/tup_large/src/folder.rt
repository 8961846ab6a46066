//! Files of a folder at the top.
ghost use Rattle.std.specs.Prelude.{◌≡◌, ◌++◌, ◌∷◌, [], IfOk};

use std::alloc::{AllocError, Global};
use tup_path::{Bytes, Path, Text};

/// A file of this name and content in the folder of a name.
pub(crate) fn file_in(
    alloc: Global,
    folder: &str,
    name: &str,
    content: &str,
) -> Result<(Path, Bytes), AllocError>
    ensures { IfOk result
        (λ file. (file.0 ≡ folder.now ∷ name.now ∷ []) × (file.1 ≡ content.now)) }
{
    let path = path_in(alloc, folder, name)?;
    Ok((path, content_of(alloc, content)?))
}

/// The path of this name in the folder of a name.
pub(crate) fn path_in(alloc: Global, folder: &str, name: &str) -> Result<Path, AllocError>
    ensures { IfOk result (λ path. path ≡ folder.now ∷ name.now ∷ []) }
{
    below(alloc, below(alloc, Path::top(alloc), folder)?, name)
}

/// The path one name further down. The names of this crate are visible, and two deep at most, so
/// they are refused for want of memory alone.
pub(crate) fn below(alloc: Global, folder: Path, name: &str) -> Result<Path, AllocError>
    ensures { IfOk result (λ path. path ≡ folder ++ name.now ∷ []) }
{
    match folder.down(Text::from_str(alloc, name)?) {
        Ok(path) => Ok(path),
        Err(_) => Err(AllocError),
    }
}

/// A text as the content of a file.
pub(crate) fn content_of(alloc: Global, text: &str) -> Result<Bytes, AllocError>
    ensures { IfOk result (λ content. content ≡ text.now) }
{
    Ok(Bytes::new(Vec::from_slice(alloc, text.as_bytes())?))
}
