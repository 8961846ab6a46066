//! Files by their paths.
ghost use Rattle.std.specs.Prelude.{◌≡◌, true, IsTrue, IfOk, OnOk};
ghost use Rattle.std.specs.FinMap as finite;
ghost use Rattle.tup_path.specs.Order.{by_names};

use std::alloc::{AllocError, Global};
use std::collections::BTreeMap;
use tup_path::{Bytes, Files, Items, Path};

/// Files by their paths.
pub(crate) type Contents = BTreeMap<Path, Bytes>;

/// These files by their paths.
pub(crate) fn contents(alloc: Global, files: &Files) -> Result<Contents, AllocError>
    ensures { IfOk result (λ contents. finite.is_sorted by_names contents.entries ≡ true) }
{
    let mut contents = BTreeMap::new(alloc);
    for (path, content) in files.as_slice() {
        put(&mut contents, path.clone()?, content.clone()?)?;
    }
    Ok(contents)
}

/// Puts a file in the place of what stands there.
pub(crate) fn put(contents: &mut Contents, path: Path, content: Bytes) -> Result<(), AllocError>
    ensures { OnOk result (finite.is_sorted by_names contents.old.entries ≡ true
        → finite.is_sorted by_names contents.new.entries ≡ true) }
{
    contents.insert(path, content)?;
    Ok(())
}

/// These files in the order of their paths.
pub(crate) fn sorted(alloc: Global, files: &Files) -> Result<Files, AllocError>
    ensures { IfOk result (λ sorted. IsTrue (finite.is_sorted by_names sorted)) }
{
    let contents = contents(alloc, files)?;
    Ok(Items::from_vec(contents.into_iter().collect(alloc)?))
}

/// Whether these are the files of a tree.
pub(crate) fn are_those_of(contents: &Contents, tree: &Files) -> bool {
    contents.len() == tree.len()
        && tree
            .as_slice()
            .iter()
            .all(|(path, content)| contents.get(path) == Some(content))
}
