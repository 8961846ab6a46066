//! Where a file may be put.
ghost use Rattle.std.specs.Prelude.{IsTrue, ◌↔◌};
ghost use Rattle.tup_path.specs.Tree.{IsTree, tree_of_files};
ghost use Rattle.tup_site.specs.Cause.{IsPlace};
ghost use Rattle.tup_site.specs.Edit.{NoneAbove, NoneBelow, Stands};

use std::collections::BTreeMap;
use std::ops::Bound;
use tup_path::{Bytes, Path};

/// Whether a file may be put at a path, beside the files that there are.
pub(crate) fn is_place(files: &BTreeMap<Path, Bytes>, path: &Path) -> bool
    requires { IsTree (tree_of_files files.now.entries) }
    ensures { IsTrue result ↔ IsPlace (tree_of_files files.now.entries) path.now }
{
    path.depth() > 0 && is_none_above(files, path) && is_none_below(files, path)
}

// A file above a path stands right before it in the order of paths, since there is none below it.
fn is_none_above(files: &BTreeMap<Path, Bytes>, path: &Path) -> bool
    requires { IsTree (tree_of_files files.now.entries) }
    ensures { IsTrue result ↔ NoneAbove (tree_of_files files.now.entries) path.now }
{
    match files
        .range((Bound::Unbounded, Bound::Excluded(path)))
        .next_back()
    {
        Some((file, _)) => !path.is_below(file),
        None => true,
    }
}

// If any file is below a path, then the one right behind it is.
fn is_none_below(files: &BTreeMap<Path, Bytes>, path: &Path) -> bool
    ensures { IsTrue result ↔ NoneBelow (tree_of_files files.now.entries) path.now }
{
    match files
        .range((Bound::Excluded(path), Bound::Unbounded))
        .next()
    {
        Some((file, _)) => !file.is_below(path),
        None => true,
    }
}

/// Whether files are a tree: none at the top, and none below another.
pub(crate) fn is_tree(files: &BTreeMap<Path, Bytes>) -> bool
    ensures { IsTrue result ↔ IsTree (tree_of_files files.now.entries) }
{
    for path in files.keys() {
        if !may_stand(files, path) {
            return false;
        }
    }
    true
}

// Whether a path isn't the top, and no file is below it.
fn may_stand(files: &BTreeMap<Path, Bytes>, path: &Path) -> bool
    ensures { IsTrue result ↔ Stands (tree_of_files files.now.entries) path.now }
{
    path.depth() > 0 && is_none_below(files, path)
}
