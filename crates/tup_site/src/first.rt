//! The files that a site in memory is made with.
ghost use Rattle.std.specs.Prelude.{◌≡◌, ◌≢◌, IfOk, OnOk, Err};
ghost use Rattle.std.specs.FinMap as finite;
ghost use Rattle.tup_path.specs.Tree.{IsTree, tree_of_files};
ghost use Rattle.tup_site.specs.Edit.{AreATree, MayAdd};
ghost use Rattle.tup_site.specs.Known.{IsKnown};
ghost use Rattle.tup_site.specs.Held.{IsHeld};
ghost use Rattle.tup_site.specs.History.{contents_of};
ghost use Rattle.tup_site.specs.declared.refused.MemRefused.TheVariants.{NotATree, SameStamp, NotAnImage};

use crate::known::Known;
use crate::place::is_place;
use crate::refused::MemRefused;
use std::alloc::Global;
use std::collections::BTreeMap;
use tup_path::{Bytes, MAX_DEPTH, Path};
use tup_stamp::stamp_of;

/// The files of a list as a map, where they are a tree and no path stands twice.
pub(crate) fn tree_of(
    alloc: Global,
    list: &[(Path, Bytes)],
) -> Result<BTreeMap<Path, Bytes>, MemRefused>
    ensures tree { IfOk result (λ files. tree_of_files files.entries ≡ tree_of_files list.now) }
    ensures are_a_tree { OnOk result (AreATree list.now) }
    ensures not_a_tree { result ≡ Err NotATree → ¬ AreATree list.now }
    ensures no_stamp { result ≢ Err SameStamp }
    ensures no_image { result ≢ Err NotAnImage }
{
    let mut files = BTreeMap::new(alloc);
    for (path, content) in list {
        add(&mut files, path, content)?;
    }
    Ok(files)
}

// Adds a file at a path where none is and one may be.
fn add(files: &mut BTreeMap<Path, Bytes>, path: &Path, content: &Bytes) -> Result<(), MemRefused>
    requires { IsTree (tree_of_files files.old.entries) }
    ensures added { OnOk result (tree_of_files files.new.entries
        ≡ finite.insert (tree_of_files files.old.entries) path.now content.now) }
    ensures tree { OnOk result (IsTree (tree_of_files files.new.entries)) }
    ensures may { OnOk result (MayAdd (tree_of_files files.old.entries) path.now) }
    ensures not_a_tree { result ≡ Err NotATree
        → ¬ MayAdd (tree_of_files files.old.entries) path.now }
    ensures no_stamp { result ≢ Err SameStamp }
    ensures no_image { result ≢ Err NotAnImage }
{
    if files.contains_key(path) {
        return Err(MemRefused::NotATree);
    }
    if !is_place(files, path) {
        return Err(MemRefused::NotATree);
    }
    prove!(path.depth() <= MAX_DEPTH);
    files.insert(path.clone()?, content.clone()?)?;
    Ok(())
}

/// The contents of a list of files, where no two of them are different and have one stamp.
pub(crate) fn known_of(alloc: Global, list: &[(Path, Bytes)]) -> Result<Known, MemRefused>
    ensures held { IfOk result (λ known. IsHeld known.contents.entries (contents_of list.now)) }
    ensures known { OnOk result (IsKnown (contents_of list.now)) }
    ensures same_stamp { result ≡ Err SameStamp → ¬ IsKnown (contents_of list.now) }
    ensures no_tree { result ≢ Err NotATree }
    ensures no_image { result ≢ Err NotAnImage }
{
    let mut known = Known::new(alloc);
    for (_, content) in list {
        let stamp = stamp_of(content.as_slice());
        if !known.may_take(stamp, content) {
            return Err(MemRefused::SameStamp);
        }
        known.take(stamp, content.clone()?)?;
    }
    Ok(known)
}
