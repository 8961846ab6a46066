//! Whether files may stand at the outputs that a plan makes.
ghost use Rattle.std.specs.Prelude.{◌≡◌, ◌↔◌, IfOk, IsTrue, map};
ghost use Rattle.std.specs.FinMap as finite;
ghost use Rattle.std.specs.Result.{result_ok};
ghost use Rattle.std.specs.List.Sorted.{IsStrictlySortedBy};
ghost use Rattle.std.specs.Map.Iter.{deref};
ghost use Rattle.tup_path.specs.Order.{by_names};
ghost use Rattle.tup_path.specs.Resolve.{above};
ghost use Rattle.tup_apart.specs.Place.{HasPlace, HavePlaces, IsFile, IsUnderFile, IsOver};

use std::alloc::{AllocError, Global};
use tup_graph::Nodes;
use tup_path::{ByPath, Path};

/// Whether a file may stand at each output, beside the others and the files that a graph has seen.
pub(crate) fn have_places(
    alloc: Global,
    nodes: &Nodes,
    makers: &ByPath<u32>,
) -> Result<bool, AllocError>
    ensures { IfOk result (λ places. IsTrue places ↔ HavePlaces nodes.now makers.now) }
{
    let seen = seen_in(alloc, nodes)?;
    for (path, _) in makers.iter() {
        if !has_place(alloc, nodes, makers, &seen, path)? {
            return Ok(false);
        }
    }
    Ok(true)
}

/// The paths that a graph has seen, in their order.
fn seen_in<'a>(alloc: Global, nodes: &'a Nodes) -> Result<Vec<&'a Path>, AllocError>
    ensures { IfOk result (λ seen. map deref seen.items ≡ finite.keys nodes.now.seen) }
{
    let mut seen = Vec::new(alloc);
    for (path, _) in nodes.files() {
        seen.push(path)?;
    }
    Ok(seen)
}

/// The same of one output: it isn't the top, no file is above it, and none that was seen is below it.
fn has_place(
    alloc: Global,
    nodes: &Nodes,
    makers: &ByPath<u32>,
    seen: &[&Path],
    path: &Path,
) -> Result<bool, AllocError>
    requires { map deref seen.now ≡ finite.keys nodes.now.seen }
    ensures { IfOk result (λ place. IsTrue place ↔ HasPlace nodes.now makers.now path.now) }
{
    if path.depth() == 0 || is_over(seen, path) {
        return Ok(false);
    }
    Ok(!is_under_file(alloc, nodes, makers, path)?)
}

/// Whether one of these paths, which ascend, is below a path: then the first one behind it is.
fn is_over(seen: &[&Path], path: &Path) -> bool
    requires { IsStrictlySortedBy by_names (map deref seen.now) }
    ensures { IsTrue result ↔ IsOver path.now (map deref seen.now) }
{
    let behind = seen.partition_point(|other| *other <= path);
    match seen.get(behind) {
        Some(other) => other.is_below(path),
        None => false,
    }
}

/// Whether a file is above a path.
fn is_under_file(
    alloc: Global,
    nodes: &Nodes,
    makers: &ByPath<u32>,
    path: &Path,
) -> Result<bool, AllocError>
    ensures { IfOk result (λ under. IsTrue under ↔ IsUnderFile nodes.now makers.now path.now) }
{
    let Some(folder) = parent(alloc, path)? else {
        return Ok(false);
    };
    if is_file(nodes, makers, &folder) {
        return Ok(true);
    }
    is_under_file(alloc, nodes, makers, &folder)
}

fn parent(alloc: Global, path: &Path) -> Result<Option<Path>, AllocError>
    ensures { IfOk result (λ folder. folder ≡ result_ok (above path.now)) }
{
    match path.parent(alloc) {
        Ok(folder) => Ok(folder),
        Err(_) => Err(AllocError),
    }
}

/// Whether a path has a file: one that was seen, or one of the outputs.
fn is_file(nodes: &Nodes, makers: &ByPath<u32>, path: &Path) -> bool
    ensures { IsTrue result ↔ IsFile nodes.now makers.now path.now }
{
    makers.contains(path) || nodes.seen(path).is_some()
}
