//! The sources that a graph sees.
ghost use Rattle.std.specs.Prelude.{◌≡◌, ◌++◌, [], unwrap_or, IfOk, IsSome, IsTrue, OnOk};
ghost use Rattle.std.specs.FinMap as finite;
ghost use Rattle.tup_path.specs.Order.{by_names};
ghost use Rattle.tup_path.specs.Tree.{Tree};
ghost use Rattle.tup_graph.specs.Answers.{tup_config};
ghost use Rattle.tup_refresh.specs.Outline.{content_in, outline_of, source_in};
ghost use Rattle.tup_refresh.specs.Part.{HasConfig, HasPaths};
ghost use Rattle.tup_refresh.specs.Untouched.{SeesSources};

use std::alloc::{AllocError, Global};
use tup_graph::{Nodes, Owners};
use tup_path::{Bytes, Files, Path};

/// The sources that a graph sees, in the order of their paths, and of their contents that of
/// tup.config, which is given.
pub(crate) fn outline(
    alloc: Global,
    nodes: &Nodes,
    config: &Option<Bytes>,
) -> Result<Files, AllocError>
    ensures sorted { IfOk result (λ files. IsTrue (finite.is_sorted by_names files)) }
    ensures paths { (sources : Tree) → SeesSources sources nodes.now
        → IfOk result (λ files. HasPaths sources (finite.from_sorted files)) }
    ensures config { (sources : Tree) → SeesSources sources nodes.now
        → (IsSome (finite.get sources tup_config)
        → config.now ≡ finite.get sources tup_config)
        → IfOk result (λ files. HasConfig sources (finite.from_sorted files)) }
{
    let top = config_path(alloc)?;
    sources_seen(alloc, nodes, &top, config)
}

/// The same sources, where tup.config stands at this path.
fn sources_seen(
    alloc: Global,
    nodes: &Nodes,
    top: &Path,
    config: &Option<Bytes>,
) -> Result<Files, AllocError>
    ensures { IfOk result (λ files. files
        ≡ outline_of nodes.now top.now config.now (finite.entries nodes.now.seen)) }
{
    let mut owners = nodes.owners();
    let mut files = Files::new(alloc);
    for (path, _) in nodes.files() {
        push_source(alloc, &mut owners, &mut files, top, config, path)?;
    }
    Ok(files)
}

/// Adds a path, if it isn't owned.
fn push_source(
    alloc: Global,
    owners: &mut Owners<'_>,
    files: &mut Files,
    top: &Path,
    config: &Option<Bytes>,
    path: &Path,
) -> Result<(), AllocError>
    ensures files { OnOk result (files.new
        ≡ files.old ++ source_in owners.old top.now config.now path.now) }
    ensures same { owners.new ≡ owners.old }
{
    if !owners.owns(path) {
        let content = content_at(alloc, top, config, path)?;
        files.push((path.clone()?, content))?;
    }
    Ok(())
}

/// The content of a source as far as it is given: that of tup.config alone.
fn content_at(
    alloc: Global,
    top: &Path,
    config: &Option<Bytes>,
    path: &Path,
) -> Result<Bytes, AllocError>
    ensures { IfOk result (λ content. content ≡ content_in top.now config.now path.now) }
{
    if *path == *top {
        return content_of(alloc, config);
    }
    Ok(Bytes::new(Vec::new(alloc)))
}

/// The content that is given, if one is.
fn content_of(alloc: Global, config: &Option<Bytes>) -> Result<Bytes, AllocError>
    ensures { IfOk result (λ content. content ≡ unwrap_or config.now []) }
{
    match config {
        Some(content) => Ok(content.clone()?),
        None => Ok(Bytes::new(Vec::new(alloc))),
    }
}

/// `tup.config` at the top.
fn config_path(alloc: Global) -> Result<Path, AllocError>
    ensures { IfOk result (λ path. path ≡ tup_config) }
{
    match Path::from_top(alloc, "tup.config") {
        Ok(path) => Ok(path),
        Err(_) => Err(AllocError),
    }
}
