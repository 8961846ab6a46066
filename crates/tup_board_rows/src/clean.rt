//! Whether a site is the clean build of its sources.
ghost use Rattle.std.specs.Prelude.{◌≡◌, true, IfOk, IsTrue, OnOk};
ghost use Rattle.std.specs.FinMap as finite;
ghost use Rattle.tup_path.specs.Order.{by_names};

use std::alloc::{AllocError, Global};
use std::collections::BTreeMap;
use tup_clean::clean_build;
use tup_mini::Mini;
use tup_path::{Bytes, Files, Items, Path};
use tup_rows::RowFault;
use tup_rule::Rule;
use tup_site::{MemSite, Site};

/// Whether a site has just the files that the clean build of some rules leaves over its sources.
pub(crate) fn is_clean(
    alloc: Global,
    site: &mut MemSite,
    rules: &[Rule],
) -> Result<bool, RowFault> {
    let files = files_in(alloc, site)?;
    are_clean(alloc, &files, rules)
}

fn are_clean(alloc: Global, files: &Files, rules: &[Rule]) -> Result<bool, RowFault> {
    let sources = sources_of(alloc, files, rules)?;
    are_left(alloc, files, &sources, rules)
}

fn are_left(alloc: Global, files: &Files, sources: &Files, rules: &[Rule]) -> Result<bool, RowFault>
    requires { IsTrue (finite.is_sorted by_names sources.now) }
{
    Ok(clean_tree(alloc, rules, sources)? == *files)
}

/// The files of a site.
pub(crate) fn files_in(alloc: Global, site: &mut MemSite) -> Result<Files, RowFault> {
    match site.list(alloc) {
        Ok(paths) => Ok(files_at(alloc, site, paths.as_slice())?),
        Err(_) => Err(RowFault::Memory),
    }
}

/// The files of a site at these paths.
fn files_at(alloc: Global, site: &MemSite, paths: &[Path]) -> Result<Files, AllocError> {
    let mut files = Items::new(alloc);
    for path in paths {
        if let Some(content) = site.file(path) {
            files.push(file_of(path, content)?)?;
        }
    }
    Ok(files)
}

fn file_of(path: &Path, content: &Bytes) -> Result<(Path, Bytes), AllocError> {
    Ok((path.clone()?, content.clone()?))
}

/// The files that the clean build of some rules leaves over these sources.
fn clean_tree(alloc: Global, rules: &[Rule], sources: &Files) -> Result<Files, RowFault>
    requires { IsTrue (finite.is_sorted by_names sources.now) }
{
    match clean_build(alloc, rules, sources, &mut Mini::new(alloc)) {
        Ok(clean) => Ok(clean.tree),
        Err(_) => Err(RowFault::Memory),
    }
}

/// Those of some files that none of these rules makes, in the order of their paths.
fn sources_of(alloc: Global, files: &Files, rules: &[Rule]) -> Result<Files, AllocError>
    ensures { IfOk result (λ sources. IsTrue (finite.is_sorted by_names sources)) }
{
    let sources = unmade(alloc, files, rules)?;
    Ok(Items::from_vec(sources.into_iter().collect(alloc)?))
}

/// Files by their paths.
type Contents = BTreeMap<Path, Bytes>;

/// The same by their paths.
fn unmade(alloc: Global, files: &Files, rules: &[Rule]) -> Result<Contents, AllocError>
    ensures { IfOk result (λ contents. finite.is_sorted by_names contents.entries ≡ true) }
{
    let mut contents = BTreeMap::new(alloc);
    for (path, content) in files.as_slice() {
        if !is_made(rules, path) {
            put(&mut contents, path, content)?;
        }
    }
    Ok(contents)
}

fn is_made(rules: &[Rule], path: &Path) -> bool {
    rules.iter().any(|rule| rule.writes(path))
}

/// Puts a file in the place of what stands there.
fn put(contents: &mut Contents, path: &Path, content: &Bytes) -> Result<(), AllocError>
    ensures { OnOk result (finite.is_sorted by_names contents.old.entries ≡ true
        → finite.is_sorted by_names contents.new.entries ≡ true) }
{
    insert(contents, path.clone()?, content.clone()?)
}

fn insert(contents: &mut Contents, path: Path, content: Bytes) -> Result<(), AllocError>
    ensures { OnOk result (finite.is_sorted by_names contents.old.entries ≡ true
        → finite.is_sorted by_names contents.new.entries ≡ true) }
{
    contents.insert(path, content)?;
    Ok(())
}
