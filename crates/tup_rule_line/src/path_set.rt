//! Paths to look up, with the folders above them.
ghost use Rattle.std.specs.Prelude.{◌≡◌, ◌||◌, [], IfOk, OnOk, fold};
ghost use Rattle.std.specs.Result.{result_ok};
ghost use Rattle.tup_path.specs.Name.{Names};
ghost use Rattle.std.specs.List.{list_any};
ghost use Rattle.tup_path.specs.Order.{same_path};
ghost use Rattle.tup_path.specs.Resolve.{above};
ghost use Rattle.tup_rule.specs.Rule.{among};
ghost use Rattle.indexmap.specs.IndexSet.{insert_key};
ghost use Rattle.tup_rule_line.specs.Below.{is_below, IsClosed};

use indexmap::IndexSet;
use std::alloc::{AllocError, Global};
use std::marker::Model;
use tup_path::{Path, PathFault};

/// Paths, each once, with the folders above them. Contracts see the paths in the order of adding.
#[derive(Drop)]
pub(crate) struct PathSet {
    paths: IndexSet<Path>,
    folders: IndexSet<Path>,
}

impl Model for PathSet {
    ghost use Rattle.std.specs.Prelude.{List};
    ghost use Rattle.tup_path.specs.Name.{Names};
    ghost use Rattle.tup_rule_line.specs.Below.{AreAbove};

    ghost Value = { List Names };

    ghost view = { λ set. set.paths.keys };

    ghost invariant = { λ set. AreAbove set.folders.keys set.paths.keys };
}

impl PathSet {
    /// No path yet.
    pub(crate) fn new(alloc: Global) -> PathSet
        ensures { result ≡ [] }
    {
        PathSet {
            paths: IndexSet::new(alloc),
            folders: IndexSet::new(alloc),
        }
    }

    /// Whether a path is one of them.
    pub(crate) fn has(&self, path: &Path) -> bool
        ensures { result ≡ among path.now self.now }
    {
        self.paths.contains(path)
    }

    /// Whether one of them lies below a path.
    pub(crate) fn has_below(&self, path: &Path) -> bool
        ensures { result ≡ list_any (is_below path.now) self.now }
    {
        self.folders.contains(path)
    }

    /// One more path, unless it is there.
    pub(crate) fn with(self, alloc: Global, path: Path) -> Result<PathSet, AllocError>
        ensures { IfOk result (λ set. set ≡ insert_key same_path self path) }
    {
        let PathSet {
            mut paths,
            mut folders,
        } = self;
        add_folders(alloc, &mut folders, &path)?;
        paths.insert(path)?;
        Ok(PathSet { paths, folders })
    }

    /// More paths, each unless it is there.
    pub(crate) fn with_all(self, alloc: Global, paths: &[Path]) -> Result<PathSet, AllocError>
        ensures { IfOk result (λ set. set ≡ fold (insert_key same_path) self paths.now) }
    {
        let mut set = self;
        for path in paths {
            set = set.with(alloc, path.clone()?)?;
        }
        Ok(set)
    }
}

/// Adds the folders above a path. Where the path's own folder is there, all are.
fn add_folders(alloc: Global, folders: &mut IndexSet<Path>, path: &Path) -> Result<(), AllocError>
    requires { IsClosed folders.old.keys }
    ensures { OnOk result ((dir : Names) → among dir folders.new.keys
        ≡ (is_below dir path.now || among dir folders.old.keys)) }
{
    let Some(folder) = folder_of(alloc, path)? else {
        return Ok(());
    };
    if folders.contains(&folder) {
        return Ok(());
    }
    add_folders(alloc, folders, &folder)?;
    folders.insert(folder)?;
    Ok(())
}

/// The folder that a path lies in; none for the top.
pub(crate) fn folder_of(alloc: Global, path: &Path) -> Result<Option<Path>, AllocError>
    ensures { IfOk result (λ folder. folder ≡ result_ok (above path.now)) }
{
    match path.parent(alloc) {
        Ok(folder) => Ok(folder),
        Err(_) => Err(AllocError),
    }
}
