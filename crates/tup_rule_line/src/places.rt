//! Paths in order, with a set of them.
ghost use Rattle.std.specs.Prelude.{◌≡◌, ◌++◌, ◌∷◌, [], IfOk};
ghost use Rattle.std.specs.List.{list_any};
ghost use Rattle.tup_rule.specs.Rule.{among};
ghost use Rattle.tup_rule_line.specs.Below.{is_below};

use crate::path_set::PathSet;
use std::alloc::{AllocError, Global};
use std::marker::Model;
use tup_path::{Path, Paths};

/// Paths in order, with a set of them. Contracts see the list of paths.
#[derive(Drop)]
pub(crate) struct Places {
    paths: Paths,
    set: PathSet,
}

impl Model for Places {
    ghost use Rattle.std.specs.Prelude.{List};
    ghost use Rattle.tup_path.specs.Name.{Names};
    ghost use Rattle.tup_rule_line.specs.Making.{HasPaths};

    ghost Value = { List Names };

    ghost view = { λ places. places.paths };

    ghost invariant = { λ places. HasPaths places.set places.paths };
}

impl Places {
    /// No path yet.
    pub(crate) fn new(alloc: Global) -> Places
        ensures { result ≡ [] }
    {
        Places {
            paths: Paths::new(alloc),
            set: PathSet::new(alloc),
        }
    }

    /// These paths, copied.
    pub(crate) fn of(alloc: Global, paths: &Paths) -> Result<Places, AllocError>
        ensures { IfOk result (λ places. places ≡ paths.now) }
    {
        let paths = paths.clone()?;
        let set = PathSet::new(alloc).with_all(alloc, paths.as_slice())?;
        Ok(Places { paths, set })
    }

    /// Whether a path is one of them.
    pub(crate) fn has(&self, path: &Path) -> bool
        ensures { result ≡ among path.now self.now }
    {
        self.set.has(path)
    }

    /// Whether one of them lies below a path.
    pub(crate) fn has_below(&self, path: &Path) -> bool
        ensures { result ≡ list_any (is_below path.now) self.now }
    {
        self.set.has_below(path)
    }

    /// One more path at the end.
    pub(crate) fn with(self, alloc: Global, path: Path) -> Result<Places, AllocError>
        ensures { IfOk result (λ places. places ≡ self ++ path ∷ []) }
    {
        let Places { mut paths, set } = self;
        let set = set.with(alloc, path.clone()?)?;
        paths.push(path)?;
        Ok(Places { paths, set })
    }

    /// The paths alone.
    pub(crate) fn into_paths(self) -> Paths
        ensures { result ≡ self }
    {
        self.paths
    }
}
