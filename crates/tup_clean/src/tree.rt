//! The files of a build under way.
ghost use Rattle.std.specs.Prelude.{◌≡◌, IsTrue, IfOk, OnOk};
ghost use Rattle.std.specs.Option.{option_copied};
ghost use Rattle.std.specs.FinMap as finite;
ghost use Rattle.tup_path.specs.Order.{by_names};
ghost use Rattle.tup_clean.specs.Clean.{with_files};

use std::alloc::{AllocError, Global};
use std::collections::BTreeMap;
use std::marker::Model;
use tup_path::{Bytes, Files, Items, Path};

/// Files by their paths. Contracts see the tree.
#[derive(Drop)]
pub(crate) struct FileTree {
    files: BTreeMap<Path, Bytes>,
}

impl Model for FileTree {
    ghost use Rattle.std.specs.Prelude.{List, ℕ, IsTrue};
    ghost use Rattle.std.specs.Coded.{coded_ℕ, coded_list};
    ghost use Rattle.std.specs.FinMap as finite;
    ghost use Rattle.tup_path.specs.Order.{by_names};

    ghost Value = { finite.FinMap by_names (List ℕ) };

    ghost coded = { finite.code (coded_list (coded_list coded_ℕ)) (coded_list coded_ℕ) };

    ghost view = { λ t. finite.from_sorted t.files.entries };

    ghost invariant = { λ t. IsTrue (finite.is_sorted by_names t.files.entries) };
}

impl FileTree {
    /// The tree without a file; it takes no memory.
    fn empty(alloc: Global) -> FileTree
        ensures { result ≡ finite.empty }
    {
        FileTree {
            files: BTreeMap::new(alloc),
        }
    }

    /// The tree of some files, which stand in the order of their paths.
    pub(crate) fn new(alloc: Global, files: &Files) -> Result<FileTree, AllocError>
        requires { IsTrue (finite.is_sorted by_names files.now) }
        ensures { IfOk result (λ tree. tree ≡ finite.from_sorted files.now) }
    {
        let mut tree = FileTree::empty(alloc);
        tree.put_all(files.clone()?)?;
        Ok(tree)
    }

    /// The content of a file, where there is one.
    pub(crate) fn get(&self, path: &Path) -> Option<&Bytes>
        ensures { option_copied result ≡ finite.get self.now path.now }
    {
        self.files.get(path)
    }

    /// Puts files one after another. Where there was no memory, those before may stand.
    pub(crate) fn put_all(&mut self, files: Files) -> Result<(), AllocError>
        ensures { OnOk result (self.new ≡ with_files self.old files) }
    {
        for (path, content) in files.into_vec() {
            self.put(path, content)?;
        }
        Ok(())
    }

    fn put(&mut self, path: Path, content: Bytes) -> Result<(), AllocError>
        ensures { OnOk result (self.new ≡ finite.insert self.old path content) }
    {
        self.files.insert(path, content)?;
        Ok(())
    }

    /// The files in the order of their paths; none is copied.
    pub(crate) fn into_files(self, alloc: Global) -> Result<Files, AllocError>
        ensures { IfOk result (λ files. files ≡ finite.entries self) }
    {
        Ok(Items::from_vec(self.files.into_iter().collect(alloc)?))
    }
}
