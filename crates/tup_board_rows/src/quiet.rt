//! A site in memory that tells contracts nothing but its failures.
ghost use Rattle.std.specs.Prelude.{◌≡◌, ◌+◌, ◌≤◌, ◌<◌, ◌↔◌, ℕ, [], All, IfOk, IsTrue, Some, length};
ghost use Rattle.std.specs.FinMap as finite;
ghost use Rattle.tup_path.specs.Count.{Rose};
ghost use Rattle.tup_path.specs.Name.{Names};
ghost use Rattle.tup_site.specs.Cause.{CountsFaults, IsPlace, NeverTooLarge, most_bytes};
ghost use Rattle.tup_site.specs.Memory.{store_in, tree_in};
ghost use Rattle.tup_site.specs.declared.fault.SiteFailed.TheVariants.{Fault};
ghost use Rattle.tup_board_rows.specs.Apart.{MayStand};

use crate::place::may_stand;
use std::alloc::{AllocError, Global};
use tup_path::{Bytes, Path, Paths};
use tup_rows::set;
use tup_site::{Limits, MemSite, Site, SiteFailed};
use tup_stamp::Stamp;

/// A site in memory of which contracts know nothing but how often it failed: they ask nothing of what it holds.
#[derive(Drop)]
pub(crate) struct Quiet {
    site: MemSite,
    /// How many more calls pass.
    left: u64,
    faults: u64,
    /// A file that is too large, and how many bytes it has.
    large: Option<(Path, u64)>,
}

impl Quiet {
    /// A site all of whose calls pass.
    pub(crate) fn new(site: MemSite) -> Quiet {
        Quiet {
            site,
            left: u64::MAX,
            faults: 0,
            large: None,
        }
    }

    /// Has a file grow to so many bytes.
    pub(crate) fn set_large(&mut self, large: &Option<(Path, u64)>) -> Result<(), AllocError> {
        set(&mut self.large, large.clone()?);
        Ok(())
    }

    /// How many bytes a file has, where these are too many.
    fn too_many(&self, path: &Path) -> Option<u64>
        ensures { (bytes : ℕ) → result ≡ Some bytes → most_bytes < bytes }
    {
        match &self.large {
            Some((large, bytes)) if large == path && *bytes > 16_777_216 => Some(*bytes),
            _ => None,
        }
    }

    /// Lets so many calls pass; all later ones fail.
    pub(crate) fn stop_after(&mut self, calls: u64) {
        self.left = calls;
    }

    /// The site beneath, where all calls pass.
    pub(crate) fn into_site(self) -> MemSite {
        self.site
    }

    /// The same, to be looked at.
    pub(crate) fn beneath(&mut self) -> &mut MemSite {
        &mut self.site
    }

    /// Begins a call, which fails where no more pass.
    fn begin(&mut self) -> Result<(), SiteFailed>
        ensures cause { CountsFaults self.old.faults self.new.faults result }
        ensures never_too_large { NeverTooLarge result }
    {
        if self.left == 0 {
            return Err(self.fail());
        }
        self.left -= 1;
        Ok(())
    }

    /// Counts a failure.
    fn fail(&mut self) -> SiteFailed
        ensures fault { result ≡ Fault }
        ensures rose { Rose self.old.faults self.new.faults }
        ensures later { self.old.faults ≤ self.new.faults }
        ensures site { self.new.site ≡ self.old.site }
    {
        self.faults = self.faults.saturating_add(1);
        SiteFailed::Fault
    }

    /// An answer of the site beneath, whose failure is counted.
    fn told<T>(&mut self, answer: Result<T, SiteFailed>) -> Result<T, SiteFailed>
        ensures same { result ≡ answer }
        ensures site { self.new.site ≡ self.old.site }
        ensures cause { CountsFaults self.old.faults self.new.faults result }
    {
        if let Err(SiteFailed::Fault) = &answer {
            self.fail();
        }
        answer
    }

    /// Whether a file may be put at a path: there is one already, or one may stand beside all others.
    fn has_place(&mut self, alloc: Global, path: &Path) -> Result<bool, SiteFailed>
        ensures place { IfOk result (λ has. IsTrue has → IsPlace (tree_in self.new.site) path.now) }
        ensures cause { CountsFaults self.old.faults self.new.faults result }
        ensures never_too_large { NeverTooLarge result }
    {
        if self.site.file(path).is_some() {
            return Ok(true);
        }
        self.has_room(alloc, path)
    }

    /// Whether a file may stand at a path beside all that there are.
    fn has_room(&mut self, alloc: Global, path: &Path) -> Result<bool, SiteFailed>
        ensures place { IfOk result (λ has. IsTrue has → IsPlace (tree_in self.new.site) path.now) }
        ensures cause { CountsFaults self.old.faults self.new.faults result }
        ensures never_too_large { NeverTooLarge result }
    {
        let paths = self.site.list(alloc);
        let paths = self.told(paths)?;
        Ok(may_stand(path, paths.as_slice()))
    }
}

impl Site for Quiet {
    ghost use Rattle.std.specs.Prelude.{[], false};
    ghost use Rattle.tup_site.specs.Laws.{least_law};
    ghost use Rattle.tup_site.specs.Limits.{least};
    ghost use Rattle.std.specs.FinMap as finite;

    ghost tells = { false };

    ghost world = { λ _. record { tree = finite.empty; store = [] } };

    ghost known = { λ _. [] };

    ghost moment = { λ _. 0 };

    ghost left_since = { λ _ _ _. ⊥ };

    ghost faults = { λ quiet. quiet.faults };

    ghost limits = { least };

    ghost are_limits = { least_law };

    ghost told_limits = { λ no. Prim.cc };

    ghost is_tree = { λ site no. Prim.cc };

    ghost is_known = { λ site no. Prim.cc };

    ghost knows_tree = { λ site no. Prim.cc };

    ghost present = { λ site no. Prim.cc };

    ghost earlier = { λ site t u w no le left. Prim.cc };

    ghost leaves_tree = { λ site t w no left. Prim.cc };

    ghost leaves_known = { λ site w no left. Prim.cc };

    fn list(&mut self, alloc: Global) -> Result<Paths, SiteFailed> {
        self.begin()?;
        let answer = self.site.list(alloc);
        self.told(answer)
    }

    fn noted(&mut self, alloc: Global, path: &Path) -> Result<Option<Stamp>, SiteFailed> {
        let answer = self.site.noted(alloc, path);
        self.told(answer)
    }

    fn get(&mut self, alloc: Global, path: &Path) -> Result<Option<Bytes>, SiteFailed> {
        self.begin()?;
        if let Some(bytes) = self.too_many(path) {
            return Err(SiteFailed::TooLarge(bytes));
        }
        let answer = self.site.get(alloc, path);
        self.told(answer)
    }

    fn put(&mut self, alloc: Global, path: &Path, content: &Bytes) -> Result<(), SiteFailed> {
        self.begin()?;
        if !self.has_place(alloc, path)? {
            return Err(self.fail());
        }
        let answer = self.site.put(alloc, path, content);
        self.told(answer)
    }

    fn remove(&mut self, alloc: Global, path: &Path) -> Result<(), SiteFailed> {
        self.begin()?;
        let answer = self.site.remove(alloc, path);
        self.told(answer)
    }

    fn settle(&mut self, alloc: Global) -> Result<(), SiteFailed> {
        self.begin()?;
        let answer = self.site.settle(alloc);
        self.told(answer)
    }

    fn db_len(&mut self, alloc: Global) -> Result<u64, SiteFailed> {
        self.begin()?;
        let answer = self.site.db_len(alloc);
        self.told(answer)
    }

    fn db_read(&mut self, alloc: Global, at: u64, into: &mut [u8]) -> Result<(), SiteFailed> {
        self.begin()?;
        if !has_bytes(self.site.store(), at, into.len()) {
            return Err(self.fail());
        }
        let answer = self.site.db_read(alloc, at, into);
        self.told(answer)
    }

    fn db_write(&mut self, alloc: Global, at: u64, bytes: &[u8]) -> Result<(), SiteFailed> {
        self.begin()?;
        if !has_bytes(self.site.store(), at, 0) {
            return Err(self.fail());
        }
        let answer = self.site.db_write(alloc, at, bytes);
        self.told(answer)
    }

    fn db_sync(&mut self, alloc: Global) -> Result<(), SiteFailed> {
        self.begin()?;
        let answer = self.site.db_sync(alloc);
        self.told(answer)
    }

    fn db_cut(&mut self, alloc: Global, len: u64) -> Result<(), SiteFailed> {
        self.begin()?;
        let answer = self.site.db_cut(alloc, len);
        self.told(answer)
    }

    fn faults(&self) -> u64 {
        self.faults
    }

    fn limits(&self) -> Limits {
        self.site.limits()
    }
}

/// Whether a store has so many bytes from a place on.
fn has_bytes(store: &[u8], at: u64, count: usize) -> bool
    ensures { IsTrue result → at + count ≤ length store.now }
{
    match (store.len() as u64).checked_sub(at) {
        Some(rest) => count as u64 <= rest,
        None => false,
    }
}
