//! The calls of the steady site: each is a call of the site that it owns.
use crate::steady::{MAX_STORE_BYTES, SteadySite};
use std::alloc::Global;
use tup_path::{Bytes, Path, Paths};
use tup_site::{Limits, Site, SiteFailed};
use tup_stamp::Stamp;

impl Site for SteadySite {
    ghost use Rattle.std.specs.Prelude.{true, refl};
    ghost use Rattle.tup_site.specs.Limits.{least};
    ghost use Rattle.tup_site.specs.Laws.{least_law, is_known_law, knows_tree_law, present_law, earlier_law, leaves_tree_law, leaves_known_law};
    ghost use Rattle.tup_demo.specs.Steady.{world_in, known_in, moment_of, left_since, faults_of};

    ghost tells = { true };

    ghost world = { world_in };

    ghost known = { known_in };

    ghost moment = { moment_of };

    ghost left_since = { left_since };

    ghost faults = { faults_of };

    ghost limits = { least };

    ghost are_limits = { least_law };

    ghost told_limits = { λ _. refl };

    ghost is_tree = { λ steady _. steady.site.is_tree };

    ghost is_known = { λ steady _. is_known_law steady.site };

    ghost knows_tree = { λ steady _. knows_tree_law steady.site };

    ghost present = { λ steady _. present_law steady.site };

    ghost earlier = { λ steady t u w _ le left. earlier_law steady.site t u w le left };

    ghost leaves_tree = { λ steady t w _ left. leaves_tree_law steady.site t w left };

    ghost leaves_known = { λ steady w _ left. leaves_known_law steady.site w left };

    fn list(&mut self, alloc: Global) -> Result<Paths, SiteFailed> {
        self.site.list(alloc)
    }

    fn noted(&mut self, alloc: Global, path: &Path) -> Result<Option<Stamp>, SiteFailed> {
        self.site.noted(alloc, path)
    }

    fn get(&mut self, alloc: Global, path: &Path) -> Result<Option<Bytes>, SiteFailed> {
        self.site.get(alloc, path)
    }

    // There is no memory for a content that the site wasn't made with.
    fn put(&mut self, alloc: Global, path: &Path, content: &Bytes) -> Result<(), SiteFailed> {
        if !self.contents.contains(content) {
            return Err(SiteFailed::Memory);
        }
        self.site.put(alloc, path, content)
    }

    fn remove(&mut self, alloc: Global, path: &Path) -> Result<(), SiteFailed> {
        self.site.remove(alloc, path)
    }

    fn settle(&mut self, alloc: Global) -> Result<(), SiteFailed> {
        self.site.settle(alloc)
    }

    fn db_len(&mut self, alloc: Global) -> Result<u64, SiteFailed> {
        self.site.db_len(alloc)
    }

    fn db_read(&mut self, alloc: Global, at: u64, into: &mut [u8]) -> Result<(), SiteFailed> {
        self.site.db_read(alloc, at, into)
    }

    // There is no memory for a longer store.
    fn db_write(&mut self, alloc: Global, at: u64, bytes: &[u8]) -> Result<(), SiteFailed> {
        if bytes.len() as u64 > MAX_STORE_BYTES - at {
            return Err(SiteFailed::Memory);
        }
        self.site.db_write(alloc, at, bytes)
    }

    fn db_sync(&mut self, alloc: Global) -> Result<(), SiteFailed> {
        self.site.db_sync(alloc)
    }

    fn db_cut(&mut self, alloc: Global, len: u64) -> Result<(), SiteFailed> {
        self.site.db_cut(alloc, len)
    }

    fn faults(&self) -> u64 {
        0
    }

    fn limits(&self) -> Limits {
        self.site.limits()
    }
}
