//! The calls of the site in memory.
ghost use Rattle.std.specs.Prelude.{◌≡◌, ◌⊎◌, [], ◌∷◌, ◌++◌, ◌+◌, ◌≤◌, length, take, drop, true, refl, None, Ok, IfOk, OnOk, OnErr, IsTrue};
ghost use Rattle.std.specs.FinMap as finite;
ghost use Rattle.tup_site.specs.Store.{Holds};
ghost use Rattle.tup_site.specs.Cause.{NeverTooLarge, OnlyLarge, NamesLength, IsSmall, IsPlace, SameBut};
ghost use Rattle.tup_site.specs.Limits.{least};
ghost use Rattle.tup_site.specs.Known.{MayJoin, Keeps};
ghost use Rattle.tup_site.specs.Crash.{GoesOn, NoStep, FileStep, WriteStep, CutStep, PinsTree, PinsStore};
ghost use Rattle.tup_site.specs.declared.fault.SiteFailed.TheVariants.{Fault, Memory};
ghost use Rattle.tup_site.specs.declared.change.Change.TheVariants.{Put, Settled, Written, Cut, Synced};

use crate::change::Change;
use crate::fault::SiteFailed;
use crate::limits::{Limits, MAX_FILE_BYTES};
use crate::memory::MemSite;
use crate::site::Site;
use std::alloc::Global;
use tup_path::{Bytes, Path, Paths};
use tup_stamp::Stamp;

// What the calls do that change a file or bytes, after they began.
impl MemSite {
    ghost use Rattle.tup_site.specs.Memory.{tree_in, store_in, known_in, first_of, changes_of, calls_of, faults_of, fails_of, left_of, one_more, added, removal, HasRoom, IsSameBeside, FailsOnly};

    fn put_noted(&mut self, path: &Path, content: &Bytes) -> Result<(), SiteFailed>
        requires room { HasRoom self.old }
        requires place { IsPlace (tree_in self.old) path.now }
        ensures put { OnOk result
            (tree_in self.new ≡ finite.insert (tree_in self.old) path.now content.now) }
        ensures unchanged { OnErr result (tree_in self.new ≡ tree_in self.old) }
        ensures store { store_in self.new ≡ store_in self.old }
        ensures noted { changes_of self.new
            ≡ changes_of self.old ++ added result (Put path.now content.now ∷ []) }
        ensures counted { FailsOnly (¬ MayJoin (known_in self.old) content.now)
            self.old self.new result }
    {
        if !self.may_join(content) {
            return Err(self.fail());
        }
        let change = Change::Put {
            path: path.clone()?,
            content: content.clone()?,
        };
        Ok(self.set(path.clone()?, content.clone()?, change)?)
    }

    fn remove_noted(&mut self, path: &Path) -> Result<(), SiteFailed>
        requires { HasRoom self.old }
        ensures removed { OnOk result
            (tree_in self.new ≡ finite.remove (tree_in self.old) path.now) }
        ensures unchanged { OnErr result (tree_in self.new ≡ tree_in self.old) }
        ensures store { store_in self.new ≡ store_in self.old }
        ensures noted { changes_of self.new
            ≡ changes_of self.old ++ added result (removal (tree_in self.old) path.now) }
        ensures beside { IsSameBeside self.old self.new }
        ensures memory { OnErr result (result ≡ Err Memory) }
    {
        if !self.files.contains_key(path) {
            return Ok(());
        }
        let change = Change::Removed {
            path: path.clone()?,
        };
        self.erase(path, change);
        Ok(())
    }

    fn write_noted(&mut self, alloc: Global, at: usize, bytes: &[u8]) -> Result<(), SiteFailed>
        requires room { HasRoom self.old }
        requires at { at ≤ length (store_in self.old) }
        ensures written { OnOk result (Holds (store_in self.old) at bytes.now (store_in self.new)) }
        ensures unchanged { OnErr result (store_in self.new ≡ store_in self.old) }
        ensures tree { tree_in self.new ≡ tree_in self.old }
        ensures noted { changes_of self.new
            ≡ changes_of self.old ++ added result (Written at bytes.now ∷ []) }
        ensures beside { IsSameBeside self.old self.new }
        ensures memory { OnErr result (result ≡ Err Memory) }
    {
        let change = Change::Written {
            at,
            bytes: Bytes::new(Vec::from_slice(alloc, bytes)?),
        };
        Ok(self.write(at, bytes, change)?)
    }
}

impl Site for MemSite {
    ghost use Rattle.tup_site.specs.Memory.{tree_in, store_in, world_in, known_in, moment_of, left_since, changes_of, faults_of, fails_next, IsCounted, added, removal};
    ghost use Rattle.tup_site.specs.Laws.{least_law, is_known_law, knows_tree_law, present_law, earlier_law, leaves_tree_law, leaves_known_law};

    ghost tells = { true };

    ghost world = { world_in };

    ghost known = { known_in };

    ghost moment = { moment_of };

    ghost left_since = { left_since };

    ghost faults = { faults_of };

    ghost limits = { least };

    ghost are_limits = { least_law };

    ghost told_limits = { λ _. refl };

    ghost is_tree = { λ site _. site.is_tree };

    ghost is_known = { λ site _. is_known_law site };

    ghost knows_tree = { λ site _. knows_tree_law site };

    ghost present = { λ site _. present_law site };

    ghost earlier = { λ site t u w _ le left. earlier_law site t u w le left };

    ghost leaves_tree = { λ site t w _ left. leaves_tree_law site t w left };

    ghost leaves_known = { λ site w _ left. leaves_known_law site w left };

    fn list(&mut self, alloc: Global) -> Result<Paths, SiteFailed>
        ensures paths { IfOk result (λ paths. paths ≡ finite.keys (tree_in self.old)) }
        ensures same { world_in self.new ≡ world_in self.old }
        ensures noted { changes_of self.new ≡ changes_of self.old ++ added result [] }
        ensures crash { GoesOn moment_of left_since self.old self.new NoStep }
        ensures known { known_in self.new ≡ known_in self.old }
        ensures counted { IsCounted self.old self.new (IsTrue (fails_next self.old)) result }
        ensures never_too_large { NeverTooLarge result }
    {
        self.begin()?;
        let mut paths = Paths::new(alloc);
        for path in self.files.keys() {
            paths.push(path.clone()?)?;
        }
        Ok(paths)
    }

    // It is as cheap to read a file. This isn't counted as a call.
    fn noted(&mut self, _alloc: Global, _path: &Path) -> Result<Option<Stamp>, SiteFailed>
        ensures none { result ≡ Ok None }
        ensures same { self.new ≡ self.old }
    {
        Ok(None)
    }

    fn get(&mut self, _alloc: Global, path: &Path) -> Result<Option<Bytes>, SiteFailed>
        ensures content { IfOk result
            (λ content. content ≡ finite.get (tree_in self.old) path.now) }
        ensures small { IfOk result IsSmall }
        ensures too_large { OnlyLarge result }
        ensures length { NamesLength (tree_in self.old) path.now result }
        ensures same { world_in self.new ≡ world_in self.old }
        ensures noted { changes_of self.new ≡ changes_of self.old ++ added result [] }
        ensures crash { GoesOn moment_of left_since self.old self.new NoStep }
        ensures known { known_in self.new ≡ known_in self.old }
        ensures counted { IsCounted self.old self.new (IsTrue (fails_next self.old)) result }
    {
        self.begin()?;
        let Some(content) = self.file(path) else {
            return Ok(None);
        };
        let len = content.as_slice().len() as u64;
        if len > MAX_FILE_BYTES {
            return Err(SiteFailed::TooLarge(len));
        }
        Ok(Some(content.clone()?))
    }

    fn put(&mut self, _alloc: Global, path: &Path, content: &Bytes) -> Result<(), SiteFailed>
        requires { IsPlace (tree_in self.old) path.now }
        ensures put { OnOk result
            (tree_in self.new ≡ finite.insert (tree_in self.old) path.now content.now) }
        ensures unchanged { OnErr result (tree_in self.new ≡ tree_in self.old) }
        ensures others { SameBut path.now (tree_in self.old) (tree_in self.new) }
        ensures store { store_in self.new ≡ store_in self.old }
        ensures noted { changes_of self.new
            ≡ changes_of self.old ++ added result (Put path.now content.now ∷ []) }
        ensures crash { GoesOn moment_of left_since self.old self.new
            (FileStep path.now (known_in self.new)) }
        ensures known { Keeps (known_in self.old) (known_in self.new) }
        ensures counted { IsCounted self.old self.new
            (IsTrue (fails_next self.old) ⊎ (¬ MayJoin (known_in self.old) content.now)) result }
        ensures never_too_large { NeverTooLarge result }
    {
        self.begin()?;
        self.put_noted(path, content)
    }

    fn remove(&mut self, _alloc: Global, path: &Path) -> Result<(), SiteFailed>
        ensures removed { OnOk result
            (tree_in self.new ≡ finite.remove (tree_in self.old) path.now) }
        ensures unchanged { OnErr result (tree_in self.new ≡ tree_in self.old) }
        ensures others { SameBut path.now (tree_in self.old) (tree_in self.new) }
        ensures store { store_in self.new ≡ store_in self.old }
        ensures noted { changes_of self.new
            ≡ changes_of self.old ++ added result (removal (tree_in self.old) path.now) }
        ensures crash { GoesOn moment_of left_since self.old self.new
            (FileStep path.now (known_in self.new)) }
        ensures known { Keeps (known_in self.old) (known_in self.new) }
        ensures counted { IsCounted self.old self.new (IsTrue (fails_next self.old)) result }
        ensures never_too_large { NeverTooLarge result }
    {
        self.begin()?;
        self.remove_noted(path)
    }

    fn settle(&mut self, _alloc: Global) -> Result<(), SiteFailed>
        ensures same { world_in self.new ≡ world_in self.old }
        ensures noted { changes_of self.new ≡ changes_of self.old ++ added result (Settled ∷ []) }
        ensures durable { OnOk result
            (PinsTree (left_since self.new (moment_of self.new)) (world_in self.old)) }
        ensures crash { GoesOn moment_of left_since self.old self.new NoStep }
        ensures known { known_in self.new ≡ known_in self.old }
        ensures counted { IsCounted self.old self.new (IsTrue (fails_next self.old)) result }
        ensures never_too_large { NeverTooLarge result }
    {
        self.begin()?;
        self.mark(Change::Settled);
        Ok(())
    }

    fn db_len(&mut self, _alloc: Global) -> Result<u64, SiteFailed>
        ensures bytes { IfOk result (λ len. len ≡ length (store_in self.old)) }
        ensures same { world_in self.new ≡ world_in self.old }
        ensures noted { changes_of self.new ≡ changes_of self.old ++ added result [] }
        ensures crash { GoesOn moment_of left_since self.old self.new NoStep }
        ensures known { known_in self.new ≡ known_in self.old }
        ensures counted { IsCounted self.old self.new (IsTrue (fails_next self.old)) result }
        ensures never_too_large { NeverTooLarge result }
    {
        self.begin()?;
        Ok(self.store().len() as u64)
    }

    fn db_read(&mut self, _alloc: Global, at: u64, into: &mut [u8]) -> Result<(), SiteFailed>
        requires { at + length into.old ≤ length (store_in self.old) }
        ensures bytes { OnOk result
            (into.new ≡ take (length into.old) (drop at (store_in self.old))) }
        ensures same { world_in self.new ≡ world_in self.old }
        ensures noted { changes_of self.new ≡ changes_of self.old ++ added result [] }
        ensures crash { GoesOn moment_of left_since self.old self.new NoStep }
        ensures known { known_in self.new ≡ known_in self.old }
        ensures counted { IsCounted self.old self.new (IsTrue (fails_next self.old)) result }
        ensures never_too_large { NeverTooLarge result }
    {
        self.begin()?;
        let at = at as usize;
        into.copy_from_slice(&self.store[at..at + into.len()]);
        Ok(())
    }

    fn db_write(&mut self, alloc: Global, at: u64, bytes: &[u8]) -> Result<(), SiteFailed>
        requires { at ≤ length (store_in self.old) }
        ensures written { OnOk result (Holds (store_in self.old) at bytes.now (store_in self.new)) }
        ensures unchanged { OnErr result (store_in self.new ≡ store_in self.old) }
        ensures tree { tree_in self.new ≡ tree_in self.old }
        ensures noted { changes_of self.new
            ≡ changes_of self.old ++ added result (Written at bytes.now ∷ []) }
        ensures crash { GoesOn moment_of left_since self.old self.new
            (WriteStep at (length bytes.now)) }
        ensures known { known_in self.new ≡ known_in self.old }
        ensures counted { IsCounted self.old self.new (IsTrue (fails_next self.old)) result }
        ensures never_too_large { NeverTooLarge result }
    {
        self.begin()?;
        self.write_noted(alloc, at as usize, bytes)
    }

    fn db_sync(&mut self, _alloc: Global) -> Result<(), SiteFailed>
        ensures same { world_in self.new ≡ world_in self.old }
        ensures noted { changes_of self.new ≡ changes_of self.old ++ added result (Synced ∷ []) }
        ensures durable { OnOk result
            (PinsStore (left_since self.new (moment_of self.new)) (world_in self.old)) }
        ensures crash { GoesOn moment_of left_since self.old self.new NoStep }
        ensures known { known_in self.new ≡ known_in self.old }
        ensures counted { IsCounted self.old self.new (IsTrue (fails_next self.old)) result }
        ensures never_too_large { NeverTooLarge result }
    {
        self.begin()?;
        self.mark(Change::Synced);
        Ok(())
    }

    fn db_cut(&mut self, _alloc: Global, len: u64) -> Result<(), SiteFailed>
        ensures cut { OnOk result (store_in self.new ≡ take len (store_in self.old)) }
        ensures unchanged { OnErr result (store_in self.new ≡ store_in self.old) }
        ensures tree { tree_in self.new ≡ tree_in self.old }
        ensures noted { changes_of self.new ≡ changes_of self.old ++ added result (Cut len ∷ []) }
        ensures crash { GoesOn moment_of left_since self.old self.new (CutStep len) }
        ensures known { known_in self.new ≡ known_in self.old }
        ensures counted { IsCounted self.old self.new (IsTrue (fails_next self.old)) result }
        ensures never_too_large { NeverTooLarge result }
    {
        self.begin()?;
        self.cut(len);
        Ok(())
    }

    fn faults(&self) -> u64
        ensures { result ≡ faults_of self.now }
    {
        self.faults
    }

    fn limits(&self) -> Limits {
        Limits::of_memory()
    }
}
