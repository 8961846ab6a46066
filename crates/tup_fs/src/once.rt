//! The site over real files, synced once an update where its disk asks for that.
//!
//! Then an epoch is open from the first file that is put on, and no sync is asked for in it. It ends, and all is made durable,
//! before a file is removed, and before the store is written otherwise than by commits behind its end: so no path ceases to be
//! owned in it. Else all is as the site below does it.
ghost use Rattle.std.specs.Prelude.{◌≡◌, ◌↔◌, [], false, MatchOption, IfOk, OnOk, IsErr, IsTrue, is_some, nat_lt, string_bytes};
ghost use Rattle.std.specs.BTreeSet.{IsEmpty};
ghost use Rattle.std.specs.FinMap as finite;
ghost use Rattle.tup_disk.specs.Marked.{IsMarked, AllMarked, places_above};
ghost use Rattle.tup_disk.specs.Place.{place_of};
ghost use Rattle.tup_disk.specs.Sum.{sum};
ghost use Rattle.tup_disk.specs.declared.disk.Syncs.TheVariants.{Once};
ghost use Rattle.tup_fs.specs.Answers.{Follows, HasStamp, Learns, StayKnown, TellsStamp, known_at, known_by};
ghost use Rattle.tup_fs.specs.Last.{CountsOnce, CountsPlainly};
ghost use Rattle.tup_fs.specs.Once.{is_open};
ghost use Rattle.tup_fs.specs.declared.answers.Known.TheVariants.{Absent, Sum};
ghost use Rattle.tup_site.specs.Cause.{OnlyLarge};
ghost use Rattle.tup_site.specs.Limits.{IsWithin, OnlyOver, greatest};

use crate::commits::Commits;
use crate::site::FsSite;
use crate::state::State;
use std::alloc::Global;
use std::fs::File;
use std::rt::{Files, HostRuntime};
use std::thread::Threads;
use tup_db::{Epoch, end_epoch};
use tup_disk::{Failure, Syncs};
use tup_path::{Bytes, Path, Paths};
use tup_site::{Limits, Site, SiteFailed};
use tup_stamp::Stamp;

/// The real files below a folder, with an epoch.
#[derive(Drop)]
pub struct OnceSite<R: Files<File = File> + Clone + Drop> {
    site: FsSite<R>,
    /// Whether the disk asks for an epoch.
    is_once: bool,
    state: State,
    commits: Commits,
    ghost open: { IsTrue (is_open state) → IsTrue is_once
        × (site.touched.is_lost ≡ false) × (site.store.is_lost ≡ false) },
}

impl<R: Files<File = File> + Clone + Drop> OnceSite<R> {
    /// This site, with no epoch.
    pub fn new(site: FsSite<R>) -> OnceSite<R>
        ensures site { result.site ≡ site }
        ensures once { IsTrue result.is_once ↔ (site.disk.syncs ≡ Once) }
        ensures closed { is_open result.state ≡ false }
    {
        OnceSite {
            is_once: site.disk.syncs() == Syncs::Once,
            site,
            state: State::Closed,
            commits: Commits::none(),
        }
    }

    /// The last failure, as the site below has it.
    pub fn last(&self) -> Option<&Failure>
        ensures { is_some result ≡ nat_lt 0 self.now.site.failures.count }
    {
        self.site.last()
    }

    /// The first place at which something stood that is no file, as the site below has it.
    pub fn strange(&self) -> Option<&str> {
        self.site.strange()
    }

    /// Removes the folders that removals left empty, as the site below does.
    pub fn take_emptied(&self) {
        self.site.take_emptied();
    }

    /// Gives back the lock, as the site below does.
    pub fn leave(self) {
        self.site.leave();
    }

    // Refuses where an epoch couldn't be begun or ended.
    fn check(&mut self) -> Result<(), SiteFailed>
        ensures state { self.new.state ≡ self.old.state }
        ensures once { self.new.is_once ≡ self.old.is_once }
        ensures disk { self.new.site.disk ≡ self.old.site.disk }
        ensures touched { self.new.site.touched ≡ self.old.site.touched }
        ensures store { self.new.site.store ≡ self.old.site.store }
        ensures cause { CountsPlainly self.old.site.failures.count self.new.site.failures.count result }
    {
        if !self.state.is_lost() {
            return Ok(());
        }
        let refused = self.site.disk.lost(self.site.store.own.epoch.as_str());
        self.site.failures.told_of_sync(Err(refused))
    }

    // Begins an epoch before a file is put, if the disk asks for that and none is open.
    fn begin(&mut self) -> Result<(), SiteFailed>
        ensures disk { self.new.site.disk ≡ self.old.site.disk }
        ensures cause { CountsPlainly self.old.site.failures.count self.new.site.failures.count result }
    {
        self.check()?;
        self.site.begin()?;
        match self.commits.gate {
            Some(gate) if self.is_due() => self.begin_at(gate),
            _ => Ok(()),
        }
    }

    // Whether an epoch is to be begun. None is where no lock keeps other processes away.
    fn is_due(&self) -> bool
        ensures { IsTrue result → IsTrue self.now.is_once }
    {
        if !self.is_once || self.state.is_open() {
            return false;
        }
        match &self.site.lock {
            Some(lock) => self.site.disk.is_locked(lock),
            None => false,
        }
    }

    fn begin_at(&mut self, gate: u64) -> Result<(), SiteFailed>
        requires { IsTrue self.old.is_once }
        ensures disk { self.new.site.disk ≡ self.old.site.disk }
        ensures cause { CountsPlainly self.old.site.failures.count self.new.site.failures.count result }
    {
        self.state = State::Lost;
        let begun = Epoch::begin(
            &self.site.disk,
            &mut self.site.store,
            &mut self.site.touched,
            gate,
        );
        match begun {
            Ok(epoch) => {
                self.state = State::Open(epoch);
                Ok(())
            }
            Err(refused) => self.site.failures.told_of_sync(Err(refused)),
        }
    }

    // Ends the epoch that is open, if one is.
    fn end(&mut self) -> Result<(), SiteFailed>
        ensures closed { OnOk result (is_open self.new.state ≡ false) }
        ensures settled { IsTrue (is_open self.old.state)
            → OnOk result (IsEmpty self.new.site.touched.places) }
        ensures none_lost { IsTrue (is_open self.old.state)
            → OnOk result ((self.new.site.touched.is_lost ≡ false) × (self.new.site.store.is_lost ≡ false)) }
        ensures disk { self.new.site.disk ≡ self.old.site.disk }
        ensures cause { CountsPlainly self.old.site.failures.count self.new.site.failures.count result }
    {
        self.check()?;
        if !self.state.is_open() {
            return Ok(());
        }
        self.state = State::Lost;
        self.close()
    }

    // Closes the epoch: from then on it is lost or closed.
    fn close(&mut self) -> Result<(), SiteFailed>
        requires { is_open self.old.state ≡ false }
        ensures closed { OnOk result (is_open self.new.state ≡ false) }
        ensures settled { OnOk result (IsEmpty self.new.site.touched.places) }
        ensures none_lost { OnOk result ((self.new.site.touched.is_lost ≡ false)
            × (self.new.site.store.is_lost ≡ false)) }
        ensures disk { self.new.site.disk ≡ self.old.site.disk }
        ensures cause { CountsPlainly self.old.site.failures.count self.new.site.failures.count result }
    {
        let ended = end_epoch(
            &self.site.disk,
            &mut self.site.store,
            &mut self.site.touched,
        );
        self.site.failures.told_of_sync(ended)?;
        self.state = State::Closed;
        Ok(())
    }

    // Notes what is touched by a file that is to be put.
    fn note(&mut self, path: &Path) -> Result<(), SiteFailed>
        ensures disk { self.new.site.disk ≡ self.old.site.disk }
        ensures cause { CountsPlainly self.old.site.failures.count self.new.site.failures.count result }
    {
        let noted = self.state.note(
            &self.site.disk,
            &self.site.store.own,
            &self.site.touched,
            path,
        );
        self.site.failures.told(noted)
    }

    // Ends the epoch before the store is written otherwise than it covers.
    fn end_unless_covered(&mut self, at: u64, bytes: &[u8]) -> Result<(), SiteFailed>
        ensures cause { CountsPlainly self.old.site.failures.count self.new.site.failures.count result }
    {
        if self.state.covers(at, bytes) {
            return Ok(());
        }
        self.end()
    }

    // Notes a write of the store.
    fn wrote(&mut self, at: u64, bytes: &[u8]) -> Result<(), SiteFailed>
        ensures site { (self.new.site.lock ≡ self.old.site.lock) × (self.new.site.store ≡ self.old.site.store) }
        ensures cause { CountsPlainly self.old.site.failures.count self.new.site.failures.count result }
    {
        self.commits = self.commits.behind(at, bytes);
        let noted = self
            .state
            .wrote(&self.site.disk, &self.site.store.own, bytes);
        self.site.failures.told(noted)
    }
}

impl OnceSite<HostRuntime> {
    /// Ends the epoch that is open: then all that was done in it is durable. It is made so in so many threads at most.
    pub fn finish<W: Threads + Sync>(&mut self, rt: &W, threads: usize) -> Result<(), SiteFailed>
        ensures closed { OnOk result (is_open self.new.state ≡ false) }
        ensures settled { IsTrue (is_open self.old.state)
            → OnOk result (IsEmpty self.new.site.touched.places) }
        ensures none_lost { IsTrue (is_open self.old.state)
            → OnOk result ((self.new.site.touched.is_lost ≡ false)
            × (self.new.site.store.is_lost ≡ false)) }
        ensures cause { CountsPlainly self.old.site.failures.count self.new.site.failures.count result }
    {
        self.check()?;
        if !self.state.is_open() {
            return Ok(());
        }
        self.state = State::Lost;
        let settled = self.site.touched.settle_by(rt, &self.site.disk, threads);
        self.site.failures.told_of_sync(settled)?;
        self.close()
    }
}

impl<R: Files<File = File> + Clone + Drop + Send> Site for OnceSite<R> {
    ghost use Rattle.tup_site.specs.Laws.{greatest_law};
    ghost use Rattle.tup_site.specs.World.{World};

    ghost tells = { false };

    ghost world = { λ _. record { tree = finite.empty; store = [] } };

    ghost known = { λ _. [] };

    ghost moment = { λ _. 0 };

    ghost left_since = { λ _ _ _. ⊥ };

    ghost faults = { λ once. once.site.failures.count };

    ghost limits = { greatest };

    ghost are_limits = { greatest_law };

    ghost told_limits = { λ no. Prim.cc };

    ghost is_tree = { λ site no. Prim.cc };

    ghost is_known = { λ site no. Prim.cc };

    ghost knows_tree = { λ site no. Prim.cc };

    ghost present = { λ site no. Prim.cc };

    ghost earlier = { λ site t u w no le left. Prim.cc };

    ghost leaves_tree = { λ site t w no left. Prim.cc };

    ghost leaves_known = { λ site w no left. Prim.cc };

    fn list(&mut self, alloc: Global) -> Result<Paths, SiteFailed>
        ensures locked { OnOk result (IsTrue (is_some self.new.site.lock)) }
        ensures cause { CountsPlainly self.old.site.failures.count self.new.site.failures.count result }
    {
        self.site.list(alloc)
    }

    fn noted(&mut self, alloc: Global, path: &Path) -> Result<Option<Stamp>, SiteFailed>
        ensures tells { IfOk result (λ found. MatchOption found
            (StayKnown self.old.site.tree.answers self.new.site.tree.answers)
            (TellsStamp self.old.site.tree.answers self.new.site.tree.answers
            (place_of (string_bytes self.old.site.disk.root) path.now))) }
        ensures cause { CountsPlainly self.old.site.failures.count self.new.site.failures.count result }
    {
        self.site.noted(alloc, path)
    }

    fn get(&mut self, alloc: Global, path: &Path) -> Result<Option<Bytes>, SiteFailed>
        ensures locked { OnOk result (IsTrue (is_some self.new.site.lock)) }
        ensures within { IfOk result (IsWithin greatest) }
        ensures over { OnlyOver greatest result }
        ensures too_large { OnlyLarge result }
        ensures cause { CountsOnce self.old.site.failures.count self.new.site.failures.count result }
        ensures follows { IfOk result (λ found. Follows self.old.site.tree.answers
            (place_of (string_bytes self.old.site.disk.root) path.now) (known_by found)) }
        ensures stamp { IfOk result (λ found. HasStamp (known_at self.old.site.tree.answers
            (place_of (string_bytes self.old.site.disk.root) path.now)) found) }
        ensures learns { IfOk result (λ found. Learns self.old.site.tree.answers self.new.site.tree.answers
            (place_of (string_bytes self.old.site.disk.root) path.now) (known_by found)) }
    {
        self.site.get(alloc, path)
    }

    fn put(&mut self, alloc: Global, path: &Path, content: &Bytes) -> Result<(), SiteFailed>
        ensures locked { OnOk result (IsTrue (is_some self.new.site.lock)) }
        ensures cause { CountsPlainly self.old.site.failures.count self.new.site.failures.count result }
        ensures touched { OnOk result (AllMarked self.new.site.touched.places
            (places_above (string_bytes self.old.site.disk.root) path.now)) }
        ensures file { OnOk result (IsMarked self.new.site.touched.places
            (place_of (string_bytes self.old.site.disk.root) path.now)) }
        ensures learns { OnOk result (known_at self.new.site.tree.answers
            (place_of (string_bytes self.old.site.disk.root) path.now) ≡ Sum (sum content.now)) }
    {
        self.begin()?;
        self.note(path)?;
        self.site.put(alloc, path, content)
    }

    // A path may cease to be owned once its file is gone.
    fn remove(&mut self, alloc: Global, path: &Path) -> Result<(), SiteFailed>
        ensures locked { OnOk result (IsTrue (is_some self.new.site.lock)) }
        ensures closed { OnOk result (is_open self.new.state ≡ false) }
        ensures cause { CountsPlainly self.old.site.failures.count self.new.site.failures.count result }
        ensures touched { OnOk result (AllMarked self.new.site.touched.places
            (places_above (string_bytes self.old.site.disk.root) path.now)) }
        ensures learns { OnOk result (known_at self.new.site.tree.answers
            (place_of (string_bytes self.old.site.disk.root) path.now) ≡ Absent) }
    {
        self.end()?;
        self.site.remove(alloc, path)
    }

    // In an epoch nothing is made durable yet.
    fn settle(&mut self, alloc: Global) -> Result<(), SiteFailed>
        ensures cause { CountsPlainly self.old.site.failures.count self.new.site.failures.count result }
        ensures settled { is_open self.old.state ≡ false
            → OnOk result (IsEmpty self.new.site.touched.places) }
        ensures none_lost { OnOk result (self.new.site.touched.is_lost ≡ false) }
        ensures for_good { IsTrue self.old.site.touched.is_lost → IsErr result }
        ensures state { self.new.state ≡ self.old.state }
    {
        self.check()?;
        if self.state.is_open() {
            return Ok(());
        }
        self.site.settle(alloc)
    }

    fn db_len(&mut self, alloc: Global) -> Result<u64, SiteFailed>
        ensures locked { OnOk result (IsTrue (is_some self.new.site.lock)) }
        ensures cause { CountsPlainly self.old.site.failures.count self.new.site.failures.count result }
    {
        self.site.db_len(alloc)
    }

    fn db_read(&mut self, alloc: Global, at: u64, into: &mut [u8]) -> Result<(), SiteFailed>
        ensures locked { OnOk result (IsTrue (is_some self.new.site.lock)) }
        ensures cause { CountsPlainly self.old.site.failures.count self.new.site.failures.count result }
    {
        self.site.db_read(alloc, at, into)
    }

    fn db_write(&mut self, alloc: Global, at: u64, bytes: &[u8]) -> Result<(), SiteFailed>
        ensures locked { OnOk result (IsTrue (is_some self.new.site.lock)) }
        ensures cause { CountsPlainly self.old.site.failures.count self.new.site.failures.count result }
        ensures open { OnOk result (IsTrue (is_some self.new.site.store.file)) }
    {
        self.end_unless_covered(at, bytes)?;
        self.site.db_write(alloc, at, bytes)?;
        self.wrote(at, bytes)
    }

    // The same of the store.
    fn db_sync(&mut self, alloc: Global) -> Result<(), SiteFailed>
        ensures cause { CountsPlainly self.old.site.failures.count self.new.site.failures.count result }
        ensures placed { is_open self.old.state ≡ false
            → OnOk result (self.new.site.store.is_aside ≡ false) }
        ensures none_lost { OnOk result (self.new.site.store.is_lost ≡ false) }
        ensures for_good { IsTrue self.old.site.store.is_lost → IsErr result }
        ensures state { self.new.state ≡ self.old.state }
    {
        self.check()?;
        if self.state.is_open() {
            return Ok(());
        }
        self.site.db_sync(alloc)
    }

    fn db_cut(&mut self, alloc: Global, len: u64) -> Result<(), SiteFailed>
        ensures locked { OnOk result (IsTrue (is_some self.new.site.lock)) }
        ensures closed { OnOk result (is_open self.new.state ≡ false) }
        ensures cause { CountsPlainly self.old.site.failures.count self.new.site.failures.count result }
    {
        self.end()?;
        self.commits = Commits::none();
        self.site.db_cut(alloc, len)
    }

    fn faults(&self) -> u64 {
        self.site.faults()
    }

    fn limits(&self) -> Limits {
        self.site.limits()
    }
}
