//! The site over real files.
ghost use Rattle.std.specs.Prelude.{◌≡◌, [], false, IfOk, MatchOption, OnOk, OnErr, IsErr, IsTrue, is_some, nat_lt, string_bytes};
ghost use Rattle.std.specs.BTreeSet.{IsEmpty};
ghost use Rattle.std.specs.FinMap as finite;
ghost use Rattle.tup_db.specs.Own.{IsOwnBelow};
ghost use Rattle.tup_disk.specs.Marked.{IsMarked, AllMarked, StayMarked, places_above};
ghost use Rattle.tup_disk.specs.Place.{place_of};
ghost use Rattle.tup_disk.specs.Sum.{sum};
ghost use Rattle.tup_fs.specs.Answers.{Follows, HasStamp, Learns, StayKnown, TellsStamp, known_at, known_by};
ghost use Rattle.tup_fs.specs.Last.{CountsOnce, CountsPlainly};
ghost use Rattle.tup_fs.specs.declared.answers.Known.TheVariants.{Absent, Sum};
ghost use Rattle.tup_site.specs.Cause.{OnlyLarge};
ghost use Rattle.tup_site.specs.Limits.{IsWithin, OnlyOver, greatest};

use crate::emptied;
use crate::failures::Failures;
use crate::notes::{Since, nanos};
use crate::reading::Found;
use crate::tree::Tree;
use std::alloc::{AllocError, Global};
use std::fs::File;
use std::mem;
use std::rt::Files;
use std::time::Duration;
use tup_db::{Store, recover};
use tup_disk::{Disk, Failure, Syncs, Touched};
use tup_path::{Bytes, Path, Paths};
use tup_site::{Limits, Site, SiteFailed};
use tup_stamp::Stamp;

/// How many seconds before a call a file has to have been changed, so that its stamp is noted: by then the system has written what
/// came through a map of the file to the disk, and gives the next such write a new time of change.
pub const QUIET_SECONDS: u64 = 60;

/// The real files below a folder, and the store `.tup/db` there. It tells nothing but its count of
/// faults: each failing call of the system is one.
#[derive(Drop)]
pub struct FsSite<R: Files<File = File> + Clone + Drop> {
    pub(crate) disk: Disk<R>,
    tree: Tree,
    pub(crate) touched: Touched,
    pub(crate) store: Store,
    pub(crate) lock: Option<File>,
    pub(crate) failures: Failures,
}

impl<R: Files<File = File> + Clone + Drop> FsSite<R> {
    /// The files below this folder, which has to be there. It touches nothing yet.
    pub fn new(rt: R, alloc: Global, root: &str, syncs: Syncs) -> Result<FsSite<R>, AllocError>
        ensures root { IfOk result (λ site. string_bytes site.disk.root ≡ root.now) }
        ensures asked { IfOk result (λ site. site.disk.syncs ≡ syncs) }
        ensures own { IfOk result (λ site. IsOwnBelow root.now site.store.own) }
        ensures touched { IfOk result (λ site. IsEmpty site.touched.places) }
        ensures settles { IfOk result (λ site. site.touched.is_lost ≡ false) }
        ensures syncs { IfOk result (λ site. site.store.is_lost ≡ false) }
        ensures lock { IfOk result (λ site. is_some site.lock ≡ false) }
        ensures faults { IfOk result (λ site. site.failures.count ≡ 0) }
    {
        Ok(FsSite {
            disk: Disk::new(rt, alloc, root, syncs)?,
            tree: Tree::new(alloc),
            touched: Touched::new(alloc),
            store: Store::new(alloc, root)?,
            lock: None,
            failures: Failures::none(),
        })
    }

    /// The last failure, or the one before a sync that failed. There is one just where the site has
    /// counted a fault.
    pub fn last(&self) -> Option<&Failure>
        ensures { is_some result ≡ nat_lt 0 self.now.failures.count }
    {
        self.failures.last()
    }

    /// From now on the stamps of files are noted in `.tup/stamps`, and those that are there count: of files that were changed
    /// so many seconds before this call of the program began. That was so long after 1970.
    pub fn keep_stamps(&mut self, began: Duration, seconds: u64) {
        self.tree.notes.keep(Since::new(nanos(began), seconds));
    }

    /// The first place at which a pipe, a socket or a device stood where a file was asked for. It counts as no file.
    pub fn strange(&self) -> Option<&str> {
        match &self.tree.strange {
            Some(place) => Some(place.as_str()),
            None => None,
        }
    }

    /// Removes the folders that removals left empty, also those of calls that were cut off, as far as that can be done. Without the
    /// lock it does nothing.
    pub fn take_emptied(&self) {
        if self.lock.is_some() {
            drop(emptied::take(&self.disk));
        }
    }

    /// Writes what is noted of the files, and gives back the lock. What is known of them isn't freed piece by piece: this is for a
    /// program that ends.
    pub fn leave(self) {
        self.tree.notes.write(&self.disk, &self.tree.answers);
        mem::forget(self.tree);
    }

    // Before anything else the first call takes the lock, and removes what a run that died has left, or keeps what is whole of it.
    pub(crate) fn begin(&mut self) -> Result<(), SiteFailed>
        ensures locked { OnOk result (IsTrue (is_some self.new.lock)) }
        ensures cause { CountsPlainly self.old.failures.count self.new.failures.count result }
        ensures touched { self.new.touched ≡ self.old.touched }
        ensures store { self.new.store ≡ self.old.store }
        ensures disk { self.new.disk ≡ self.old.disk }
        ensures tree { self.new.tree ≡ self.old.tree }
    {
        if self.lock.is_some() {
            return Ok(());
        }
        let lock = self.disk.lock();
        let lock = self.failures.told(lock)?;
        let swept = self.store.own.sweep(&self.disk);
        self.failures.told(swept)?;
        let recovered = recover(&self.disk, &self.store.own, &lock);
        self.failures.told(recovered)?;
        self.lock = Some(lock);
        Ok(())
    }

    // What comes before a file is removed.
    fn touch(&mut self, path: &Path) -> Result<(), SiteFailed>
        ensures locked { OnOk result (IsTrue (is_some self.new.lock)) }
        ensures touched { OnOk result (AllMarked self.new.touched.places
            (places_above (string_bytes self.old.disk.root) path.now)) }
        ensures keeps { StayMarked self.old.touched.places self.new.touched.places }
        ensures lost { self.new.touched.is_lost ≡ self.old.touched.is_lost }
        ensures disk { self.new.disk ≡ self.old.disk }
        ensures cause { CountsPlainly self.old.failures.count self.new.failures.count result }
        ensures store { self.new.store ≡ self.old.store }
    {
        self.begin()?;
        let done = self.touched.add(&self.disk, path);
        self.failures.told(done)
    }

    // What comes before a file is put.
    fn touch_file(&mut self, path: &Path) -> Result<(), SiteFailed>
        ensures locked { OnOk result (IsTrue (is_some self.new.lock)) }
        ensures touched { OnOk result (AllMarked self.new.touched.places
            (places_above (string_bytes self.old.disk.root) path.now)) }
        ensures file { OnOk result (IsMarked self.new.touched.places
            (place_of (string_bytes self.old.disk.root) path.now)) }
        ensures keeps { StayMarked self.old.touched.places self.new.touched.places }
        ensures lost { self.new.touched.is_lost ≡ self.old.touched.is_lost }
        ensures disk { self.new.disk ≡ self.old.disk }
        ensures cause { CountsPlainly self.old.failures.count self.new.failures.count result }
        ensures store { self.new.store ≡ self.old.store }
    {
        self.begin()?;
        let done = self.touched.add_file(&self.disk, path);
        self.failures.told(done)
    }
}

impl<R: Files<File = File> + Clone + Drop + Send> Site for FsSite<R> {
    ghost use Rattle.tup_site.specs.Laws.{greatest_law};
    ghost use Rattle.tup_site.specs.World.{World};

    ghost tells = { false };

    ghost world = { λ _. record { tree = finite.empty; store = [] } };

    ghost known = { λ _. [] };

    ghost moment = { λ _. 0 };

    ghost left_since = { λ _ _ _. ⊥ };

    ghost faults = { λ site. site.failures.count };

    ghost limits = { greatest };

    ghost are_limits = { greatest_law };

    ghost told_limits = { λ no. Prim.cc };

    ghost is_tree = { λ site no. Prim.cc };

    ghost is_known = { λ site no. Prim.cc };

    ghost knows_tree = { λ site no. Prim.cc };

    ghost present = { λ site no. Prim.cc };

    ghost earlier = { λ site t u w no le left. Prim.cc };

    ghost leaves_tree = { λ site t w no left. Prim.cc };

    ghost leaves_known = { λ site w no left. Prim.cc };

    fn list(&mut self, _alloc: Global) -> Result<Paths, SiteFailed>
        ensures locked { OnOk result (IsTrue (is_some self.new.lock)) }
        ensures cause { CountsPlainly self.old.failures.count self.new.failures.count result }
        ensures touched { self.new.touched ≡ self.old.touched }
        ensures store { self.new.store ≡ self.old.store }
    {
        self.begin()?;
        let files = self.tree.list(&self.disk);
        Ok(Paths::from_vec(self.failures.told(files)?))
    }

    // A file whose stamp may be noted and isn't yet is read, for that. All that fails means that no stamp is told.
    fn noted(&mut self, _alloc: Global, path: &Path) -> Result<Option<Stamp>, SiteFailed>
        ensures tells { IfOk result (λ found. MatchOption found
            (StayKnown self.old.tree.answers self.new.tree.answers)
            (TellsStamp self.old.tree.answers self.new.tree.answers
            (place_of (string_bytes self.old.disk.root) path.now))) }
        ensures cause { CountsPlainly self.old.failures.count self.new.failures.count result }
        ensures touched { self.new.touched ≡ self.old.touched }
        ensures store { self.new.store ≡ self.old.store }
    {
        Ok(self.tree.noted(&self.disk, path))
    }

    fn get(&mut self, _alloc: Global, path: &Path) -> Result<Option<Bytes>, SiteFailed>
        ensures locked { OnOk result (IsTrue (is_some self.new.lock)) }
        ensures within { IfOk result (IsWithin greatest) }
        ensures over { OnlyOver greatest result }
        ensures too_large { OnlyLarge result }
        ensures cause { CountsOnce self.old.failures.count self.new.failures.count result }
        ensures follows { IfOk result (λ found. Follows self.old.tree.answers
            (place_of (string_bytes self.old.disk.root) path.now) (known_by found)) }
        ensures stamp { IfOk result (λ found. HasStamp (known_at self.old.tree.answers
            (place_of (string_bytes self.old.disk.root) path.now)) found) }
        ensures learns { IfOk result (λ found. Learns self.old.tree.answers self.new.tree.answers
            (place_of (string_bytes self.old.disk.root) path.now) (known_by found)) }
        ensures touched { self.new.touched ≡ self.old.touched }
        ensures store { self.new.store ≡ self.old.store }
    {
        self.begin()?;
        let found = self.tree.find(&self.disk, path);
        match self.failures.told(found)? {
            Found::Nothing => Ok(None),
            Found::Content(bytes) => Ok(Some(bytes)),
            Found::TooLarge(len) => Err(SiteFailed::TooLarge(len)),
        }
    }

    fn put(&mut self, _alloc: Global, path: &Path, content: &Bytes) -> Result<(), SiteFailed>
        ensures locked { OnOk result (IsTrue (is_some self.new.lock)) }
        ensures cause { CountsPlainly self.old.failures.count self.new.failures.count result }
        ensures touched { OnOk result (AllMarked self.new.touched.places
            (places_above (string_bytes self.old.disk.root) path.now)) }
        ensures file { OnOk result (IsMarked self.new.touched.places
            (place_of (string_bytes self.old.disk.root) path.now)) }
        ensures learns { OnOk result (known_at self.new.tree.answers
            (place_of (string_bytes self.old.disk.root) path.now) ≡ Sum (sum content.now)) }
        ensures keeps { StayMarked self.old.touched.places self.new.touched.places }
        ensures lost { self.new.touched.is_lost ≡ self.old.touched.is_lost }
        ensures disk { self.new.disk ≡ self.old.disk }
        ensures store { self.new.store ≡ self.old.store }
    {
        self.touch_file(path)?;
        let done = self.tree.put(&self.disk, path, content.as_slice());
        self.failures.told(done)
    }

    // Also where there is no file: an earlier run's removal may not be durable.
    fn remove(&mut self, _alloc: Global, path: &Path) -> Result<(), SiteFailed>
        ensures locked { OnOk result (IsTrue (is_some self.new.lock)) }
        ensures cause { CountsPlainly self.old.failures.count self.new.failures.count result }
        ensures touched { OnOk result (AllMarked self.new.touched.places
            (places_above (string_bytes self.old.disk.root) path.now)) }
        ensures learns { OnOk result (known_at self.new.tree.answers
            (place_of (string_bytes self.old.disk.root) path.now) ≡ Absent) }
        ensures keeps { StayMarked self.old.touched.places self.new.touched.places }
        ensures lost { self.new.touched.is_lost ≡ self.old.touched.is_lost }
        ensures disk { self.new.disk ≡ self.old.disk }
        ensures store { self.new.store ≡ self.old.store }
    {
        self.touch(path)?;
        let done = self.tree.remove(&self.disk, path);
        self.failures.told(done)
    }

    // A lost write is told but once: after a settle that failed none succeeds.
    fn settle(&mut self, _alloc: Global) -> Result<(), SiteFailed>
        ensures locked { OnOk result (IsTrue (is_some self.new.lock)) }
        ensures cause { CountsPlainly self.old.failures.count self.new.failures.count result }
        ensures settled { OnOk result (IsEmpty self.new.touched.places) }
        ensures kept { OnErr result (self.new.touched.places ≡ self.old.touched.places) }
        ensures none_lost { OnOk result (self.new.touched.is_lost ≡ false) }
        ensures for_good { IsTrue self.old.touched.is_lost → IsErr result }
        ensures disk { self.new.disk ≡ self.old.disk }
        ensures store { self.new.store ≡ self.old.store }
    {
        self.begin()?;
        let done = self.touched.settle(&self.disk);
        self.failures.told_of_sync(done)
    }

    fn db_len(&mut self, _alloc: Global) -> Result<u64, SiteFailed>
        ensures locked { OnOk result (IsTrue (is_some self.new.lock)) }
        ensures cause { CountsPlainly self.old.failures.count self.new.failures.count result }
        ensures touched { self.new.touched ≡ self.old.touched }
        ensures store { self.new.store ≡ self.old.store }
    {
        self.begin()?;
        let len = self.store.len(&self.disk);
        self.failures.told(len)
    }

    fn db_read(&mut self, _alloc: Global, at: u64, into: &mut [u8]) -> Result<(), SiteFailed>
        ensures locked { OnOk result (IsTrue (is_some self.new.lock)) }
        ensures cause { CountsPlainly self.old.failures.count self.new.failures.count result }
        ensures touched { self.new.touched ≡ self.old.touched }
        ensures store { self.new.store ≡ self.old.store }
    {
        self.begin()?;
        let done = self.store.read(&self.disk, at, into);
        self.failures.told(done)
    }

    fn db_write(&mut self, _alloc: Global, at: u64, bytes: &[u8]) -> Result<(), SiteFailed>
        ensures locked { OnOk result (IsTrue (is_some self.new.lock)) }
        ensures cause { CountsPlainly self.old.failures.count self.new.failures.count result }
        ensures open { OnOk result (IsTrue (is_some self.new.store.file)) }
        ensures kept { IsTrue (is_some self.old.store.file)
            → IsTrue (is_some self.new.store.file) }
        ensures place { IsTrue (is_some self.old.store.file)
            → self.new.store.is_aside ≡ self.old.store.is_aside }
        ensures lost { self.new.store.is_lost ≡ self.old.store.is_lost }
        ensures touched { self.new.touched ≡ self.old.touched }
    {
        self.begin()?;
        let done = self.store.write(&self.disk, at, bytes);
        self.failures.told(done)
    }

    // The same of the store.
    fn db_sync(&mut self, _alloc: Global) -> Result<(), SiteFailed>
        ensures locked { OnOk result (IsTrue (is_some self.new.lock)) }
        ensures cause { CountsPlainly self.old.failures.count self.new.failures.count result }
        ensures placed { OnOk result (self.new.store.is_aside ≡ false) }
        ensures kept { is_some self.new.store.file ≡ is_some self.old.store.file }
        ensures none_lost { OnOk result (self.new.store.is_lost ≡ false) }
        ensures for_good { IsTrue self.old.store.is_lost → IsErr result }
        ensures touched { self.new.touched ≡ self.old.touched }
    {
        self.begin()?;
        let done = self.store.sync(&self.disk);
        self.failures.told_of_sync(done)
    }

    fn db_cut(&mut self, _alloc: Global, len: u64) -> Result<(), SiteFailed>
        ensures locked { OnOk result (IsTrue (is_some self.new.lock)) }
        ensures cause { CountsPlainly self.old.failures.count self.new.failures.count result }
        ensures kept { IsTrue (is_some self.old.store.file)
            → IsTrue (is_some self.new.store.file) }
        ensures place { IsTrue (is_some self.old.store.file)
            → self.new.store.is_aside ≡ self.old.store.is_aside }
        ensures lost { self.new.store.is_lost ≡ self.old.store.is_lost }
        ensures touched { self.new.touched ≡ self.old.touched }
    {
        self.begin()?;
        let done = self.store.cut(&self.disk, len);
        self.failures.told(done)
    }

    fn faults(&self) -> u64 {
        self.failures.count()
    }

    fn limits(&self) -> Limits {
        Limits::of_disk()
    }
}
