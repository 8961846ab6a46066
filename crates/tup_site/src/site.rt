//! The outside as one small interface: a tree of files and a store file.
ghost use Rattle.std.specs.Prelude.{◌≡◌, ℕ, Bool, List, ◌+◌, ◌≤◌, length, take, drop, IsTrue, IfOk, OnOk, OnErr, Err};
ghost use Rattle.std.specs.FinMap as finite;
ghost use Rattle.tup_path.specs.Name.{Content};
ghost use Rattle.tup_path.specs.Tree.{IsTree};
ghost use Rattle.tup_site.specs.World.{World, TreeStays, StoreStays};
ghost use Rattle.tup_site.specs.Store.{Holds, IsTorn, IsCutOrNot};
ghost use Rattle.tup_site.specs.Known.{IsKnown, KnowsTree, Keeps, Joins};
ghost use Rattle.tup_site.specs.Crash.{GoesOn, NoStep, FileStep, WriteStep, CutStep, PinsTree, PinsStore};
ghost use Rattle.tup_site.specs.Cause.{CountsFaults, NeverTooLarge, OnlyLarge, NamesLength, IsSmall, SameBut, IsPlace};
ghost use Rattle.tup_site.specs.Limits.{AreLimits, IsWithin, OnlyOver, least};
ghost use Rattle.tup_site.specs.Noted.{IsNotedAt};
ghost use Rattle.tup_site.specs.declared.fault.SiteFailed.TheVariants.{Memory};
ghost use Rattle.tup_site.specs.declared.limits.Limits.{Limits};

use crate::fault::SiteFailed;
use crate::limits::Limits;
use std::alloc::Global;
use tup_path::{Bytes, Path, Paths};
use tup_stamp::Stamp;

/// A tree of files, and beside it the store, one file of bytes: the world of the site.
///
/// A site may tell its world, as one in memory does, or not, as real files can't: clauses on
/// contents stand where it tells. Every site counts its faults: the count rises with each answer
/// `Fault`, and with no other. Want of memory leaves the world as it was; only a fault may leave a
/// write half done.
///
/// A crash may leave another world than the present one: each call says what it adds to what a
/// crash since an earlier moment may leave, whatever it answers, and a `settle` or `db_sync` that
/// succeeds says what every crash from then on leaves.
pub trait Site: Drop {
    /// Whether the site tells its world.
    ghost tells: { Bool };

    /// The files of the tree and the bytes of the store.
    ghost world: { Self → World };

    /// Every content that ever stood in the tree.
    ghost known: { Self → List Content };

    /// The moment, as a number that doesn't fall.
    ghost moment: { Self → ℕ };

    /// What a crash at some moment from that one on may leave. A crash now is one since this
    /// moment.
    ghost left_since: { Self → ℕ → World → Type 0 };

    /// How often the outside has failed; it stands still at the last `u64`.
    ghost faults: { Self → ℕ };

    /// How many files it may have, and how many bytes a file that it reads.
    ghost limits: { Limits };

    /// The paths of all files, in the order of paths.
    fn list(&mut self, alloc: Global) -> Result<Paths, SiteFailed>
        ensures paths { IsTrue tells
            → IfOk result (λ paths. paths ≡ finite.keys (world self.old).tree) }
        ensures same { IsTrue tells → world self.new ≡ world self.old }
        ensures crash { IsTrue tells → GoesOn moment left_since self.old self.new NoStep }
        ensures known { IsTrue tells → known self.new ≡ known self.old }
        ensures cause { CountsFaults (faults self.old) (faults self.new) result }
        ensures never_too_large { NeverTooLarge result };

    /// The stamp of a file, where the site knows it without reading the file. `None` says nothing:
    /// the site doesn't know it, or no file is there.
    fn noted(&mut self, alloc: Global, path: &Path) -> Result<Option<Stamp>, SiteFailed>
        ensures noted { IsTrue tells → IfOk result (IsNotedAt (world self.old).tree path.now) }
        ensures same { IsTrue tells → world self.new ≡ world self.old }
        ensures crash { IsTrue tells → GoesOn moment left_since self.old self.new NoStep }
        ensures known { IsTrue tells → known self.new ≡ known self.old }
        ensures cause { CountsFaults (faults self.old) (faults self.new) result }
        ensures never_too_large { NeverTooLarge result };

    /// The content of a file, or `None` where no file is: nothing, a folder, or a file above it.
    /// A file of more bytes than the site's limit is refused as `TooLarge` with its length.
    fn get(&mut self, alloc: Global, path: &Path) -> Result<Option<Bytes>, SiteFailed>
        ensures content { IsTrue tells
            → IfOk result (λ content. content ≡ finite.get (world self.old).tree path.now) }
        ensures within { IfOk result (IsWithin limits) }
        ensures small { IsTrue tells → IfOk result IsSmall }
        ensures over { OnlyOver limits result }
        ensures too_large { OnlyLarge result }
        ensures length { IsTrue tells → NamesLength (world self.old).tree path.now result }
        ensures same { IsTrue tells → world self.new ≡ world self.old }
        ensures crash { IsTrue tells → GoesOn moment left_since self.old self.new NoStep }
        ensures known { IsTrue tells → known self.new ≡ known self.old }
        ensures cause { CountsFaults (faults self.old) (faults self.new) result };

    /// Makes the file with this content, in the place of the one that is there, with the folders
    /// above it. After a fault the file holds anything or is absent, and all else stays.
    fn put(&mut self, alloc: Global, path: &Path, content: &Bytes) -> Result<(), SiteFailed>
        requires { IsTrue tells → IsPlace (world self.old).tree path.now }
        ensures put { IsTrue tells
            → OnOk result ((world self.new).tree
            ≡ finite.insert (world self.old).tree path.now content.now) }
        ensures others { IsTrue tells
            → SameBut path.now (world self.old).tree (world self.new).tree }
        ensures store { IsTrue tells → StoreStays (world self.old) (world self.new) }
        ensures memory { IsTrue tells → result ≡ Err Memory → world self.new ≡ world self.old }
        ensures crash { IsTrue tells → GoesOn moment left_since self.old self.new
            (FileStep path.now (known self.new)) }
        ensures known { IsTrue tells → Keeps (known self.old) (known self.new) }
        ensures cause { CountsFaults (faults self.old) (faults self.new) result }
        ensures never_too_large { NeverTooLarge result };

    /// Removes the file if there is one, and the folders that it leaves empty. After a fault the
    /// file holds anything or is absent, and all else stays.
    fn remove(&mut self, alloc: Global, path: &Path) -> Result<(), SiteFailed>
        ensures removed { IsTrue tells
            → OnOk result ((world self.new).tree ≡ finite.remove (world self.old).tree path.now) }
        ensures others { IsTrue tells
            → SameBut path.now (world self.old).tree (world self.new).tree }
        ensures store { IsTrue tells → StoreStays (world self.old) (world self.new) }
        ensures memory { IsTrue tells → result ≡ Err Memory → world self.new ≡ world self.old }
        ensures crash { IsTrue tells → GoesOn moment left_since self.old self.new
            (FileStep path.now (known self.new)) }
        ensures known { IsTrue tells → Keeps (known self.old) (known self.new) }
        ensures cause { CountsFaults (faults self.old) (faults self.new) result }
        ensures never_too_large { NeverTooLarge result };

    /// Makes durable what was put and removed.
    fn settle(&mut self, alloc: Global) -> Result<(), SiteFailed>
        ensures same { IsTrue tells → world self.new ≡ world self.old }
        ensures durable { IsTrue tells
            → OnOk result (PinsTree (left_since self.new (moment self.new)) (world self.old)) }
        ensures crash { IsTrue tells → GoesOn moment left_since self.old self.new NoStep }
        ensures known { IsTrue tells → known self.new ≡ known self.old }
        ensures cause { CountsFaults (faults self.old) (faults self.new) result }
        ensures never_too_large { NeverTooLarge result };

    /// The length of the store in bytes; 0 where there is none.
    fn db_len(&mut self, alloc: Global) -> Result<u64, SiteFailed>
        ensures bytes { IsTrue tells → IfOk result (λ len. len ≡ length (world self.old).store) }
        ensures same { IsTrue tells → world self.new ≡ world self.old }
        ensures crash { IsTrue tells → GoesOn moment left_since self.old self.new NoStep }
        ensures known { IsTrue tells → known self.new ≡ known self.old }
        ensures cause { CountsFaults (faults self.old) (faults self.new) result }
        ensures never_too_large { NeverTooLarge result };

    /// Fills the buffer with the store's bytes from a place on. After a refusal the buffer holds
    /// anything.
    fn db_read(&mut self, alloc: Global, at: u64, into: &mut [u8]) -> Result<(), SiteFailed>
        requires { IsTrue tells → at + length into.old ≤ length (world self.old).store }
        ensures bytes { IsTrue tells
            → OnOk result (into.new ≡ take (length into.old) (drop at (world self.old).store)) }
        ensures same { IsTrue tells → world self.new ≡ world self.old }
        ensures crash { IsTrue tells → GoesOn moment left_since self.old self.new NoStep }
        ensures known { IsTrue tells → known self.new ≡ known self.old }
        ensures cause { CountsFaults (faults self.old) (faults self.new) result }
        ensures never_too_large { NeverTooLarge result };

    /// Writes over the store's bytes from a place on, and past its end. After a fault any part of
    /// the range may hold anything, and all else stays.
    fn db_write(&mut self, alloc: Global, at: u64, bytes: &[u8]) -> Result<(), SiteFailed>
        requires { IsTrue tells → at ≤ length (world self.old).store }
        ensures written { IsTrue tells
            → OnOk result (Holds (world self.old).store at bytes.now (world self.new).store) }
        ensures torn { IsTrue tells
            → OnErr result
            (IsTorn at (length bytes.now) (world self.old).store (world self.new).store) }
        ensures tree { IsTrue tells → TreeStays (world self.old) (world self.new) }
        ensures memory { IsTrue tells → result ≡ Err Memory → world self.new ≡ world self.old }
        ensures crash { IsTrue tells → GoesOn moment left_since self.old self.new
            (WriteStep at (length bytes.now)) }
        ensures known { IsTrue tells → known self.new ≡ known self.old }
        ensures cause { CountsFaults (faults self.old) (faults self.new) result }
        ensures never_too_large { NeverTooLarge result };

    /// Makes the store's bytes durable.
    fn db_sync(&mut self, alloc: Global) -> Result<(), SiteFailed>
        ensures same { IsTrue tells → world self.new ≡ world self.old }
        ensures durable { IsTrue tells
            → OnOk result (PinsStore (left_since self.new (moment self.new)) (world self.old)) }
        ensures crash { IsTrue tells → GoesOn moment left_since self.old self.new NoStep }
        ensures known { IsTrue tells → known self.new ≡ known self.old }
        ensures cause { CountsFaults (faults self.old) (faults self.new) result }
        ensures never_too_large { NeverTooLarge result };

    /// Cuts the store to a length; one that is no longer stays. After a fault it is cut or not.
    fn db_cut(&mut self, alloc: Global, len: u64) -> Result<(), SiteFailed>
        ensures cut { IsTrue tells
            → OnOk result ((world self.new).store ≡ take len (world self.old).store) }
        ensures cut_or_not { IsTrue tells
            → OnErr result (IsCutOrNot len (world self.old).store (world self.new).store) }
        ensures tree { IsTrue tells → TreeStays (world self.old) (world self.new) }
        ensures memory { IsTrue tells → result ≡ Err Memory → world self.new ≡ world self.old }
        ensures crash { IsTrue tells → GoesOn moment left_since self.old self.new (CutStep len) }
        ensures known { IsTrue tells → known self.new ≡ known self.old }
        ensures cause { CountsFaults (faults self.old) (faults self.new) result }
        ensures never_too_large { NeverTooLarge result };

    /// How often the outside has failed.
    fn faults(&self) -> u64
        ensures { result ≡ faults self.now };

    /// How many files it may have, and how many bytes a file that it reads.
    fn limits(&self) -> Limits
        ensures { result ≡ limits };

    /// Each site allows what one in memory does, and none allows more than a real disk.
    ghost are_limits: { AreLimits limits };

    /// A site that tells its world allows just what one in memory does.
    ghost told_limits: { IsTrue tells → limits ≡ least };

    /// What the site tells is a tree of files.
    ghost is_tree: { (site : Self) → IsTrue tells → IsTree (world site).tree };

    /// No two contents that it knows have one stamp.
    ghost is_known: { (site : Self) → IsTrue tells → IsKnown (known site) };

    /// It knows the contents of its files.
    ghost knows_tree: { (site : Self) → IsTrue tells → KnowsTree (known site) (world site).tree };

    /// A crash now may leave all as it is.
    ghost present: { (site : Self) → IsTrue tells → left_since site (moment site) (world site) };

    /// What a crash since a moment may leave, one since an earlier moment may leave.
    ghost earlier: { (site : Self) (t u : ℕ) (w : World) → IsTrue tells → t ≤ u
        → left_since site u w → left_since site t w };

    /// What a crash leaves is a tree of files.
    ghost leaves_tree: { (site : Self) (t : ℕ) (w : World) → IsTrue tells → left_since site t w
        → IsTree w.tree };

    /// No content of what a crash now may leave has the stamp of another, or of one that is known.
    ghost leaves_known: { (site : Self) (w : World) → IsTrue tells → left_since site (moment site) w
        → Joins (known site) w.tree };
}
