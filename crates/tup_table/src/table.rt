//! A table over the store of a site.
ghost use Rattle.std.specs.Prelude.{◌≡◌, ◌≢◌, ◌⊎◌, ◌++◌, ◌∷◌, [], ◌+◌, ◌*◌, ◌<◌, ◌≤◌, false, length, All, ◌↔◌, IsTrue, IfOk, IfErr, OnOk, Err, MatchResult, option_map};
ghost use Rattle.std.specs.Option.{option_copied};
ghost use Rattle.tup_path.specs.Gives.{GivesUnless};
ghost use Rattle.tup_site.specs.Crash.{GoesOn, PinsStore, WriteStep};
ghost use Rattle.tup_site.specs.World.{TreeStays};
ghost use Rattle.byteorder.specs.Endian.{big_bytes};
ghost use Rattle.tup_table.specs.Appending.{HasShortKey, appending};
ghost use Rattle.tup_table.specs.Cause.{CountsFaults, IsOutside, OnlyOutside};
ghost use Rattle.tup_table.specs.Compact.{live_by, live_size, size_of};
ghost use Rattle.tup_table.specs.Entries.{committed, entry_at};
ghost use Rattle.tup_table.specs.Images.{CommitStep, CompactStep, OpenStep, IsEndWritten, compacted_store, rested, written_at};
ghost use Rattle.tup_table.specs.Store.{header, most_live, CommitFits};

use crate::appending::{appended, has_room};
use crate::change::Change;
use crate::compacting::snapshot_of;
use crate::due::Due;
use crate::entries::Entries;
use crate::fault::TableFault;
use crate::finishing::write_compact;
use crate::opened::Opened;
use crate::opening::settle_found;
use crate::reading::{LOW, MAX_LIVE, find, opened};
use crate::size::{live_of, size_after};
use crate::slots::{copies, make_room, settle};
use crate::writing::{durable_bytes, write_commit, write_through};
use std::alloc::Global;
use tup_path::Bytes;
use tup_site::Site;

/// A store without commits: its head, with the switch closed, and a closed gate.
const NO_COMMITS: [u8; 18] = *b"tup-db2\x01\x00\x00\x00\x00\x00\x00\x00\x00\x00\x00";

/// From how many bytes on a store is compacted before a commit, where less than half of them are live.
const LONG: u64 = 536_870_912;

/// A map from keys to values in the store of a site.
///
/// A fresh table stands for the bytes of the store, and a crash leaves just these. A commit that the site refuses may
/// leave the entries before it or after it: the table isn't fresh then, and the store is opened again.
#[derive(Drop)]
pub struct Table {
    entries: Entries,
    /// The offset of the gate at which the next commit goes.
    gate: u64,
    fresh: bool,
}

impl Table {
    ghost use Rattle.tup_table.specs.Table.{entries_in, gate_of, is_fresh, StandsFor, OpensAs, after_commit, after_compacting, after_writing, is_compacted_first, opened_in, ready, ready_bytes, stale, table_of, CommitLeaves, CompactsBefore, CompactFails, CompactLeaves, IsDue, IsOver, IsSparse, WriteLeaves};

    /// Makes a store without entries where there is none, durably. A refusal, or a crash before the end, may leave any
    /// bytes.
    pub fn make<S: Site>(alloc: Global, site: &mut S) -> Result<Table, TableFault>
        requires { IsTrue S.tells → (S.world site.old).store ≡ [] }

        ensures made { IfOk result (λ table. IsTrue (is_fresh table)
            × (entries_in table ≡ []) × (gate_of table ≡ 17)) }
        ensures stands { IsTrue S.tells
            → IfOk result (λ table. StandsFor S.world S.moment S.left_since table site.new) }
        ensures store { IsTrue S.tells → OnOk result ((S.world site.new).store ≡ header ++ 0 ∷ []) }

        // What it changes meanwhile, and what a crash may leave then: the first bytes of the store.
        ensures tree { IsTrue S.tells → TreeStays (S.world site.old) (S.world site.new) }
        ensures crash { IsTrue S.tells
            → GoesOn S.moment S.left_since site.old site.new (WriteStep 0 18) }
        ensures known { IsTrue S.tells → S.known site.new ≡ S.known site.old }

        ensures outside { OnlyOutside result }
        ensures cause { CountsFaults (S.faults site.old) (S.faults site.new) result }
    {
        write_through(alloc, site, 0, &NO_COMMITS)?;
        Ok(Table {
            entries: Entries::new(alloc),
            gate: LOW,
            fresh: true,
        })
    }

    /// Opens the store of a site: what it reads is what a crash leaves from then on. A gate that is missing at the end of
    /// the store, or stands open there with nothing behind it, is written closed. Where the switch is open, compacting is
    /// finished; nothing else is written.
    pub fn open<S: Site>(alloc: Global, site: &mut S) -> Result<Table, TableFault>
        // Entries, `NotThere` and `BadStore` are by the bytes alone.
        ensures opens { IsTrue S.tells → OpensAs (S.world site.old).store result }
        ensures fresh { IfOk result (λ table. IsTrue (is_fresh table)) }
        ensures stands { IsTrue S.tells
            → IfOk result (λ table. StandsFor S.world S.moment S.left_since table site.new) }

        // The bytes afterwards.
        ensures store { IsTrue S.tells → IfOk result (λ table. (S.world site.new).store
            ≡ rested (S.world site.old).store (opened_in table)) }
        ensures refused { IsTrue S.tells → IfErr result
            (λ fault. IsOutside fault ⊎ (S.world site.new ≡ S.world site.old)) }
        // Whatever it answers, all is as it was, or the store has the same entries, and nothing but
        // a closed gate that its end lacks was written, one byte, whichever, where that failed; and
        // what finishes compacting.
        ensures keeps { IsTrue S.tells → (S.world site.new ≡ S.world site.old)
            ⊎ OpenStep (S.world site.old) (S.world site.new) }

        // What it changes meanwhile, and what a crash may leave then: the same entries.
        ensures tree { IsTrue S.tells → TreeStays (S.world site.old) (S.world site.new) }
        ensures crash { IsTrue S.tells → GoesOn S.moment S.left_since site.old site.new OpenStep }
        ensures known { IsTrue S.tells → S.known site.new ≡ S.known site.old }

        // A refusal of the bytes comes after the sync.
        ensures synced { IsTrue S.tells → IfErr result (λ fault. IsOutside fault
            ⊎ PinsStore (S.left_since site.new (S.moment site.new)) (S.world site.new)) }

        ensures never_full { result ≢ Err TableFault.Full }
        ensures cause { CountsFaults (S.faults site.old) (S.faults site.new) result }
    {
        let bytes = durable_bytes(alloc, site)?;
        let found = find(alloc, &bytes)?;
        settle_found(alloc, site, &bytes, &found)?;
        Ok(Table::of(opened(found)))
    }

    /// The fresh table of what bytes stand for.
    fn of(opened: Opened) -> Table
        ensures { result ≡ table_of opened }
    {
        Table {
            entries: opened.entries,
            gate: opened.gate,
            fresh: true,
        }
    }

    /// The value of a key. It takes the logarithm of the number of keys in steps.
    pub fn get(&self, key: &Bytes) -> Option<&Bytes>
        ensures { option_copied result
            ≡ option_map (λ e. e.value) (entry_at (entries_in self.now) key.now) }
    {
        self.entries.get(key)
    }

    /// All entries; going over them takes a step for each.
    pub fn entries(&self) -> &Entries
        ensures { result.now ≡ entries_in self.now }
    {
        &self.entries
    }

    /// The offset of the gate of the commit that put a key's value.
    pub fn origin(&self, key: &Bytes) -> Option<u64>
        ensures { result ≡ option_map (λ e. e.origin) (entry_at (entries_in self.now) key.now) }
    {
        self.entries.origin(key)
    }

    /// Whether the table stands for the store.
    pub fn fresh(&self) -> bool
        ensures { result ≡ is_fresh self.now }
    {
        self.fresh
    }

    /// Carries out changes one after another, all of them or none: from the first moment of the call on, a crash leaves
    /// the entries before it or after it, and after `Ok` those after it.
    ///
    /// The store is compacted first where it would pass 536,870,912 bytes up to its next gate, and less than half of it is
    /// live. `Full` where its live size after the commit would pass 268,435,456, and nothing was written. After `Site`, and
    /// after `Memory` from the first write on, the table isn't fresh; its entries stay.
    pub fn commit<S: Site>(
        &mut self,
        alloc: Global,
        site: &mut S,
        changes: &[Change],
    ) -> Result<(), TableFault>
        requires fresh { IsTrue (is_fresh self.old) }
        requires keys { All HasShortKey changes.now }
        requires stands { IsTrue S.tells
            → StandsFor S.world S.moment S.left_since self.old site.old }

        ensures leaves { CommitLeaves changes.now self.old self.new site.old site.new result }
        ensures fits { IsOver self.old changes.now
            → GivesUnless result TableFault.Memory (Err TableFault.Full) }
        ensures stands { IsTrue S.tells → IsTrue (is_fresh self.new)
            → StandsFor S.world S.moment S.left_since self.new site.new }

        // The bytes afterwards.
        ensures bytes { IsTrue S.tells → OnOk result ((S.world site.new).store
            ≡ written_at (gate_of (ready self.old changes.now)) changes.now
            (ready_bytes self.old changes.now (S.world site.old).store)) }
        // Where the store isn't compacted first, a crash changes nothing in front of the gate or behind the commit.
        ensures behind { IsTrue S.tells → is_compacted_first self.old changes.now ≡ false
            → GoesOn S.moment S.left_since site.old site.new
            (WriteStep (gate_of self.old) (1 + length (appending changes.now))) }

        // Whatever it answers, the store has the entries before it or those after it.
        ensures keeps { IsTrue S.tells → CommitStep (entries_in self.old)
            (entries_in (after_commit self.old changes.now)) (S.world site.old) (S.world site.new) }

        // What it changes meanwhile, and what a crash may leave then: the entries before it or after it.
        ensures tree { IsTrue S.tells → TreeStays (S.world site.old) (S.world site.new) }
        ensures crash { IsTrue S.tells → GoesOn S.moment S.left_since site.old site.new
            (CommitStep (entries_in self.old) (entries_in (after_commit self.old changes.now))) }
        ensures known { IsTrue S.tells → S.known site.new ≡ S.known site.old }

        ensures cause { CountsFaults (S.faults site.old) (S.faults site.new) result }
    {
        self.entries.keys_ascend();
        let Due { bytes, size, first } = self.due(alloc, changes)?;
        if !first {
            return self.write(alloc, site, changes, &bytes, size);
        }
        let mut table = self.compacted(alloc, site)?;
        table.write(alloc, site, changes, &bytes, size)?;
        *self = table;
        Ok(())
    }

    /// A commit of changes as it is written, if the store has room for it.
    fn due(&self, alloc: Global, changes: &[Change]) -> Result<Due, TableFault>
        requires { All HasShortKey changes.now }
        ensures { MatchResult result (IsDue self.now changes.now)
            (λ fault. (fault ≡ TableFault.Memory)
            ⊎ ((fault ≡ TableFault.Full) × IsOver self.now changes.now)) }
    {
        self.entries.keys_ascend();
        let size = size_after(alloc, &self.entries, changes)?;
        let bytes = appended(alloc, 0, changes)?;
        let first = self.is_compacted_first(&bytes);
        let gate = self.gate_for(first);
        if !fits_behind(gate, size, &bytes) {
            return Err(TableFault::Full);
        }
        Ok(Due { bytes, size, first })
    }

    /// The offset of the gate at which a commit goes, by whether the store is compacted first.
    fn gate_for(&self, first: bool) -> u64
        ensures first { IsTrue first → result + 1 ≡ live_size (entries_in self.now) }
        ensures plain { first ≡ false → result ≡ gate_of self.now }
    {
        if first {
            let live = self.live();
            return live - 1;
        }
        self.gate
    }

    /// Whether the store is compacted before a commit that puts these bytes behind its gate.
    fn is_compacted_first(&self, bytes: &Bytes) -> bool
        ensures { IsTrue result ↔ CompactsBefore self.now (length bytes.now) }
    {
        let live = self.live();
        let len = bytes.as_slice().len() as u64;
        live <= MAX_LIVE && (2 * live <= self.gate && LONG.saturating_sub(len) <= self.gate)
    }

    /// Writes a commit at the gate, and takes in its changes, after which the entries take this many bytes.
    fn write<S: Site>(
        &mut self,
        alloc: Global,
        site: &mut S,
        changes: &[Change],
        bytes: &Bytes,
        size: u64,
    ) -> Result<(), TableFault>
        requires fresh { IsTrue (is_fresh self.old) }
        requires fits { CommitFits changes.now }
        requires bytes { bytes.now ≡ appending changes.now }
        requires room { gate_of self.old + (1 + length (appending changes.now)) ≤ 2147483648 }
        requires size { (size ≡ size_of (committed (gate_of self.old) (entries_in self.old) changes.now))
            × (size ≤ 4611686018427387904) }
        requires stands { IsTrue S.tells
            → StandsFor S.world S.moment S.left_since self.old site.old }
        ensures leaves { WriteLeaves changes.now self.old self.new site.old site.new result }
        ensures stands { IsTrue S.tells → IsTrue (is_fresh self.new)
            → StandsFor S.world S.moment S.left_since self.new site.new }
        ensures bytes { IsTrue S.tells → OnOk result ((S.world site.new).store
            ≡ written_at (gate_of self.old) changes.now (S.world site.old).store) }
        ensures step { IsTrue S.tells → WriteStep (gate_of self.old) (1 + length (appending changes.now))
            (S.world site.old) (S.world site.new) }
        ensures tree { IsTrue S.tells → TreeStays (S.world site.old) (S.world site.new) }
        ensures crash { IsTrue S.tells → GoesOn S.moment S.left_since site.old site.new
            (CommitStep (entries_in self.old)
            (entries_in (after_writing self.old changes.now))) }
        ensures behind { IsTrue S.tells → GoesOn S.moment S.left_since site.old site.new
            (WriteStep (gate_of self.old) (1 + length (appending changes.now))) }
        ensures known { IsTrue S.tells → S.known site.new ≡ S.known site.old }
        ensures cause { CountsFaults (S.faults site.old) (S.faults site.new) result }
    {
        let copies = copies(alloc, changes)?;
        let entries = &mut self.entries;
        make_room(alloc, &mut entries.slots, changes)?;
        self.fresh = false;
        write_commit(alloc, site, self.gate, bytes.as_slice())?;
        settle(&mut entries.slots, copies, self.gate);
        entries.size = size;
        self.gate += bytes.as_slice().len() as u64;
        self.fresh = true;
        Ok(())
    }

    /// How many bytes the store has once it is compacted.
    pub fn live(&self) -> u64
        ensures { result ≡ live_size (entries_in self.now) }
    {
        self.entries.live()
    }

    /// Whether compacting a store of this many bytes is worth it: it has more than 1,048,576, and more than four times as
    /// many as are live.
    pub fn is_sparse(&self, len: u64) -> bool
        ensures { IsTrue result ↔ IsSparse self.now len }
    {
        let live = self.live();
        live <= MAX_LIVE && len > 1_048_576 && len > 4 * live
    }

    /// Makes one commit of all entries, and cuts off what was replaced or deleted. From the first moment of the call on, a
    /// crash leaves the same entries. A store of more than 268,435,456 live bytes stays as it is.
    ///
    /// After `Site`, and after `Memory` from the first write on, the table isn't fresh; its entries stay.
    pub fn compact<S: Site>(&mut self, alloc: Global, site: &mut S) -> Result<(), TableFault>
        requires fresh { IsTrue (is_fresh self.old) }
        requires stands { IsTrue S.tells
            → StandsFor S.world S.moment S.left_since self.old site.old }
        ensures leaves { CompactLeaves self.old self.new site.old site.new result }
        ensures stands { IsTrue S.tells → IsTrue (is_fresh self.new)
            → StandsFor S.world S.moment S.left_since self.new site.new }
        ensures bytes { IsTrue S.tells → live_size (entries_in self.old) ≤ most_live
            → OnOk result ((S.world site.new).store ≡ compacted_store
            (big_bytes 8 (length (S.world site.old).store)) (entries_in self.old)) }
        ensures keeps { IsTrue S.tells → (S.world site.new ≡ S.world site.old)
            ⊎ CompactStep (entries_in self.old) (S.world site.old) (S.world site.new) }
        ensures tree { IsTrue S.tells → TreeStays (S.world site.old) (S.world site.new) }
        ensures crash { IsTrue S.tells → GoesOn S.moment S.left_since site.old site.new
            (CompactStep (entries_in self.old)) }
        ensures known { IsTrue S.tells → S.known site.new ≡ S.known site.old }
        ensures outside { OnlyOutside result }
        ensures cause { CountsFaults (S.faults site.old) (S.faults site.new) result }
    {
        if self.live() > MAX_LIVE {
            return Ok(());
        }
        let table = self.compacted(alloc, site)?;
        *self = table;
        Ok(())
    }

    /// Compacts the store, and gives the table that stands for it then. The old one isn't fresh once something is written.
    fn compacted<S: Site>(&mut self, alloc: Global, site: &mut S) -> Result<Table, TableFault>
        requires fresh { IsTrue (is_fresh self.old) }
        requires small { live_size (entries_in self.old) ≤ most_live }
        requires stands { IsTrue S.tells
            → StandsFor S.world S.moment S.left_since self.old site.old }
        ensures fails { IfErr result (CompactFails self.old self.new site.old site.new) }
        ensures made { OnOk result (self.new ≡ stale self.old) }
        ensures table { IfOk result (λ table. table ≡ after_compacting self.old) }
        ensures stands { IsTrue S.tells
            → IfOk result (λ table. StandsFor S.world S.moment S.left_since table site.new) }
        ensures bytes { IsTrue S.tells → OnOk result ((S.world site.new).store ≡ compacted_store
            (big_bytes 8 (length (S.world site.old).store)) (entries_in self.old)) }
        ensures tree { IsTrue S.tells → TreeStays (S.world site.old) (S.world site.new) }
        ensures crash { IsTrue S.tells → GoesOn S.moment S.left_since site.old site.new
            (CompactStep (entries_in self.old)) }
        ensures known { IsTrue S.tells → S.known site.new ≡ S.known site.old }
        ensures outside { OnlyOutside result }
        ensures cause { CountsFaults (S.faults site.old) (S.faults site.new) result }
    {
        let snapshot = snapshot_of(alloc, &self.entries)?;
        self.fresh = false;
        write_compact(alloc, site, snapshot.area.as_slice())?;
        Ok(Table::of(snapshot.opened))
    }
}

/// Whether a commit of these bytes has room at the gate at an offset, and the store isn't too large once its entries take this
/// many bytes.
fn fits_behind(gate: u64, size: u64, bytes: &Bytes) -> bool
    requires { size ≤ 4611686018427387904 }
    ensures { IsTrue result
        ↔ (live_by size ≤ most_live) × (gate + (1 + length bytes.now) ≤ 2147483648) }
{
    live_of(size) <= MAX_LIVE && has_room(gate, bytes)
}
