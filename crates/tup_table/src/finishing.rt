//! How a store is compacted.
ghost use Rattle.std.specs.Prelude.{◌≡◌, ◌+◌, ◌≤◌, List, length, take, drop, IsTrue, IfOk, OnOk};
ghost use Rattle.byteorder.specs.Endian.{big_bytes, big_number};
ghost use Rattle.tup_site.specs.Crash.{GoesOn, CutStep, PinsStore};
ghost use Rattle.tup_site.specs.World.{TreeStays};
ghost use Rattle.tup_table.specs.Cause.{CountsFaults, OnlyOutside};
ghost use Rattle.tup_table.specs.Compact.{compact_area as area_of, compacted, live_size};
ghost use Rattle.tup_table.specs.Entries.{Standing, entries_of};
ghost use Rattle.tup_table.specs.Images.{CompactStep, FinishStep, compacted_store};
ghost use Rattle.tup_table.specs.Store.{most_live};
ghost use Rattle.tup_table.specs.Table.{Rests, Switches, HoldsBoth};
ghost use Rattle.tup_table.specs.declared.change.Change.{Change};

use crate::fault::TableFault;
use crate::reading::LOW;
use crate::writing::write_through;
use byteorder::{BigEndian, ByteOrder};
use std::alloc::Global;
use tup_site::Site;

/// The offset of the switch.
const SWITCH: u64 = 8;

/// The offset of the start.
const START: u64 = 9;

/// Compacts a store whose switch is closed, to this low area.
pub(crate) fn write_compact<S: Site>(
    alloc: Global,
    site: &mut S,
    area: &[u8],
) -> Result<(), TableFault>
    requires inside { IsTrue S.tells → 17 ≤ length (S.world site.old).store }
    ensures rests { IsTrue S.tells → (commits : List (List Change))
        → Rests S.world S.moment S.left_since commits site.old
        → area.now ≡ area_of (entries_of commits) → live_size (entries_of commits) ≤ most_live
        → OnOk result (Rests S.world S.moment S.left_since (compacted (entries_of commits)) site.new) }
    ensures store { IsTrue S.tells → (commits : List (List Change))
        → Rests S.world S.moment S.left_since commits site.old
        → area.now ≡ area_of (entries_of commits) → live_size (entries_of commits) ≤ most_live
        → OnOk result ((S.world site.new).store
        ≡ compacted_store (big_bytes 8 (length (S.world site.old).store)) (entries_of commits)) }
    ensures tree { IsTrue S.tells → TreeStays (S.world site.old) (S.world site.new) }
    ensures crash { IsTrue S.tells → (commits : List (List Change))
        → Rests S.world S.moment S.left_since commits site.old
        → area.now ≡ area_of (entries_of commits) → live_size (entries_of commits) ≤ most_live
        → GoesOn S.moment S.left_since site.old site.new (CompactStep (entries_of commits)) }
    ensures known { IsTrue S.tells → S.known site.new ≡ S.known site.old }
    ensures outside { OnlyOutside result }
    ensures cause { CountsFaults (S.faults site.old) (S.faults site.new) result }
{
    write_high(alloc, site, area)?;
    write_through(alloc, site, SWITCH, &[1])?;
    finish(alloc, site, area)
}

/// Writes the high area at the end of the store, and its start, durably.
fn write_high<S: Site>(alloc: Global, site: &mut S, area: &[u8]) -> Result<(), TableFault>
    requires inside { IsTrue S.tells → 17 ≤ length (S.world site.old).store }
    ensures both { IsTrue S.tells → (commits : List (List Change))
        → Rests S.world S.moment S.left_since commits site.old
        → OnOk result (HoldsBoth S.world S.moment S.left_since commits
        (big_bytes 8 (length (S.world site.old).store)) area.now site.new) }
    ensures long { IsTrue S.tells → OnOk result (17 ≤ length (S.world site.new).store) }
    ensures tree { IsTrue S.tells → TreeStays (S.world site.old) (S.world site.new) }
    ensures crash { IsTrue S.tells → (commits : List (List Change))
        → Rests S.world S.moment S.left_since commits site.old
        → GoesOn S.moment S.left_since site.old site.new (CompactStep (entries_of commits)) }
    ensures known { IsTrue S.tells → S.known site.new ≡ S.known site.old }
    ensures outside { OnlyOutside result }
    ensures cause { CountsFaults (S.faults site.old) (S.faults site.new) result }
{
    let start = site.db_len(alloc)?;
    site.db_write(alloc, start, area)?;
    let eight = place_bytes(start);
    write_through(alloc, site, START, &eight)
}

/// The bytes of a place in the store, which are read as it.
fn place_bytes(place: u64) -> [u8; 8]
    ensures bytes { result ≡ big_bytes 8 place }
    ensures says { big_number 8 result ≡ place }
{
    let mut eight = [0; 8];
    BigEndian::write_u64(&mut eight, place);
    eight
}

/// Finishes to compact a store whose switch is open, to this low area: writes it, closes the switch, and cuts the store
/// behind it, each durably.
pub(crate) fn finish<S: Site>(alloc: Global, site: &mut S, area: &[u8]) -> Result<(), TableFault>
    requires inside { IsTrue S.tells → 17 ≤ length (S.world site.old).store }
    ensures store { IsTrue S.tells → (commits : List (List Change))
        → Switches S.world S.moment S.left_since commits area.now site.old
        → OnOk result ((S.world site.new).store
        ≡ compacted_store (take 8 (drop 9 (S.world site.old).store)) (entries_of commits)) }
    ensures rests { IsTrue S.tells → (commits : List (List Change))
        → Switches S.world S.moment S.left_since commits area.now site.old
        → OnOk result (Rests S.world S.moment S.left_since (compacted (entries_of commits)) site.new) }
    ensures tree { IsTrue S.tells → TreeStays (S.world site.old) (S.world site.new) }
    ensures crash { IsTrue S.tells → (commits : List (List Change))
        → Switches S.world S.moment S.left_since commits area.now site.old
        → GoesOn S.moment S.left_since site.old site.new
        (FinishStep (S.world site.old).store) }
    ensures known { IsTrue S.tells → S.known site.new ≡ S.known site.old }
    ensures outside { OnlyOutside result }
    ensures cause { CountsFaults (S.faults site.old) (S.faults site.new) result }
{
    write_through(alloc, site, LOW, area)?;
    write_through(alloc, site, SWITCH, &[0])?;
    cut_through(alloc, site, LOW + area.len() as u64)
}

/// Cuts the store to a length, durably.
fn cut_through<S: Site>(alloc: Global, site: &mut S, len: u64) -> Result<(), TableFault>
    ensures cut { IsTrue S.tells
        → OnOk result ((S.world site.new).store ≡ take len (S.world site.old).store) }
    ensures durable { IsTrue S.tells
        → OnOk result (PinsStore (S.left_since site.new (S.moment site.new)) (S.world site.new)) }
    ensures tree { IsTrue S.tells → TreeStays (S.world site.old) (S.world site.new) }
    ensures crash { IsTrue S.tells
        → GoesOn S.moment S.left_since site.old site.new (CutStep len) }
    ensures known { IsTrue S.tells → S.known site.new ≡ S.known site.old }
    ensures outside { OnlyOutside result }
    ensures cause { CountsFaults (S.faults site.old) (S.faults site.new) result }
{
    site.db_cut(alloc, len)?;
    Ok(site.db_sync(alloc)?)
}
