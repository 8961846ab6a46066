//! How a store that was read is settled.
ghost use Rattle.std.specs.Prelude.{◌≡◌, ◌⊎◌, IsTrue, OnOk};
ghost use Rattle.tup_site.specs.Crash.{GoesOn, PinsStore};
ghost use Rattle.tup_site.specs.World.{TreeStays};
ghost use Rattle.tup_table.specs.Cause.{CountsFaults, OnlyOutside};
ghost use Rattle.tup_table.specs.Images.{OpenStep, rested};
ghost use Rattle.tup_table.specs.Reading.{WasFound, opened_by};
ghost use Rattle.tup_table.specs.Table.{StandsFor, table_of};

use crate::compacting::Snapshot;
use crate::fault::TableFault;
use crate::finishing::finish;
use crate::found::Found;
use crate::writing::close_end;
use std::alloc::Global;
use tup_site::Site;

/// Writes a closed gate where one is missing at the end of the area that was read, and finishes to compact a store whose
/// switch is open.
pub(crate) fn settle_found<S: Site>(
    alloc: Global,
    site: &mut S,
    bytes: &[u8],
    found: &Found,
) -> Result<(), TableFault>
    requires found { WasFound bytes.now found.now }
    requires bytes { IsTrue S.tells → bytes.now ≡ (S.world site.old).store }
    requires durable { IsTrue S.tells
        → PinsStore (S.left_since site.old (S.moment site.old)) (S.world site.old) }
    ensures store { IsTrue S.tells → OnOk result
        ((S.world site.new).store ≡ rested bytes.now (opened_by found.now)) }
    ensures stands { IsTrue S.tells → OnOk result
        (StandsFor S.world S.moment S.left_since (table_of (opened_by found.now)) site.new) }
    ensures keeps { IsTrue S.tells → (S.world site.new ≡ S.world site.old)
        ⊎ OpenStep (S.world site.old) (S.world site.new) }
    ensures tree { IsTrue S.tells → TreeStays (S.world site.old) (S.world site.new) }
    ensures crash { IsTrue S.tells → GoesOn S.moment S.left_since site.old site.new OpenStep }
    ensures known { IsTrue S.tells → S.known site.new ≡ S.known site.old }
    ensures outside { OnlyOutside result }
    ensures cause { CountsFaults (S.faults site.old) (S.faults site.new) result }
{
    match found {
        Found::Low(opened) => close_end(alloc, site, bytes, opened.gate),
        Found::High { snapshot, end } => settle_high(alloc, site, bytes, snapshot, *end),
    }
}

/// Writes a closed gate where one is missing at the end of the high area, and finishes to compact the store.
fn settle_high<S: Site>(
    alloc: Global,
    site: &mut S,
    bytes: &[u8],
    snapshot: &Snapshot,
    end: u64,
) -> Result<(), TableFault>
    requires found { WasFound bytes.now (Found.High snapshot.now end) }
    requires bytes { IsTrue S.tells → bytes.now ≡ (S.world site.old).store }
    requires durable { IsTrue S.tells
        → PinsStore (S.left_since site.old (S.moment site.old)) (S.world site.old) }
    ensures store { IsTrue S.tells → OnOk result
        ((S.world site.new).store ≡ rested bytes.now snapshot.now.opened) }
    ensures stands { IsTrue S.tells → OnOk result
        (StandsFor S.world S.moment S.left_since (table_of snapshot.now.opened) site.new) }
    ensures keeps { IsTrue S.tells → (S.world site.new ≡ S.world site.old)
        ⊎ OpenStep (S.world site.old) (S.world site.new) }
    ensures tree { IsTrue S.tells → TreeStays (S.world site.old) (S.world site.new) }
    ensures crash { IsTrue S.tells → GoesOn S.moment S.left_since site.old site.new OpenStep }
    ensures known { IsTrue S.tells → S.known site.new ≡ S.known site.old }
    ensures outside { OnlyOutside result }
    ensures cause { CountsFaults (S.faults site.old) (S.faults site.new) result }
{
    close_end(alloc, site, bytes, end)?;
    finish(alloc, site, snapshot.area.as_slice())
}
