//! How the store of a site is read and written.
ghost use Rattle.std.specs.Prelude.{◌≡◌, ◌↔◌, ◌++◌, ◌∷◌, [], ◌+◌, ◌<◌, ◌≤◌, List, length, take, drop, IsTrue, IfOk, OnOk};
ghost use Rattle.tup_site.specs.Crash.{GoesOn, NoStep, WriteStep, PinsStore};
ghost use Rattle.tup_site.specs.Store.{Holds};
ghost use Rattle.tup_site.specs.World.{TreeStays};
ghost use Rattle.tup_table.specs.Cause.{CountsFaults, OnlyOutside};
ghost use Rattle.tup_table.specs.Entries.{entries_of};
ghost use Rattle.tup_table.specs.Images.{CommitStep, EndStep, IsNext, LacksGate, closed_end, written_at};
ghost use Rattle.tup_table.specs.Store.{IsEnd};
ghost use Rattle.tup_table.specs.Table.{Rests};
ghost use Rattle.tup_table.specs.declared.change.Change.{Change};

use crate::fault::TableFault;
use std::alloc::Global;
use tup_site::Site;

/// The bytes of the store, which from then on are what a crash leaves.
pub(crate) fn durable_bytes<S: Site>(alloc: Global, site: &mut S) -> Result<Vec<u8>, TableFault>
    ensures bytes { IsTrue S.tells → IfOk result (λ bytes. bytes.items ≡ (S.world site.old).store) }
    ensures durable { IsTrue S.tells
        → OnOk result (PinsStore (S.left_since site.new (S.moment site.new)) (S.world site.new)) }
    ensures same { IsTrue S.tells → S.world site.new ≡ S.world site.old }
    ensures crash { IsTrue S.tells → GoesOn S.moment S.left_since site.old site.new NoStep }
    ensures known { IsTrue S.tells → S.known site.new ≡ S.known site.old }
    ensures outside { OnlyOutside result }
    ensures cause { CountsFaults (S.faults site.old) (S.faults site.new) result }
{
    site.db_sync(alloc)?;
    let len = site.db_len(alloc)?;
    let mut bytes = vec![in alloc; 0; len as usize]?;
    site.db_read(alloc, 0, &mut bytes)?;
    Ok(bytes)
}

/// Writes bytes over the store from a place on, durably. After a refusal any part of the range may hold anything.
pub(crate) fn write_through<S: Site>(
    alloc: Global,
    site: &mut S,
    at: u64,
    bytes: &[u8],
) -> Result<(), TableFault>
    requires { IsTrue S.tells → at ≤ length (S.world site.old).store }
    ensures written { IsTrue S.tells
        → OnOk result (Holds (S.world site.old).store at bytes.now (S.world site.new).store) }
    ensures durable { IsTrue S.tells
        → OnOk result (PinsStore (S.left_since site.new (S.moment site.new)) (S.world site.new)) }
    ensures step { IsTrue S.tells
        → WriteStep at (length bytes.now) (S.world site.old) (S.world site.new) }
    ensures tree { IsTrue S.tells → TreeStays (S.world site.old) (S.world site.new) }
    ensures crash { IsTrue S.tells
        → GoesOn S.moment S.left_since site.old site.new (WriteStep at (length bytes.now)) }
    ensures known { IsTrue S.tells → S.known site.new ≡ S.known site.old }
    ensures outside { OnlyOutside result }
    ensures cause { CountsFaults (S.faults site.old) (S.faults site.new) result }
{
    site.db_write(alloc, at, bytes)?;
    Ok(site.db_sync(alloc)?)
}

/// Writes a closed gate at the end of a store, durably, where no gate stands or an open one with nothing behind it.
pub(crate) fn close_end<S: Site>(
    alloc: Global,
    site: &mut S,
    bytes: &[u8],
    gate: u64,
) -> Result<(), TableFault>
    requires inside { gate ≤ length bytes.now }
    requires ends { IsEnd (drop gate bytes.now) }
    requires bytes { IsTrue S.tells → bytes.now ≡ (S.world site.old).store }
    requires durable { IsTrue S.tells
        → PinsStore (S.left_since site.old (S.moment site.old)) (S.world site.old) }
    ensures store { IsTrue S.tells → OnOk result
        ((S.world site.new).store ≡ take gate bytes.now ++ closed_end (drop gate bytes.now)) }
    ensures durable { IsTrue S.tells
        → OnOk result (PinsStore (S.left_since site.new (S.moment site.new)) (S.world site.new)) }
    ensures step { IsTrue S.tells
        → EndStep gate bytes.now (S.world site.old) (S.world site.new) }
    ensures tree { IsTrue S.tells → TreeStays (S.world site.old) (S.world site.new) }
    ensures crash { IsTrue S.tells
        → GoesOn S.moment S.left_since site.old site.new (EndStep gate bytes.now) }
    ensures known { IsTrue S.tells → S.known site.new ≡ S.known site.old }
    ensures outside { OnlyOutside result }
    ensures cause { CountsFaults (S.faults site.old) (S.faults site.new) result }
{
    if lacks_gate(bytes, gate) {
        return write_through(alloc, site, gate, &[0]);
    }
    Ok(())
}

/// Whether no closed gate stands at the end of a store's commits: none at all, or an open one with nothing behind it.
fn lacks_gate(bytes: &[u8], gate: u64) -> bool
    requires { gate ≤ length bytes.now }
    ensures { IsTrue result ↔ LacksGate (drop gate bytes.now) }
{
    matches!(&bytes[gate as usize..], [] | [1])
}

/// Writes a commit behind the gate at an offset, and opens the gate once it is durable. The gate stays closed until then,
/// so that a crash leaves the commit whole or not at all.
pub(crate) fn write_commit<S: Site>(
    alloc: Global,
    site: &mut S,
    gate: u64,
    bytes: &[u8],
) -> Result<(), TableFault>
    requires room { gate + (1 + length bytes.now) ≤ 2147483648 }
    requires inside { IsTrue S.tells → gate < length (S.world site.old).store }
    ensures rests { IsTrue S.tells → (commits : List (List Change)) (changes : List Change)
        → Rests S.world S.moment S.left_since commits site.old
        → IsNext commits changes gate bytes.now
        → OnOk result (Rests S.world S.moment S.left_since (commits ++ changes ∷ []) site.new) }
    ensures bytes { IsTrue S.tells → (commits : List (List Change)) (changes : List Change)
        → Rests S.world S.moment S.left_since commits site.old
        → IsNext commits changes gate bytes.now
        → OnOk result ((S.world site.new).store
        ≡ written_at gate changes (S.world site.old).store) }
    ensures step { IsTrue S.tells
        → WriteStep gate (1 + length bytes.now) (S.world site.old) (S.world site.new) }
    ensures tree { IsTrue S.tells → TreeStays (S.world site.old) (S.world site.new) }
    ensures behind { IsTrue S.tells → GoesOn S.moment S.left_since site.old site.new
        (WriteStep gate (1 + length bytes.now)) }
    ensures crash { IsTrue S.tells → (commits : List (List Change)) (changes : List Change)
        → Rests S.world S.moment S.left_since commits site.old
        → IsNext commits changes gate bytes.now
        → GoesOn S.moment S.left_since site.old site.new
        (CommitStep (entries_of commits) (entries_of (commits ++ changes ∷ []))) }
    ensures known { IsTrue S.tells → S.known site.new ≡ S.known site.old }
    ensures outside { OnlyOutside result }
    ensures cause { CountsFaults (S.faults site.old) (S.faults site.new) result }
{
    write_through(alloc, site, gate + 1, bytes)?;
    write_through(alloc, site, gate, &[1])
}
