//! How the bytes of a store are read.
ghost use Rattle.std.specs.Prelude.{◌≡◌, ◌≢◌, ◌⊎◌, ◌∷◌, ◌++◌, [], ◌+◌, ◌-◌, ◌<◌, ◌≤◌, ◌↔◌, take, drop, List, ℕ, length, IsTrue, Ok, Err, Result, MatchOption, MatchResult};
ghost use Rattle.tup_path.specs.Gives.{GivesUnless};
ghost use Rattle.tup_table.specs.Front.{Front, NoFront};
ghost use Rattle.tup_table.specs.Spelling.{change_spelling, ChangeFits, payload as payload_of, ChangesFit, commit, CommitFits};
ghost use Rattle.tup_table.specs.Store.{first_bytes, most_live, IsHead, HasHead, IsEnd, switch_of, start_of};
ghost use Rattle.tup_table.specs.Entries.{committed};
ghost use Rattle.tup_table.specs.Reading.{ReadsAs, AreaReadsAs, FindsAs, opened_by};
ghost use Rattle.tup_table.specs.declared.change.Change.{Change};
ghost use Rattle.tup_table.specs.declared.fault.TableFault.{TableFault};
ghost use Rattle.tup_table.specs.declared.opened.Opened.{Opened};

use crate::compacting::snapshot_of;
use crate::fault::TableFault;
use crate::found::Found;
use crate::gathered::Gathered;
use crate::opened::Opened;
use crate::reader::Reader;
use crate::seen::Seen;
use byteorder::{BigEndian, ByteOrder};
use std::alloc::Global;

/// How a store begins; the last byte is the version.
const FIRST_BYTES: [u8; 8] = *b"tup-db2\x01";

/// The offset of the low area.
pub(crate) const LOW: u64 = 17;

/// The most bytes that a store may have once it is compacted.
pub(crate) const MAX_LIVE: u64 = 268_435_456;

/// What the bytes of a store stand for. `NotThere` where there are no bytes; `BadStore` names the offset at
/// which they are damaged. Memory is taken for bytes that are there alone, whatever a length says.
pub fn read(alloc: Global, bytes: &[u8]) -> Result<Opened, TableFault>
    // What is answered is what the bytes read as.
    ensures reads { (result ≡ Err TableFault.Memory) ⊎ ReadsAs bytes.now result }
    // They read as nothing else.
    ensures only { (answer : Result Opened TableFault) → ReadsAs bytes.now answer
        → GivesUnless result TableFault.Memory answer }
{
    let found = find(alloc, bytes)?;
    Ok(opened(found))
}

/// What a store stands for, by where it was read.
pub(crate) fn opened(found: Found) -> Opened
    ensures { result ≡ opened_by found }
{
    match found {
        Found::Low(opened) => opened,
        Found::High { snapshot, .. } => snapshot.opened,
    }
}

/// Where the bytes of a store were read.
pub(crate) fn find(alloc: Global, bytes: &[u8]) -> Result<Found, TableFault>
    ensures { (result ≡ Err TableFault.Memory) ⊎ FindsAs bytes.now result }
{
    if bytes.is_empty() {
        return Err(TableFault::NotThere);
    }
    let Some((head, low)) = split_head(bytes) else {
        return Err(TableFault::BadStore { offset: 0 });
    };
    if is_switched(head) {
        return find_high(alloc, start_in(head), low);
    }
    let opened = read_area(alloc, LOW, low)?;
    Ok(Found::Low(opened))
}

/// The head of a store, and what stands behind it.
fn split_head(bytes: &[u8]) -> Option<(&[u8], &[u8])>
    ensures { MatchOption result ((head low : List ℕ) → HasHead bytes.now head low → ⊥)
        (λ parts. HasHead bytes.now parts.0.now parts.1.now) }
{
    let (head, low) = bytes.split_at_checked(LOW as usize)?;
    if !begins(head) {
        return None;
    }
    Some((head, low))
}

/// Whether a head begins with the first bytes of a store.
fn begins(head: &[u8]) -> bool
    requires { length head.now ≡ 17 }
    ensures { IsTrue result ↔ (take 8 head.now ≡ first_bytes) }
{
    &head[..8] == FIRST_BYTES.as_slice()
}

/// Whether the switch is open, in a head.
fn is_switched(head: &[u8]) -> bool
    requires { length head.now ≡ 17 }
    ensures { IsTrue result ↔ (switch_of head.now ≡ 1) }
{
    head[8] == 1
}

/// Where the high area begins, by a head.
fn start_in(head: &[u8]) -> u64
    requires { length head.now ≡ 17 }
    ensures { result ≡ start_of head.now }
{
    BigEndian::read_u64(&head[9..])
}

/// What the high area stands for, by its start and by what stands behind the head.
fn find_high(alloc: Global, start: u64, low: &[u8]) -> Result<Found, TableFault>
    ensures { (head : List ℕ) → IsHead head → switch_of head ≡ 1 → start ≡ start_of head
        → (result ≡ Err TableFault.Memory) ⊎ FindsAs (head ++ low.now) result }
{
    let Some(area) = area_from(start, low) else {
        return Err(BAD_START);
    };
    let Opened { entries, gate } = read_area(alloc, start, area)?;
    if !has_room_below(start, entries.live()) {
        return Err(BAD_START);
    }
    let snapshot = snapshot_of(alloc, &entries)?;
    Ok(Found::High {
        snapshot,
        end: gate,
    })
}

/// Whether a compacted store of this many bytes ends before the start, and has no more bytes than it may have.
fn has_room_below(start: u64, live: u64) -> bool
    ensures { IsTrue result ↔ (live ≤ start) × (live ≤ most_live) }
{
    live <= start && live <= MAX_LIVE
}

/// The start of the high area is wrong.
const BAD_START: TableFault = TableFault::BadStore { offset: 9 };

/// What stands from the start on, which is behind the head by one byte at least, and inside the store.
fn area_from(start: u64, low: &[u8]) -> Option<&[u8]>
    ensures { MatchOption result ((start < 18) ⊎ (17 + length low.now < start))
        (λ area. (18 ≤ start) × (start ≤ 17 + length low.now)
        × (area.now ≡ drop (start - 17) low.now)
        × (start + length area.now ≤ 18446744073709551615)) }
{
    let below = start.checked_sub(LOW)?;
    if below == 0 || below > low.len() as u64 {
        return None;
    }
    Some(&low[below as usize..])
}

/// What an area stands for that begins at an offset; its entries have the origins that they would have in the low area.
pub(crate) fn read_area(alloc: Global, start: u64, area: &[u8]) -> Result<Opened, TableFault>
    requires { start + length area.now ≤ 18446744073709551615 }
    ensures { (result ≡ Err TableFault.Memory) ⊎ AreaReadsAs start area.now result }
{
    let mut entries = Gathered::new(alloc);
    let mut rest = area;
    'commits: while let Some(block) = behind_gate(rest) {
        let done = passed(area, rest);
        rest = take_commit(&mut entries, LOW + done, start + done, block)?;
    }
    let gate = start + passed(area, rest);
    let entries = entries.into_entries(alloc)?;
    Ok(Opened { entries, gate })
}

/// How many bytes of an area were read, by what is left of it.
fn passed(area: &[u8], rest: &[u8]) -> u64
    requires { length rest.now ≤ length area.now }
    ensures { result ≡ length area.now - length rest.now }
{
    (area.len() - rest.len()) as u64
}

/// What stands behind an open gate, or `None` where the reading ends.
fn behind_gate(bytes: &[u8]) -> Option<&[u8]>
    ensures { MatchOption result (IsEnd bytes.now)
        (λ block. (bytes.now ≡ 1 ∷ block.now) × (block.now ≢ [])) }
{
    match bytes {
        [1, block @ ..] if !block.is_empty() => Some(block),
        _ => None,
    }
}

/// Takes in the commit behind the gate at an offset, with another offset as the origin of its changes, and gives what stands
/// behind it. After a refusal the entries are of no use.
fn take_commit<'a>(
    entries: &mut Gathered<'a>,
    origin: u64,
    gate: u64,
    block: &'a [u8],
) -> Result<&'a [u8], TableFault>
    ensures { MatchResult result
        (λ rest. (changes : List Change) × Front CommitFits commit block.now changes rest.now
        × (entries.new ≡ committed origin entries.old changes))
        (λ fault. (fault ≡ TableFault.Memory)
        ⊎ ((fault ≡ TableFault.BadStore gate) × NoFront CommitFits commit block.now)) }
{
    let mut reader = Reader::new(block);
    let Some(payload) = reader.long() else {
        return Err(TableFault::BadStore { offset: gate });
    };
    take_changes(entries, origin, gate, payload)?;
    Ok(reader.rest())
}

/// Takes in the changes of the commit behind the gate at an offset, all of these bytes, with another offset as their origin.
/// After a refusal the entries are of no use.
fn take_changes<'a>(
    entries: &mut Gathered<'a>,
    origin: u64,
    gate: u64,
    payload: &'a [u8],
) -> Result<(), TableFault>
    ensures { MatchResult result
        (λ _. (changes : List Change) × ChangesFit changes × (payload.now ≡ payload_of changes)
        × (entries.new ≡ committed origin entries.old changes))
        (λ fault. (fault ≡ TableFault.Memory) ⊎ ((fault ≡ TableFault.BadStore gate)
        × ((changes : List Change) → ChangesFit changes → payload.now ≢ payload_of changes))) }
{
    let mut reader = Reader::new(payload);
    'changes: while !reader.is_done() {
        let Some(change) = next_change(&mut reader) else {
            return Err(TableFault::BadStore { offset: gate });
        };
        entries.apply(change, origin)?;
    }
    Ok(())
}

/// The change at the front of the bytes, if one is there.
fn next_change<'a>(reader: &mut Reader<'a>) -> Option<Seen<'a>>
    ensures { MatchOption result (NoFront ChangeFits change_spelling reader.old)
        (λ change. Front ChangeFits change_spelling reader.old change reader.new) }
{
    match reader.byte()? {
        1 => next_put(reader),
        2 => next_delete(reader),
        _ => None,
    }
}

/// The change behind the mark 1.
fn next_put<'a>(reader: &mut Reader<'a>) -> Option<Seen<'a>>
    ensures { MatchOption result (NoFront ChangeFits change_spelling (1 ∷ reader.old))
        (λ change. Front ChangeFits change_spelling (1 ∷ reader.old) change reader.new) }
{
    let key = reader.short()?;
    let value = reader.long()?;
    Some(Seen {
        key,
        value: Some(value),
    })
}

/// The change behind the mark 2.
fn next_delete<'a>(reader: &mut Reader<'a>) -> Option<Seen<'a>>
    ensures { MatchOption result (NoFront ChangeFits change_spelling (2 ∷ reader.old))
        (λ change. Front ChangeFits change_spelling (2 ∷ reader.old) change reader.new) }
{
    let key = reader.short()?;
    Some(Seen { key, value: None })
}
