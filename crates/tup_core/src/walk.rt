//! The rules that wait for one: its readers, or those found behind it by a walk from reader to reader.
ghost use Rattle.std.specs.Prelude.{◌≡◌, ◌+◌, ◌∷◌, ℕ, ◌<◌, [], true, false, if◌then◌else◌, IfOk, OnOk, length};
ghost use Rattle.tup_clean.specs.Queue.{count_of};
ghost use Rattle.tup_core.specs.Waiting.{flag, AreWithin, AreWaiters, AreOnce, AreBehind, AreDown};
ghost use Rattle.tup_core.specs.Walk.{Notes, IsWalked, follows};

use crate::start::is_up;
use crate::waiting::Places;
use std::alloc::{AllocError, Global};
use tup_path::Items;

/// The rules that wait for one: its readers, if it was reached. Another leads to the reached rules behind it, and has these, if it reads
/// what a reached rule makes. The flags of `seen` are all down, before and afterwards.
pub(crate) fn waiters_of(
    alloc: Global,
    readers: &[Places],
    reached: &[bool],
    entries: &[bool],
    from: usize,
    seen: &mut [bool],
) -> Result<Places, AllocError>
    requires within { AreWithin readers.now }
    requires from { from < length readers.now }
    requires reached { length reached.now ≡ length readers.now }
    requires entries { length entries.now ≡ length readers.now }
    requires seen { length seen.old ≡ length readers.now }
    requires down { AreDown seen.old }
    ensures down { OnOk result (AreDown seen.new) }
    ensures waiters { IfOk result (AreWaiters readers.now reached.now entries.now from) }
{
    if reached[from] {
        return readers_once(alloc, readers, from, seen);
    }
    if entries[from] {
        return behind(alloc, readers, reached, from, seen);
    }
    Ok(Items::new(alloc))
}

/// The readers of a rule, each once.
fn readers_once(
    alloc: Global,
    readers: &[Places],
    from: usize,
    seen: &mut [bool],
) -> Result<Places, AllocError>
    requires within { AreWithin readers.now }
    requires from { from < length readers.now }
    requires seen { length seen.old ≡ length readers.now }
    requires down { AreDown seen.old }
    ensures down { OnOk result (AreDown seen.new) }
    ensures once { IfOk result (AreOnce readers.now from) }
{
    let mut found = Items::new(alloc);
    note_all(readers[from].as_slice(), seen, &mut found)?;
    lower(found.as_slice(), seen);
    Ok(found)
}

/// The reached rules to which one leads over others that weren't reached.
fn behind(
    alloc: Global,
    readers: &[Places],
    reached: &[bool],
    from: usize,
    seen: &mut [bool],
) -> Result<Places, AllocError>
    requires within { AreWithin readers.now }
    requires from { from < length readers.now }
    requires reached { length reached.now ≡ length readers.now }
    requires seen { length seen.old ≡ length readers.now }
    requires down { AreDown seen.old }
    ensures down { OnOk result (AreDown seen.new) }
    ensures behind { IfOk result (AreBehind readers.now reached.now from) }
{
    let found = walk(alloc, readers, reached, from, seen)?;
    lower(found.as_slice(), seen);
    flagged(alloc, found.as_slice(), reached)
}

/// Those of some rules whose flags are up.
fn flagged(alloc: Global, places: &[usize], flags: &[bool]) -> Result<Places, AllocError>
    ensures { IfOk result (λ kept. (at : ℕ) → count_of at kept
        ≡ (if flag flags.now at then count_of at places.now else 0)) }
{
    let mut kept = Items::new(alloc);
    for place in places {
        keep(*place, flags, &mut kept)?;
    }
    Ok(kept)
}

/// Keeps a rule, if its flag is up.
fn keep(place: usize, flags: &[bool], kept: &mut Places) -> Result<(), AllocError>
    ensures { OnOk result ((at : ℕ) → count_of at kept.new ≡ count_of at kept.old
        + (if flag flags.now at then count_of at (place ∷ []) else 0)) }
{
    if !is_up(flags, place) {
        return Ok(());
    }
    kept.push(place)?;
    Ok(())
}

/// Goes from the readers of a rule to their readers, as far as the rules on the way aren't pending. What was
/// found is flagged, and was found once.
fn walk(
    alloc: Global,
    readers: &[Places],
    pending: &[bool],
    from: usize,
    seen: &mut [bool],
) -> Result<Places, AllocError>
    requires within { AreWithin readers.now }
    requires from { from < length readers.now }
    requires pending { length pending.now ≡ length readers.now }
    requires seen { length seen.old ≡ length readers.now }
    requires down { AreDown seen.old }
    ensures { IfOk result (λ found.
        IsWalked readers.now pending.now from found (length found) seen.new) }
{
    let mut found = Items::new(alloc);
    note_all(readers[from].as_slice(), seen, &mut found)?;
    let mut next = 0;
    'walk: while next < found.len() {
        let at = found.as_slice()[next];
        go_on(readers, pending, at, seen, &mut found)?;
        next += 1;
    }
    Ok(found)
}

/// Notes the readers of a rule, unless it is pending.
fn go_on(
    readers: &[Places],
    pending: &[bool],
    at: usize,
    seen: &mut [bool],
    found: &mut Places,
) -> Result<(), AllocError>
    requires within { AreWithin readers.now }
    requires at { at < length readers.now }
    requires pending { length pending.now ≡ length readers.now }
    requires seen { length seen.old ≡ length readers.now }
    ensures { OnOk result (Notes (follows readers.now pending.now at)
        seen.old found.old seen.new found.new) }
{
    if pending[at] {
        return Ok(());
    }
    note_all(readers[at].as_slice(), seen, found)
}

/// Notes some rules.
fn note_all(places: &[usize], seen: &mut [bool], found: &mut Places) -> Result<(), AllocError>
    requires { (at : ℕ) → 0 < count_of at places.now → at < length seen.old }
    ensures { OnOk result (Notes places.now seen.old found.old seen.new found.new) }
{
    for place in places {
        note(*place, seen, found)?;
    }
    Ok(())
}

/// Notes a rule that wasn't seen yet: flags it, and adds it to those that were found.
fn note(place: usize, seen: &mut [bool], found: &mut Places) -> Result<(), AllocError>
    requires { place < length seen.old }
    ensures { OnOk result (Notes (place ∷ []) seen.old found.old seen.new found.new) }
{
    if seen[place] {
        return Ok(());
    }
    found.push(place)?;
    seen[place] = true;
    Ok(())
}

/// Takes some flags down.
fn lower(places: &[usize], flags: &mut [bool])
    requires { (at : ℕ) → 0 < count_of at places.now → at < length flags.old }
    ensures down { (at : ℕ) → 0 < count_of at places.now → flag flags.new at ≡ false }
    ensures rest { (at : ℕ) → flag flags.new at ≡ true → flag flags.old at ≡ true }
{
    for place in places {
        flags[*place] = false;
    }
}
