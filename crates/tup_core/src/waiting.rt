//! Which rules wait for pending ones.
ghost use Rattle.std.specs.Prelude.{◌≡◌, ◌==◌, ◌+◌, ◌^◌, ◌∷◌, [], ℕ, Bool, List, ◌<◌, ◌≤◌, IfOk, length, replicate};
ghost use Rattle.tup_clean.specs.Queue.{count_of};
ghost use Rattle.tup_core.specs.Walk.{Raises, readers_if};
ghost use Rattle.tup_core.specs.Links.{IsReachOf};
ghost use Rattle.tup_core.specs.Sound.{AreNamersOf, IsMadeBy};
ghost use Rattle.tup_core.specs.Waiting as specs;
ghost use Rattle.tup_core.specs.Waiting.{number, flag, taken, IsWaiting, AreWithin, AreDown, AreInner, AreEntries, AreAllWaiters, AreCounts, IsShort, Releases, CanRelease};

use crate::links::links;
use crate::start::{copied, is_up, lowered};
use crate::walk::waiters_of;
use std::alloc::{AllocError, Global};
use tup_path::Items;
use tup_rule::Rule;

/// Places of rules.
pub(crate) type Places = Items<usize>;

/// What rules wait for. It takes as much memory as there are links between rules, also where thousands of pending ones stand before a
/// rule that isn't pending, and thousands behind it.
#[derive(Drop)]
pub(crate) struct Waiting {
    /// For each rule that was pending at the start, its readers. For each other one of these, the rules behind it that were pending:
    /// it leads to them over others that weren't. No list has a rule twice.
    waiters: Vec<Places>,
    /// For each rule, in how many lists it stands: of rules that are still pending, and of those others that stand in one of theirs.
    waits: Vec<usize>,
    /// Which rules were pending at the start.
    reached: Vec<bool>,
}

impl Waiting {
    /// What rules wait for where these are pending, whose numbers stand in a list too, and those of the rules that declare or
    /// make what they make in another.
    pub(crate) fn new(
        alloc: Global,
        rules: &[Rule],
        reach: &[u32],
        near: &[u32],
        pending: &[bool],
    ) -> Result<Waiting, AllocError>
        requires reach { IsReachOf rules.now pending.now reach.now }
        requires near { AreNamersOf rules.now (IsMadeBy rules.now reach.now) near.now }
        requires pending { length pending.now ≡ length rules.now }
        ensures { IfOk result (IsWaiting rules.now (flag pending.now) pending.now) }
    {
        let listed = links(alloc, rules, reach, near, pending)?;
        let entries = entries(alloc, &listed, pending)?;
        let waiters = all_waiters(alloc, &listed, pending, &entries)?;
        let waits = counted(alloc, &waiters)?;
        let reached = copied(alloc, pending)?;
        Ok(Waiting {
            waiters,
            waits,
            reached,
        })
    }

    /// Whether a rule waits for none.
    pub(crate) fn is_clear(&self, at: usize) -> bool
        ensures { result ≡ (number self.now.waits.items at == 0) }
    {
        self.waits.get(at).copied().unwrap_or(0) == 0
    }

    /// Those that wait for a rule, or waited for it, as its list has them.
    pub(crate) fn waiters(&self, at: usize) -> &[usize]
        requires { at < length self.now.waiters.items }
        ensures { (other : ℕ) → count_of other result.now
            ≡ specs.times self.now.waiters.items at other }
    {
        self.waiters[at].as_slice()
    }

    /// Those that wait for a rule do so no longer; it takes no memory.
    pub(crate) fn release(&mut self, at: usize)
        requires { CanRelease at self.old }
        ensures { Releases at self.old self.new }
    {
        take_all(
            &self.waiters,
            &self.reached,
            self.waiters[at].as_slice(),
            &mut self.waits,
        );
    }
}

/// The flags of the readers of rules that were reached.
fn entries(alloc: Global, readers: &[Places], reached: &[bool]) -> Result<Vec<bool>, AllocError>
    requires within { AreWithin readers.now }
    requires reached { length reached.now ≡ length readers.now }
    ensures { IfOk result (λ entries. AreEntries readers.now reached.now entries.items) }
{
    let mut entries = lowered(alloc, readers.len())?;
    raise_all(readers, reached, &mut entries);
    Ok(entries)
}

/// Puts up the flags of the readers of rules that were reached, where all flags are down.
fn raise_all(readers: &[Places], reached: &[bool], entries: &mut [bool])
    requires within { AreWithin readers.now }
    requires reached { length reached.now ≡ length readers.now }
    requires entries { length entries.old ≡ length readers.now }
    requires down { AreDown entries.old }
    ensures { AreEntries readers.now reached.now entries.new }
{
    for at in 0..readers.len() {
        raise_readers(readers, reached, at, entries);
    }
}

/// Puts up the flags of the readers of a rule, if it was reached.
fn raise_readers(readers: &[Places], reached: &[bool], at: usize, entries: &mut [bool])
    requires within { AreWithin readers.now }
    requires at { at < length readers.now }
    requires entries { length entries.old ≡ length readers.now }
    ensures { Raises (readers_if readers.now reached.now at) entries.old entries.new }
{
    if is_up(reached, at) {
        raise(readers[at].as_slice(), entries);
    }
}

/// Puts some flags up.
fn raise(places: &[usize], flags: &mut [bool])
    requires { (at : ℕ) → 0 < count_of at places.now → at < length flags.old }
    ensures { Raises places.now flags.old flags.new }
{
    for place in places {
        flags[*place] = true;
    }
}

/// For each rule the rules that wait for it, and for none that isn't reached and reads nothing of a reached one.
fn all_waiters(
    alloc: Global,
    readers: &[Places],
    reached: &[bool],
    entries: &[bool],
) -> Result<Vec<Places>, AllocError>
    requires within { AreWithin readers.now }
    requires reached { length reached.now ≡ length readers.now }
    requires entries { length entries.now ≡ length readers.now }
    ensures { IfOk result (λ waiters.
        AreAllWaiters readers.now reached.now entries.now waiters.items) }
{
    let mut seen = lowered(alloc, readers.len())?;
    fill_waiters(alloc, readers, reached, entries, &mut seen)
}

/// The same, with flags that are all down.
fn fill_waiters(
    alloc: Global,
    readers: &[Places],
    reached: &[bool],
    entries: &[bool],
    seen: &mut [bool],
) -> Result<Vec<Places>, AllocError>
    requires within { AreWithin readers.now }
    requires reached { length reached.now ≡ length readers.now }
    requires entries { length entries.now ≡ length readers.now }
    requires seen { length seen.old ≡ length readers.now }
    requires down { AreDown seen.old }
    ensures { IfOk result (λ waiters.
        AreAllWaiters readers.now reached.now entries.now waiters.items) }
{
    let mut waiters = Vec::with_capacity(alloc, readers.len())?;
    for at in 0..readers.len() {
        waiters.push(waiters_of(alloc, readers, reached, entries, at, seen)?)?;
    }
    Ok(waiters)
}

/// For each rule, in how many of the lists it stands.
fn counted(alloc: Global, lists: &[Places]) -> Result<Vec<usize>, AllocError>
    requires within { AreWithin lists.now }
    requires short { IsShort lists.now }
    ensures { IfOk result (λ counts. (at : ℕ)
        → number counts.items at ≡ specs.total lists.now at) }
{
    let mut counts = zeros(alloc, lists.len())?;
    add_all(lists, &mut counts);
    Ok(counts)
}

/// Adds one at each place of each list.
fn add_all(lists: &[Places], counts: &mut [usize])
    requires within { AreWithin lists.now }
    requires short { IsShort lists.now }
    requires length { length counts.old ≡ length lists.now }
    requires none { (at : ℕ) → number counts.old at ≡ 0 }
    ensures { (at : ℕ) → number counts.new at ≡ specs.total lists.now at }
{
    for at in 0..lists.len() {
        add_each(lists[at].as_slice(), counts);
    }
}

fn zeros(alloc: Global, count: usize) -> Result<Vec<usize>, AllocError>
    ensures { IfOk result (λ numbers. numbers.items ≡ replicate count 0) }
{
    Ok(vec![in alloc; 0; count]?)
}

/// Adds one at each of these places.
fn add_each(places: &[usize], counts: &mut [usize])
    requires within { (at : ℕ) → 0 < count_of at places.now → at < length counts.old }
    requires fits { (at : ℕ) → number counts.old at + count_of at places.now < 2 ^ 64 }
    ensures { (at : ℕ) → number counts.new at ≡ number counts.old at + count_of at places.now }
{
    for place in places {
        counts[*place] += 1;
    }
}

/// Takes what a list counts away from the counts of all lists, rule by rule.
fn take_all(lists: &[Places], reached: &[bool], places: &[usize], waits: &mut [usize])
    requires within { (at : ℕ) → 0 < count_of at places.now → at < length lists.now }
    requires inner { AreInner lists.now reached.now }
    requires held { (pending : List Bool)
        × AreCounts lists.now reached.now pending places.now waits.old }
    ensures fewer { (at : ℕ) → number waits.new at ≤ number waits.old at }
    ensures counted { (pending : List Bool)
        → AreCounts lists.now reached.now pending places.now waits.old
        → AreCounts lists.now reached.now pending [] waits.new }
{
    for place in places {
        take_one(lists, reached, *place, waits);
    }
}

/// Counts a rule once less, and takes its list away, if it wasn't reached and is counted no more.
fn take_one(lists: &[Places], reached: &[bool], place: usize, waits: &mut [usize])
    requires place { place < length lists.now }
    requires taken { (at : ℕ)
        → taken lists.now reached.now waits.old place at ≤ number waits.old at }
    ensures { (at : ℕ) → number waits.new at + taken lists.now reached.now waits.old place at
        ≡ number waits.old at }
{
    let last = is_last(reached, waits, place);
    lower_one(place, waits);
    if last {
        take_each(lists[place].as_slice(), waits);
    }
}

/// Whether a rule that wasn't reached is counted once.
fn is_last(reached: &[bool], waits: &[usize], place: usize) -> bool
    ensures { result ≡ specs.is_last reached.now waits.now place }
{
    !is_up(reached, place) && waits.get(place).copied().unwrap_or(0) == 1
}

/// Takes one away at a place.
fn lower_one(place: usize, counts: &mut [usize])
    requires { 0 < number counts.old place }
    ensures { (at : ℕ) → number counts.new at + count_of at (place ∷ []) ≡ number counts.old at }
{
    counts[place] -= 1;
}

/// Takes one away at each of these places.
fn take_each(places: &[usize], counts: &mut [usize])
    requires { (at : ℕ) → count_of at places.now ≤ number counts.old at }
    ensures { (at : ℕ) → number counts.new at + count_of at places.now ≡ number counts.old at }
{
    for place in places {
        counts[*place] -= 1;
    }
}
