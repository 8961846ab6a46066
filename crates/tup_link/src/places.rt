//! Lists of places.
ghost use Rattle.std.specs.Prelude.{◌≡◌, ◌≢◌, ℕ, ◌<◌, ◌≤◌, ◌++◌, length, slice_index, OnOk};

use std::alloc::AllocError;
use tup_path::Items;

/// Places in a list of rules.
pub(crate) type Places = Items<usize>;

/// Adds some places.
pub(crate) fn add_all(all: &mut Places, more: &[usize]) -> Result<(), AllocError>
    ensures { OnOk result (all.new ≡ all.old ++ more.now) }
{
    for one in more {
        all.push(*one)?;
    }
    Ok(())
}

/// Where a place stands first among others, or their number if it doesn't.
pub(crate) fn index_of(places: &[usize], place: usize) -> usize
    ensures within { result ≤ length places.now }
    ensures before { (i : ℕ) → i < result → slice_index places.now i ≢ place }
    ensures here { result < length places.now → slice_index places.now result ≡ place }
{
    for (at, one) in places.iter().enumerate() {
        if *one == place {
            return at;
        }
    }
    places.len()
}

/// Where the least of some places stands first.
pub(crate) fn index_of_least(places: &[usize]) -> usize
    requires { 0 < length places.now }
    ensures within { result < length places.now }
    ensures least { (i : ℕ) → i < length places.now
        → slice_index places.now result ≤ slice_index places.now i }
{
    let mut least = 0;
    for at in 1..places.len() {
        if places[at] < places[least] {
            least = at;
        }
    }
    least
}
