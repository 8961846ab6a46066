//! What isn't durable after a list of changes.
ghost use Rattle.std.specs.Prelude.{◌≡◌, ◌≤◌, ◌<◌, ◌↔◌, false, ◌+◌, ◌&&◌, nat_le, nat_lt, length, get_or, IsTrue};
ghost use Rattle.tup_site.specs.State.{is_among, is_written, is_in_line, with_edit, with_write, with_cut};
ghost use Rattle.tup_site.specs.History.{after, after_all, at_first};

use crate::change::Change;
use tup_path::{Bytes, Path};

/// Whether a path was put or removed since the last settle, and not edited since.
pub(crate) fn is_loose(changes: &[Change], path: &Path) -> bool
    ensures { (files : _) → result
        ≡ is_among (after_all (at_first files) changes.now).loose path.now }
{
    let mut is_so = false;
    for change in changes {
        is_so = is_loose_after(change, path, is_so);
    }
    is_so
}

fn is_loose_after(change: &Change, path: &Path, was: bool) -> bool
    ensures { (state : _) → was ≡ is_among state.loose path.now
        → result ≡ is_among (after state change.now).loose path.now }
{
    match change {
        Change::Put {
            path: put,
            content: _,
        } => path == put || was,
        Change::Removed { path: removed } => path == removed || was,
        Change::Edited {
            path: edited,
            content,
        } => is_loose_after_edit(path, edited, content, was),
        Change::Settled | Change::Crashed { choice: _ } => false,
        Change::Written { at: _, bytes: _ }
        | Change::Cut { len: _ }
        | Change::Synced
        | Change::Failed => was,
    }
}

// An edit makes its path durable; where it sets a file, also that none stands above and below it.
fn is_loose_after_edit(path: &Path, edited: &Path, content: &Option<Bytes>, was: bool) -> bool
    ensures { (state : _) → was ≡ is_among state.loose path.now
        → result ≡ is_among (with_edit state edited.now content.now).loose path.now }
{
    match content {
        None => was && path != edited,
        Some(_) => was && !are_in_line(path, edited),
    }
}

// Whether one of two paths leads on from the other, or they are the same.
fn are_in_line(a: &Path, b: &Path) -> bool
    ensures { result ≡ is_in_line a.now b.now }
{
    a == b || a.is_below(b) || b.is_below(a)
}

/// Whether a place of the store was written since the last sync.
pub(crate) fn is_written_at(changes: &[Change], place: usize) -> bool
    ensures { (files : _) → result
        ≡ is_written (after_all (at_first files) changes.now).written place }
{
    let mut is_so = false;
    for change in changes {
        is_so = is_written_after(change, place, is_so);
    }
    is_so
}

fn is_written_after(change: &Change, place: usize, was: bool) -> bool
    ensures { (state : _) → was ≡ is_written state.written place
        → result ≡ is_written (after state change.now).written place }
{
    match change {
        Change::Written { at, bytes } => is_in_range(*at, bytes.as_slice().len(), place) || was,
        Change::Synced | Change::Crashed { choice: _ } => false,
        Change::Put {
            path: _,
            content: _,
        }
        | Change::Removed { path: _ }
        | Change::Edited {
            path: _,
            content: _,
        }
        | Change::Settled
        | Change::Cut { len: _ }
        | Change::Failed => was,
    }
}

fn is_in_range(at: usize, len: usize, place: usize) -> bool
    ensures { result ≡ (nat_le at place && nat_lt place (at + len)) }
{
    at <= place && place - at < len
}

/// The lengths that a store may have after a crash: not less than the floor, the least of its
/// length at the last sync and the places of the cuts since then, and not more than the height, its
/// greatest length since then; and the length that it has.
#[derive(Clone, Copy)]
pub(crate) struct Bounds {
    pub floor: usize,
    pub height: usize,
    pub len: usize,
}

impl Bounds {
    ghost use Rattle.tup_site.specs.Bounds.{IsBounds};

    /// Those after these changes of a site whose store was empty.
    pub fn of(changes: &[Change]) -> Bounds
        ensures { (files : _) → IsBounds (after_all (at_first files) changes.now) result }
    {
        let mut bounds = Bounds {
            floor: 0,
            height: 0,
            len: 0,
        };
        for change in changes {
            bounds = bounds.after(change);
        }
        bounds
    }

    fn after(self, change: &Change) -> Bounds
        ensures { (state : _) → IsBounds state self → IsBounds (after state change.now) result }
    {
        match change {
            Change::Written { at, bytes } => self.after_write(*at, bytes.as_slice().len()),
            Change::Cut { len } => self.after_cut(*len as usize),
            Change::Synced => Bounds::durable(self.len),
            Change::Crashed { choice } => Bounds::durable(choice.db.as_slice().len()),
            Change::Put {
                path: _,
                content: _,
            }
            | Change::Removed { path: _ }
            | Change::Edited {
                path: _,
                content: _,
            }
            | Change::Settled
            | Change::Failed => self,
        }
    }

    fn after_write(self, at: usize, len: usize) -> Bounds
        ensures { (state bytes : _) → length bytes ≡ len → IsBounds state self
            → IsBounds (with_write state at bytes) result }
    {
        let end = at.saturating_add(len);
        let behind = self.len.saturating_sub(end);
        Bounds {
            floor: self.floor,
            height: self.height.max(end),
            len: at.min(self.len).saturating_add(len).saturating_add(behind),
        }
    }

    fn after_cut(self, len: usize) -> Bounds
        ensures { (state : _) → IsBounds state self → IsBounds (with_cut state len) result }
    {
        Bounds {
            floor: self.floor.min(len),
            height: self.height,
            len: self.len.min(len),
        }
    }

    // Those of a store that is durable whole.
    fn durable(len: usize) -> Bounds
        ensures floor { result.floor ≡ len }
        ensures height { result.height ≡ len }
        ensures len { result.len ≡ len }
    {
        Bounds {
            floor: len,
            height: len,
            len,
        }
    }
}
