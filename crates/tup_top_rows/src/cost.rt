//! What a call of the program costs.
use std::alloc::Global;
use tup_rows::Words;
use tup_site::MemSite;

/// How many calls of a site were made, and how much happened to it by them: what was written, removed, settled or synced, and
/// each call that failed.
#[derive(Clone, Copy)]
pub(crate) struct Cost {
    calls: u64,
    changes: u64,
}

impl Cost {
    /// Of no call.
    pub(crate) fn none() -> Cost {
        Cost {
            calls: 0,
            changes: 0,
        }
    }

    /// Of all calls of a site so far.
    pub(crate) fn of(site: &MemSite) -> Cost {
        Cost {
            calls: site.calls(),
            changes: site.moment(),
        }
    }

    /// Of those that came behind others.
    pub(crate) fn beyond(self, before: Cost) -> Cost {
        Cost {
            calls: self.calls.saturating_sub(before.calls),
            changes: self.changes.saturating_sub(before.changes),
        }
    }

    /// The two numbers.
    pub(crate) fn words(self, alloc: Global) -> Words {
        Words::all(alloc, &[self.calls, self.changes])
    }
}
