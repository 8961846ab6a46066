//! Seats that wait for a change.
use std::sync::Wait;
use std::sync::atomic::{AtomicU64, Ordering};
use std::time::Duration;

/// How often what seats wait for may have changed since the lock was made. Of a board: a rule may have become ready, or
/// all may be over, after an end of a command and after a stop.
#[derive(Drop)]
pub(crate) struct Ends {
    count: AtomicU64,
}

impl Ends {
    /// None yet.
    pub(crate) fn new() -> Ends {
        Ends {
            count: AtomicU64::new(0),
        }
    }

    /// How many there were.
    pub(crate) fn seen(&self) -> u64 {
        self.count.load(Ordering::SeqCst)
    }

    /// There was one more: all that wait go on.
    pub(crate) fn tell(&self) {
        self.count.fetch_add(1, Ordering::SeqCst);
        self.count.wake_all();
    }

    /// Sleeps until there was one more than this. No clause says that a wake reaches who sleeps, so it sleeps a second at
    /// most.
    pub(crate) fn wait<W: Wait>(&self, rt: &W, seen: u64) {
        self.count
            .park_timeout(rt, (seen & 0xffff_ffff) as u32, Duration::from_secs(1));
    }
}
