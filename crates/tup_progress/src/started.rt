//! How many commands were begun, by all runners of a call, and how many there are to be.
use std::sync::atomic::{AtomicU64, Ordering};

/// How many commands are planned, how many were begun, and how many run. Runners in several threads count in one.
#[derive(Drop)]
pub struct Started {
    planned: AtomicU64,
    begun: AtomicU64,
    running: AtomicU64,
}

/// The number of a command that begins, how many are planned in all, and how many run beside it.
#[derive(Clone, Copy)]
pub(crate) struct Count {
    pub(crate) number: u64,
    /// 0 where nobody said it.
    pub(crate) planned: u64,
    pub(crate) others: u64,
}

impl Started {
    /// None yet.
    pub fn new() -> Started {
        Started {
            planned: AtomicU64::new(0),
            begun: AtomicU64::new(0),
            running: AtomicU64::new(0),
        }
    }

    /// So many commands are planned.
    pub fn plan(&self, commands: u64) {
        self.planned.store(commands, Ordering::SeqCst);
    }

    /// A command begins.
    pub(crate) fn begin(&self) -> Count {
        Count {
            number: self.begun.fetch_add(1, Ordering::SeqCst).wrapping_add(1),
            planned: self.planned.load(Ordering::SeqCst),
            others: self.running.fetch_add(1, Ordering::SeqCst),
        }
    }

    /// A command has ended.
    pub(crate) fn end(&self) {
        self.running.fetch_sub(1, Ordering::SeqCst);
    }
}
