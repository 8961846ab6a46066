//! Standard error as a sink, for the log of an update.
//!
//! It is at the edge: its contract says nothing of what it holds; each write that failed is counted.
ghost use Rattle.std.specs.Prelude.{◌≡◌, [], false};

use std::alloc::Global;
use std::io;
use std::io::Write;
use tup_path::Bytes;
use tup_progress::CLEAR;
use tup_tell::{Sink, SinkFailed};

/// Standard error. Its contract speaks of its count of failed writes alone.
#[derive(Drop)]
pub(crate) struct ErrorLog {
    rt: HostRuntime,
    clears: bool,
    faults: u64,
}

impl ErrorLog {
    /// No write has failed yet. Before the first one the line that is there is cleared, if there may be one.
    pub(crate) fn new(rt: HostRuntime, clears: bool) -> ErrorLog
        ensures { result.faults ≡ 0 }
    {
        ErrorLog {
            rt,
            clears,
            faults: 0,
        }
    }
}

impl Sink for ErrorLog {
    ghost tells = { false };

    ghost held = { λ _. [] };

    ghost faults = { λ log. log.faults };

    fn write(&mut self, _alloc: Global, bytes: &Bytes) -> Result<(), SinkFailed> {
        if self.clears {
            // A line that can't be taken away changes nothing.
            drop(eprint!(self.rt; "{CLEAR}"));
            self.clears = false;
        }
        match io::writer(&self.rt.stderr()).write_all(bytes.as_slice()) {
            Ok(()) => Ok(()),
            Err(_) => {
                self.faults = self.faults.saturating_add(1);
                Err(SinkFailed::Fault)
            }
        }
    }

    fn faults(&self) -> u64 {
        self.faults
    }
}
