//! Standard output as a sink.
//!
//! It is at the edge: its contract says nothing of what it holds; each write that failed is counted.
ghost use Rattle.std.specs.Prelude.{◌≡◌, [], false};

use std::alloc::Global;
use std::io;
use std::io::Write;
use tup_path::Bytes;
use tup_progress::CLEAR;
use tup_tell::{Sink, SinkFailed};

/// How standard output takes the lines.
#[derive(Clone, Copy, PartialEq, Eq)]
pub(crate) enum Lines {
    /// All of them.
    All,
    /// All but those of folders that were read and of commands that were good: who was there has seen these.
    Short,
}

/// How many commands the lines tell of.
#[derive(Clone, Copy)]
pub(crate) struct Counts {
    pub(crate) good: u64,
    pub(crate) bad: u64,
}

/// Standard output. Its contract speaks of its count of failed writes alone.
#[derive(Drop)]
pub(crate) struct Output<'a, P: Print + Eprint> {
    to: &'a P,
    clears: bool,
    lines: Lines,
    pub(crate) counts: Counts,
    /// What is to be printed once all is durable, where it waits for that.
    held: Option<Vec<u8>>,
    faults: u64,
}

impl<'a, P: Print + Eprint> Output<'a, P> {
    /// The sink of a program's standard output. No write has failed yet. Before each the line that is on standard error
    /// is taken away, if there may be one.
    pub(crate) fn new(to: &'a P, clears: bool, lines: Lines) -> Output<'a, P>
        ensures { result.faults ≡ 0 }
    {
        Output {
            to,
            clears,
            lines,
            counts: Counts { good: 0, bad: 0 },
            held: None,
            faults: 0,
        }
    }

    /// The same, but what is written to it waits until it is printed.
    pub fn waiting(self, alloc: Global) -> Output<'a, P>
        ensures { result.faults ≡ self.entry.faults }
    {
        let mut output = self;
        output.held = Some(Vec::new(alloc));
        output
    }

    /// Prints what waits; of that without its last line where so is said.
    pub fn print(&mut self, lacks_last: bool) -> io::Result<()> {
        match self.held.take() {
            Some(bytes) if lacks_last => self.say(before_last(&bytes)),
            Some(bytes) => self.say(&bytes),
            None => Ok(()),
        }
    }

    fn say(&mut self, bytes: &[u8]) -> io::Result<()>
        ensures { self.new.faults ≡ self.old.faults }
    {
        if self.clears {
            // A line that can't be taken away changes nothing.
            drop(eprint!(self.to; "{CLEAR}"));
        }
        match self.lines {
            Lines::All => io::writer(self.to).write_all(bytes),
            Lines::Short => print_short(self.to, bytes, &mut self.counts),
        }
    }
}

/// Lines without the last of them.
fn before_last(lines: &[u8]) -> &[u8] {
    let end = lines.len().saturating_sub(1);
    match lines[..end].iter().rposition(|byte| *byte == b'\n') {
        Some(at) => &lines[..=at],
        None => &[],
    }
}

impl<P: Print + Eprint> Sink for Output<'_, P> {
    ghost tells = { false };

    ghost held = { λ _. [] };

    ghost faults = { λ output. output.faults };

    fn write(&mut self, _alloc: Global, bytes: &Bytes) -> Result<(), SinkFailed> {
        if let Some(held) = &mut self.held {
            return match held.extend_from_slice(bytes.as_slice()) {
                Ok(()) => Ok(()),
                Err(_) => Err(SinkFailed::Memory),
            };
        }
        match self.say(bytes.as_slice()) {
            Ok(()) => Ok(()),
            Err(_) => {
                self.faults = self.faults.saturating_add(1);
                Err(SinkFailed::Fault)
            }
        }
    }

    fn faults(&self) -> u64 {
        self.faults
    }
}

/// Prints those of some lines that are printed to a terminal, and counts the commands that all of them tell of.
fn print_short<P: Print>(to: &P, lines: &[u8], counts: &mut Counts) -> io::Result<()> {
    for line in lines.split_inclusive(|byte| *byte == b'\n') {
        if line.starts_with(b"run ".as_slice()) {
            counts.good = counts.good.saturating_add(1);
        } else if !line.starts_with(b"read ".as_slice()) {
            if line.starts_with(b"bad ".as_slice()) {
                counts.bad = counts.bad.saturating_add(1);
            }
            io::writer(to).write_all(line)?;
        }
    }
    Ok(())
}
