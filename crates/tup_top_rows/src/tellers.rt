//! Reporters of a call of the program, and what they were told.
use std::alloc::{AllocError, Global};
use tup_rows::Words;
use tup_tell::{Event, KeepThenFail, LineReporter, MemSink, Reporter, Tally};

/// Reporters that keep so many events each, and fail from then on.
pub(crate) type Tellers = Vec<KeepThenFail>;

/// Three reporters: the first and the last keep all that they are told, and the one between them so many events, and fails
/// from then on.
pub(crate) fn three(alloc: Global, most: u64) -> Result<Tellers, AllocError> {
    let mut tellers = Vec::new(alloc);
    tellers.push(KeepThenFail::new(alloc, u64::MAX))?;
    tellers.push(KeepThenFail::new(alloc, most))?;
    tellers.push(KeepThenFail::new(alloc, u64::MAX))?;
    Ok(tellers)
}

/// Two reporters that keep so many events, and fail from then on.
pub(crate) fn two_failing(alloc: Global, first: u64, last: u64) -> Result<Tellers, AllocError> {
    let mut tellers = Vec::new(alloc);
    tellers.push(KeepThenFail::new(alloc, first))?;
    tellers.push(KeepThenFail::new(alloc, last))?;
    Ok(tellers)
}

/// Adds of each reporter how many events of each kind it was told, and how often it failed.
pub(crate) fn add_counts(alloc: Global, tellers: &[KeepThenFail], answer: &mut Words) {
    for reporter in tellers {
        add_count(alloc, reporter.told(), reporter.faults(), answer);
    }
}

fn add_count(alloc: Global, events: &[Event], faults: u64, answer: &mut Words) {
    let mut tally = Tally::new(alloc);
    for event in events {
        // Without memory a count is too small, and the row differs.
        drop(tally.note(alloc, event));
    }
    for count in tally.counts() {
        answer.show(alloc, &count);
    }
    answer.show(alloc, &faults);
}

/// Adds the lines of the events that the last reporter was told.
pub(crate) fn add_lines(alloc: Global, tellers: &[KeepThenFail], answer: &mut Words) {
    if let Some(reporter) = tellers.last() {
        add_log(alloc, reporter.told(), answer);
    }
}

fn add_log(alloc: Global, events: &[Event], answer: &mut Words) {
    let mut log = LineReporter::new(alloc, MemSink::new(alloc, Vec::new(alloc)));
    for event in events {
        // Without memory a line is missing, and the row differs.
        drop(log.note(alloc, event));
    }
    answer.put(alloc, log.sink().bytes().as_slice());
}
