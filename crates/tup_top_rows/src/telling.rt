//! Reporters of which some fail while they are told what an update did.
use std::alloc::{AllocError, Global};
use tup_path::Path;
use tup_rows::{RowFault, Words};
use tup_tell::{Event, KeepThenFail, Reporter, Telling, tell};

/// Tells reporters as many events as the first word of the row says; each other word says how many events one of them keeps before
/// it fails. The answer has how many were told to each that is left, and behind `failed` to each that isn't.
pub(crate) fn told(alloc: Global, said: &Words) -> Result<Words, RowFault> {
    let events = events(alloc, said.number_at(0))?;
    let mut reporters = reporters(alloc, said)?;
    let Telling { failed, all } = tell(alloc, &mut reporters, &events);
    if !all {
        return Err(RowFault::Memory);
    }
    let mut words = Words::new(alloc);
    add_told(alloc, &mut words, &reporters);
    words.put(alloc, b"failed");
    add_told(alloc, &mut words, &failed);
    Ok(words)
}

/// So many events.
fn events(alloc: Global, many: u64) -> Result<Vec<Event>, AllocError> {
    let mut events = Vec::new(alloc);
    for _ in 0..many {
        events.push(Event::Read {
            dir: Path::top(alloc),
        })?;
    }
    Ok(events)
}

/// The reporters that a row says.
fn reporters(alloc: Global, said: &Words) -> Result<Vec<KeepThenFail>, AllocError> {
    let mut reporters = Vec::new(alloc);
    for at in 1..said.len() {
        reporters.push(KeepThenFail::new(alloc, said.number_at(at)))?;
    }
    Ok(reporters)
}

fn add_told(alloc: Global, words: &mut Words, reporters: &[KeepThenFail]) {
    for reporter in reporters {
        words.show(alloc, &reporter.told().len());
    }
}
