//! What a refresh of readings gave, as words.
use std::alloc::Global;
use tup_refresh::{RefreshFault, Refreshed};
use tup_rows::Words;
use tup_rule::Draft;

/// The folders that were read and those that are gone, and all rules; or why there are no readings.
pub(crate) fn shown(alloc: Global, found: &Result<Refreshed, RefreshFault>) -> Words {
    match found {
        Ok(given) => words_of(alloc, given),
        Err(fault) => refused(alloc, fault),
    }
}

/// What was read, what is gone, and all rules.
fn words_of(alloc: Global, given: &Refreshed) -> Words {
    let mut words = Words::new(alloc);
    for (dir, _) in given.fresh.as_slice() {
        words.put(alloc, b"read");
        words.show(alloc, dir);
    }
    for dir in given.gone.as_slice() {
        words.put(alloc, b"gone");
        words.show(alloc, dir);
    }
    for (_, reading) in given.all.as_slice() {
        add_rules(alloc, &mut words, reading.drafts.as_slice());
    }
    words
}

/// Adds rules: the inputs of each and its outputs.
fn add_rules(alloc: Global, words: &mut Words, drafts: &[Draft]) {
    for draft in drafts {
        words.put(alloc, b"rule");
        words.show_all(alloc, draft.inputs.as_slice());
        words.put(alloc, b"->");
        words.show_all(alloc, draft.outputs.as_slice());
    }
}

/// The folders of a circle, or what another fault is.
fn refused(alloc: Global, fault: &RefreshFault) -> Words {
    let mut words = Words::new(alloc);
    match fault {
        RefreshFault::Circular(dirs) => {
            words.put(alloc, b"circle");
            words.show_all(alloc, dirs.as_slice());
        }
        fault => {
            words.put(alloc, b"fault");
            words.show(alloc, fault);
        }
    }
    words
}
