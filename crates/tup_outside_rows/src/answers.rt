//! Answers in words.
use std::alloc::Global;
use tup_path::{Bytes, Paths};
use tup_rows::{RowFault, Words};
use tup_site::SiteFailed;

/// The words of a refusal; want of memory is no answer.
pub(crate) fn refused(alloc: Global, failed: SiteFailed) -> Words {
    match failed {
        SiteFailed::Fault => Words::word(alloc, b"fault"),
        SiteFailed::TooLarge(len) => counted(alloc, b"large", len),
        SiteFailed::Memory => Words::none(alloc, RowFault::Memory),
    }
}

/// A word and a number.
pub(crate) fn counted(alloc: Global, word: &[u8], number: u64) -> Words {
    let mut words = Words::word(alloc, word);
    words.show(alloc, &number);
    words
}

/// The answer of a call that gives nothing.
pub(crate) fn ended(alloc: Global, answer: Result<(), SiteFailed>) -> Words {
    match answer {
        Ok(()) => Words::done(alloc),
        Err(failed) => refused(alloc, failed),
    }
}

/// The answer of a call that gives a number.
pub(crate) fn number(alloc: Global, answer: Result<u64, SiteFailed>) -> Words {
    match answer {
        Ok(number) => Words::shown(alloc, &number),
        Err(failed) => refused(alloc, failed),
    }
}

/// The answer of a call that gives what a file holds.
pub(crate) fn got(alloc: Global, answer: Result<Option<Bytes>, SiteFailed>) -> Words {
    match answer {
        Ok(Some(content)) => holds(alloc, &content),
        Ok(None) => Words::word(alloc, b"none"),
        Err(failed) => refused(alloc, failed),
    }
}

fn holds(alloc: Global, content: &Bytes) -> Words {
    let mut words = Words::word(alloc, b"holds");
    words.put(alloc, content.as_slice());
    words
}

/// The answer of a call that gives paths.
pub(crate) fn listed(alloc: Global, answer: Result<Paths, SiteFailed>) -> Words {
    match answer {
        Ok(paths) => Words::all(alloc, paths.as_slice()),
        Err(failed) => refused(alloc, failed),
    }
}
