//! Readings as words.
use std::alloc::Global;
use tup_path::{Items, Path};
use tup_readings::FoldersFault;
use tup_rows::Words;
use tup_rule::{Draft, Reading};

/// The readings, one after another, or why there are none.
pub(crate) fn shown(alloc: Global, found: &Result<Items<(Path, Reading)>, FoldersFault>) -> Words {
    match found {
        Ok(readings) => all(alloc, readings.as_slice()),
        Err(FoldersFault::Circular(dirs)) => circle(alloc, dirs.as_slice()),
        Err(fault) => Words::refusal(alloc, fault),
    }
}

/// Each folder with its rules.
fn all(alloc: Global, readings: &[(Path, Reading)]) -> Words {
    let mut words = Words::new(alloc);
    for (dir, reading) in readings {
        words.put(alloc, b"folder");
        words.show(alloc, dir);
        add_rules(alloc, &mut words, reading.drafts.as_slice());
    }
    words
}

/// Adds rules: the inputs of each and its outputs.
fn add_rules(alloc: Global, words: &mut Words, drafts: &[Draft]) {
    for draft in drafts {
        words.put(alloc, b"rule");
        words.show_all(alloc, draft.inputs.as_slice());
        words.put(alloc, b"->");
        words.show_all(alloc, draft.outputs.as_slice());
    }
}

/// The folders of a circle.
fn circle(alloc: Global, dirs: &[Path]) -> Words {
    let mut words = Words::word(alloc, b"circle");
    words.show_all(alloc, dirs);
    words
}
