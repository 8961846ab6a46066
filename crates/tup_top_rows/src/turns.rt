//! Turns as rows say them, and the histories that they make.
use std::alloc::Global;
use std::sync::Wait;
use std::thread::Threads;
use tup_history::{Lived, Turn, history};
use tup_mini::Mini;
use tup_path::{Bytes, Items, Path};
use tup_rows::Words;
use tup_site::{Choice, Deed, MemSite};
use tup_tell::MemSink;
use tup_top::Word;

/// A user sets a file, or takes it away.
pub(crate) fn edit(path: Path, content: Option<Bytes>) -> Turn {
    Turn::Deed(Deed::Edit { path, content })
}

/// A user writes a file, whose path and content stand at these places of the row.
pub(crate) fn written(alloc: Global, said: &Words, path: usize, content: usize) -> Turn {
    let path = said.path_at(alloc, path);
    edit(path, Some(Bytes::new(said.bytes_at(alloc, content))))
}

/// The machine stops, and leaves these bytes of the store and the files but for these.
pub(crate) fn crash(db: Bytes, tree: Items<(Path, Option<Bytes>)>) -> Turn {
    Turn::Deed(Deed::Crash {
        choice: Choice { db, tree },
    })
}

/// The program is called with the words of a row from a place on.
pub(crate) fn run_said(alloc: Global, said: &Words, from: usize, stop_after: Option<u64>) -> Turn {
    let mut words = Items::new(alloc);
    for at in from..said.len() {
        said.list(&mut words, Word(said.text_at(alloc, at)));
    }
    Turn::Run { words, stop_after }
}

/// Carries out turns over a site, with a crew of one runner; none without memory for it.
pub(crate) fn carried_out<W: Threads + Wait + Sync>(
    rt: &W,
    alloc: Global,
    site: MemSite,
    turns: Vec<Turn>,
    out: &mut MemSink,
) -> Option<Lived<Mini>> {
    match vec![in alloc; Mini::new(alloc)] {
        Ok(crew) => Some(history(rt, alloc, site, turns, crew, out)),
        Err(_) => {
            drop(site);
            drop(turns);
            None
        }
    }
}
