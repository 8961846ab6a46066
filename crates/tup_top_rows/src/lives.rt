//! The calls of `history.rows`.
use crate::session::file;
use crate::turns::{carried_out, crash, edit, run_said, written};
use std::alloc::Global;
use std::mem;
use std::sync::Wait;
use std::thread::Threads;
use tup_history::{End, Lived, Turn};
use tup_mini::Mini;
use tup_path::{Bytes, Items};
use tup_rows::{RowFault, Words, set};
use tup_site::MemSite;
use tup_tell::MemSink;

/// The turns that were said since the last that were carried out, and the site that these left.
#[derive(Drop)]
pub(crate) struct Lives<'a, W: Threads + Wait + Sync> {
    rt: &'a W,
    turns: Items<Turn>,
    /// None while the turns are carried out.
    site: Option<MemSite>,
    printed: Vec<u8>,
}

impl<'a, W: Threads + Wait + Sync> Lives<'a, W> {
    /// No turns, over a site without files and with an empty store.
    pub(crate) fn new(rt: &'a W, alloc: Global) -> Lives<'a, W> {
        Lives::over(rt, alloc, Vec::new(alloc))
    }

    /// No turns, over a site of which the calls of these numbers fail.
    fn over(rt: &'a W, alloc: Global, fails: Vec<u64>) -> Lives<'a, W> {
        Lives {
            rt,
            turns: Items::new(alloc),
            site: MemSite::new(alloc, Vec::new(alloc), fails).ok(),
            printed: Vec::new(alloc),
        }
    }

    /// Answers the call of a row.
    pub(crate) fn answer(&mut self, alloc: Global, call: &str, said: &Words) -> Words {
        match self.turn(alloc, call, said) {
            Some(turn) => self.say(alloc, said, turn),
            None => self.ask(alloc, call, said),
        }
    }

    /// Begins anew, over a site of which the call of this number fails, counted from 1.
    fn begin(&mut self, alloc: Global, said: &Words) -> Words {
        match vec![in alloc; said.number_at(0)] {
            Ok(fails) => {
                set(self, Lives::over(self.rt, alloc, fails));
                Words::done(alloc)
            }
            Err(_) => Words::none(alloc, RowFault::Memory),
        }
    }

    /// The turn that a row says.
    fn turn(&self, alloc: Global, call: &str, said: &Words) -> Option<Turn> {
        match call {
            "write" => Some(written(alloc, said, 0, 1)),
            "delete" => Some(edit(said.path_at(alloc, 0), None)),
            "run" => Some(run_said(alloc, said, 0, None)),
            "stopped" => Some(run_said(alloc, said, 1, Some(said.number_at(0)))),
            "crash" => Some(crash(self.store(alloc, said), Items::new(alloc))),
            "crash_with" => Some(self.crash_with(alloc, said)),
            "crash_store" => Some(crash(Bytes::new(said.bytes_at(alloc, 0)), Items::new(alloc))),
            _ => None,
        }
    }

    /// What another row asks for.
    fn ask(&mut self, alloc: Global, call: &str, said: &Words) -> Words {
        match call {
            "begin" => self.begin(alloc, said),
            "live" => self.live(alloc, said),
            "printed" => Words::word(alloc, &self.printed),
            "file" => self.file(alloc, said),
            _ => Words::none(alloc, RowFault::NoSuchCall),
        }
    }

    /// Adds a turn.
    fn say(&mut self, alloc: Global, said: &Words, turn: Turn) -> Words {
        said.list(&mut self.turns, turn);
        Words::done(alloc)
    }

    /// The bytes of the store that the last turns left.
    fn store(&self, alloc: Global, said: &Words) -> Bytes {
        match &self.site {
            Some(site) => Bytes::new(said.copy_of(alloc, site.store())),
            None => Bytes::new(Vec::new(alloc)),
        }
    }

    /// A crash that leaves this store, and another content of a file, or none.
    fn crash_with(&self, alloc: Global, said: &Words) -> Turn {
        let mut tree = Items::new(alloc);
        said.list(&mut tree, (said.path_at(alloc, 0), content(alloc, said)));
        crash(self.store(alloc, said), tree)
    }

    /// Carries out the turns that were said, and tells how each of them ended.
    fn live(&mut self, alloc: Global, said: &Words) -> Words {
        match self.site.take() {
            Some(site) => self.live_over(alloc, said, site),
            None => Words::none(alloc, RowFault::Memory),
        }
    }

    fn live_over(&mut self, alloc: Global, said: &Words, site: MemSite) -> Words {
        let turns = mem::replace(&mut self.turns, Items::new(alloc));
        let mut out = MemSink::new(alloc, Vec::new(alloc));
        match carried_out(self.rt, alloc, site, turns.into_vec(), &mut out) {
            Some(lived) => self.keep(alloc, said, lived, &out),
            None => Words::none(alloc, RowFault::Memory),
        }
    }

    /// Keeps what the turns left.
    fn keep(&mut self, alloc: Global, said: &Words, lived: Lived<Mini>, out: &MemSink) -> Words {
        let answer = told(alloc, &lived);
        set(&mut self.site, Some(lived.site));
        set(
            &mut self.printed,
            said.copy_of(alloc, out.bytes().as_slice()),
        );
        answer
    }

    /// What a file holds.
    fn file(&self, alloc: Global, said: &Words) -> Words {
        match &self.site {
            Some(site) => file(alloc, site, said),
            None => Words::none(alloc, RowFault::Memory),
        }
    }
}

/// What a file has behind its path in a row, if anything.
fn content(alloc: Global, said: &Words) -> Option<Bytes> {
    if said.len() > 1 {
        Some(Bytes::new(said.bytes_at(alloc, 1)))
    } else {
        None
    }
}

/// How each turn ended, and which one was refused.
fn told(alloc: Global, lived: &Lived<Mini>) -> Words {
    let mut words = Words::new(alloc);
    for end in lived.ends.as_slice() {
        tell(alloc, &mut words, end);
    }
    if let Some((at, why)) = &lived.refused {
        words.put(alloc, b"refused");
        words.show(alloc, at);
        words.show(alloc, why);
    }
    words
}

/// The exit number of a run with the number of rules that it began, and `-` for a deed.
fn tell(alloc: Global, words: &mut Words, end: &End) {
    match &end.status {
        Some(status) => {
            words.show(alloc, &status.exit());
            words.show(alloc, &end.ran.len());
        }
        None => words.put(alloc, b"-"),
    }
}
