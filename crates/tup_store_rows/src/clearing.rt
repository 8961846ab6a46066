//! The calls of `stale.rows`.
ghost use Rattle.std.specs.Prelude.{IsTrue};
ghost use Rattle.tup_stored_graph.specs.Held.{is_fresh, StandsFor};
ghost use Rattle.tup_site.specs.Memory.{world_in, moment_of, left_since};

use crate::graph::store;
use crate::left::{add_left, add_refusal};
use crate::site::{Contents, copies, file_at, site_with};
use std::alloc::Global;
use tup_path::{Bytes, Path, Paths};
use tup_rows::{Answers, RowFault, Words, set};
use tup_site::{Changed, Choice, MemSite};
use tup_stale::{StaleFault, clear};
use tup_stored_graph::Graph;

/// How many calls of a site an opening makes: the store is synced, measured and read.
const OPENING: u64 = 3;

/// A store and files, which are cleared, again and again from the beginning.
#[derive(Drop)]
pub(crate) struct Clearings {
    store: Vec<u8>,
    files: Contents,
}

impl Answers for Clearings {
    fn answer(&mut self, alloc: Global, call: &str, said: &Words) -> Result<Words, RowFault> {
        Ok(match call {
            "graph" => self.begin(alloc, said),
            "file" => self.add_file(alloc, said),
            "clear" => self.clear(alloc, call, said, u64::MAX),
            "stopped" => self.clear(alloc, call, said, said.number_at(0)),
            "crashed" => self.clear(alloc, call, said, said.number_at(0)),
            _ => Words::none(alloc, RowFault::NoSuchCall),
        })
    }
}

impl Clearings {
    /// No store, and no files.
    pub fn new(alloc: Global) -> Clearings {
        Clearings {
            store: Vec::new(alloc),
            files: Vec::new(alloc),
        }
    }

    /// A store of one commit, which puts keys and values, and no files.
    fn begin(&mut self, alloc: Global, said: &Words) -> Words {
        self.store = store(alloc, said, said.as_slice());
        set(&mut self.files, Vec::new(alloc));
        Words::shown(alloc, &self.store.len())
    }

    /// One more file.
    fn add_file(&mut self, alloc: Global, said: &Words) -> Words {
        if self.files.push(file_at(alloc, said, 0)).is_err() {
            said.fail(RowFault::Memory);
        }
        Words::done(alloc)
    }

    /// A site with the store and the files, of which an opening and so many calls more pass.
    fn site(&self, alloc: Global, calls: u64) -> Result<MemSite, RowFault> {
        let files = copies(alloc, &self.files)?;
        match site_with(alloc, files, &self.store, Vec::new(alloc)) {
            Ok(mut site) => {
                site.stop_after(calls.saturating_add(OPENING));
                Ok(site)
            }
            Err(fault) => Err(fault),
        }
    }

    /// Clears a site, stopped after so many calls of it.
    fn clear(&self, alloc: Global, call: &str, said: &Words, calls: u64) -> Words {
        let mut words = Words::new(alloc);
        match self.site(alloc, calls) {
            Ok(mut site) => {
                self.clear_in(alloc, &mut words, call, said, &mut site);
                drop(site);
            }
            Err(fault) => words.fail(fault),
        }
        words
    }

    fn clear_in(
        &self,
        alloc: Global,
        words: &mut Words,
        call: &str,
        said: &Words,
        site: &mut MemSite,
    ) {
        if call == "crashed" {
            return self.crashed(alloc, words, said, site);
        }
        add_clearing(alloc, words, site);
        site.run_on();
        add_left(alloc, words, &self.files, site);
    }

    /// Clears a site; a crash then leaves the store as it was after so many calls, cut by so many bytes, and files.
    /// Then it is cleared again.
    fn crashed(&self, alloc: Global, words: &mut Words, said: &Words, site: &mut MemSite) {
        add_clearing(alloc, &mut Words::new(alloc), site);
        match self.choice(alloc, said) {
            Ok(choice) => self.crash(alloc, words, site, choice),
            Err(fault) => words.fail(fault),
        }
    }

    fn crash(&self, alloc: Global, words: &mut Words, site: &mut MemSite, choice: Choice) {
        match site.crash(alloc, choice) {
            Ok(()) => {
                add_left(alloc, words, &self.files, site);
                words.put(alloc, b"again");
                add_clearing(alloc, words, site);
                add_left(alloc, words, &self.files, site);
            }
            Err(fault) => words.show(alloc, &fault),
        }
    }

    /// The store as it was after so many calls, cut by so many bytes, and files.
    fn choice(&self, alloc: Global, said: &Words) -> Result<Choice, RowFault> {
        match self.site(alloc, said.number_at(1)) {
            Ok(mut before) => {
                let choice = choice_at(alloc, said, &mut before);
                drop(before);
                choice
            }
            Err(fault) => Err(fault),
        }
    }
}

fn choice_at(alloc: Global, said: &Words, before: &mut MemSite) -> Result<Choice, RowFault> {
    add_clearing(alloc, &mut Words::new(alloc), before);
    let store = before.store();
    let end = store.len().saturating_sub(said.number_at(2) as usize);
    match store.get(..end) {
        Some(front) => Ok(Choice {
            db: Bytes::new(said.copy_of(alloc, front)),
            tree: changed(alloc, said),
        }),
        None => Err(RowFault::OtherKind),
    }
}

/// Files that the words behind the third name, each followed by its content or by `-` where it is gone.
fn changed(alloc: Global, said: &Words) -> Changed {
    let mut tree = Changed::new(alloc);
    for pair in 1..said.len() / 2 {
        let at = pair.saturating_mul(2).saturating_add(1);
        said.list(&mut tree, change(alloc, said, at));
    }
    tree
}

fn change(alloc: Global, said: &Words, at: usize) -> (Path, Option<Bytes>) {
    let path = said.path_at(alloc, at);
    match said.word_at(at.saturating_add(1)) {
        b"-" => (path, None),
        _ => {
            let content = Bytes::new(said.bytes_at(alloc, at.saturating_add(1)));
            (path, Some(content))
        }
    }
}

/// Clears a site. Adds how many calls of it that makes, how it ends, and whether the graph still stands
/// for the store.
fn add_clearing(alloc: Global, words: &mut Words, site: &mut MemSite) {
    match Graph::open(alloc, site) {
        Ok(mut graph) => {
            add_clearing_of(alloc, words, &mut graph, site);
            drop(graph);
        }
        Err(fault) => add_refusal(alloc, words, fault),
    }
}

fn add_clearing_of(alloc: Global, words: &mut Words, graph: &mut Graph, site: &mut MemSite)
    requires fresh { IsTrue (is_fresh graph.old) }
    requires stands { StandsFor world_in moment_of left_since graph.old site.old }
{
    let opened = site.calls();
    let ended = clear(alloc, graph, site);
    words.show(alloc, &site.calls().saturating_sub(opened));
    add_end(alloc, words, ended);
    words.put(alloc, if graph.fresh() { b"fresh" } else { b"stale" });
}

/// Adds the paths at which files were removed, or why none is left to be.
fn add_end(alloc: Global, words: &mut Words, ended: Result<Paths, StaleFault>) {
    match ended {
        Ok(removed) => {
            words.put(alloc, b"done");
            words.show_all(alloc, removed.as_slice());
        }
        Err(StaleFault::Memory) => words.fail(RowFault::Memory),
        Err(fault) => words.show(alloc, &fault),
    }
}
