//! The calls of `memory.rows`.
use crate::answers::{ended, got, listed, number};
use crate::scanned::{passes, scanned};
use std::alloc::{AllocError, Global};
use tup_path::{Bytes, Path};
use tup_rows::{Answers, RowFault, Words};
use tup_site::{Changed, Choice, MemRefused, MemSite, Site, Tear};

/// A site in memory.
#[derive(Drop)]
pub(crate) struct Memory {
    site: MemSite,
}

impl Answers for Memory {
    fn answer(&mut self, alloc: Global, call: &str, said: &Words) -> Result<Words, RowFault> {
        Ok(match call {
            "begin" => self.begin(alloc, said),
            "make" => self.make(alloc, said),
            "edit" => self.edit(alloc, said),
            "edit_away" => self.edit_away(alloc, said),
            "crash" => self.crash(alloc, said),
            "choice" => self.choice(alloc, said),
            "stop_after" => self.stop_after(alloc, said),
            "run_on" => self.run_on(alloc),
            "calls" => Words::shown(alloc, &self.site.calls()),
            "moment" => Words::shown(alloc, &self.site.moment()),
            "faults" => Words::shown(alloc, &self.site.faults()),
            "store" => Words::word(alloc, self.site.store()),
            _ => self.answer_of_site(alloc, call, said),
        })
    }
}

impl Memory {
    /// An empty site.
    pub(crate) fn new(alloc: Global) -> Result<Memory, MemRefused> {
        let site = MemSite::new(alloc, Vec::new(alloc), Vec::new(alloc))?;
        Ok(Memory { site })
    }

    fn answer_of_site(&mut self, alloc: Global, call: &str, said: &Words) -> Words {
        match call {
            "list" => listed(alloc, self.site.list(alloc)),
            "get" => got(alloc, self.site.get(alloc, &said.path_at(alloc, 0))),
            "put" => self.put(alloc, said),
            "remove" => ended(alloc, self.site.remove(alloc, &said.path_at(alloc, 0))),
            "settle" => ended(alloc, self.site.settle(alloc)),
            "length" => number(alloc, self.site.db_len(alloc)),
            "write" => self.write(alloc, said),
            "sync" => ended(alloc, self.site.db_sync(alloc)),
            "cut" => ended(alloc, self.site.db_cut(alloc, said.number_at(0))),
            "scan" => scanned(alloc, &mut self.site),
            "passes" => passes(alloc, &mut self.site),
            _ => Words::none(alloc, RowFault::NoSuchCall),
        }
    }

    /// Goes on with another site, where it could be made.
    fn begun(&mut self, alloc: Global, site: Result<MemSite, MemRefused>) -> Words {
        match site {
            Ok(site) => {
                self.site = site;
                Words::done(alloc)
            }
            Err(fault) => said_of(alloc, fault),
        }
    }

    /// An empty site whose call of this number fails, counted from 1.
    fn begin(&mut self, alloc: Global, said: &Words) -> Words {
        match vec![in alloc; said.number_at(0)] {
            Ok(fails) => self.begun(alloc, MemSite::new(alloc, Vec::new(alloc), fails)),
            Err(_) => Words::none(alloc, RowFault::Memory),
        }
    }

    /// A site with the files that the words name, each with its content.
    fn make(&mut self, alloc: Global, said: &Words) -> Words {
        match files(alloc, said) {
            Ok(files) => self.begun(alloc, MemSite::new(alloc, files, Vec::new(alloc))),
            Err(_) => Words::none(alloc, RowFault::Memory),
        }
    }

    fn edit(&mut self, alloc: Global, said: &Words) -> Words {
        let content = Bytes::new(said.bytes_at(alloc, 1));
        changed(
            alloc,
            self.site.edit(alloc, said.path_at(alloc, 0), Some(content)),
        )
    }

    fn edit_away(&mut self, alloc: Global, said: &Words) -> Words {
        changed(alloc, self.site.edit(alloc, said.path_at(alloc, 0), None))
    }

    /// A crash that leaves these bytes of the store, and of the tree what the words behind them name.
    fn crash(&mut self, alloc: Global, said: &Words) -> Words {
        let db = Bytes::new(said.bytes_at(alloc, 0));
        match chosen(alloc, said) {
            Ok(tree) => changed(alloc, self.site.crash(alloc, Choice { db, tree })),
            Err(_) => Words::none(alloc, RowFault::Memory),
        }
    }

    /// What a crash now may leave that tears so.
    fn choice(&self, alloc: Global, said: &Words) -> Words {
        match self.site.choice(alloc, tear(said.word_at(0))) {
            Ok(choice) => left(alloc, &choice),
            Err(fault) => said_of(alloc, fault),
        }
    }

    fn stop_after(&mut self, alloc: Global, said: &Words) -> Words {
        self.site.stop_after(said.number_at(0));
        Words::done(alloc)
    }

    fn run_on(&mut self, alloc: Global) -> Words {
        self.site.run_on();
        Words::done(alloc)
    }

    /// Puts a file in the place of one that is there: there one may be put.
    fn put(&mut self, alloc: Global, said: &Words) -> Words {
        let content = Bytes::new(said.bytes_at(alloc, 1));
        self.put_at(alloc, &said.path_at(alloc, 0), &content)
    }

    fn put_at(&mut self, alloc: Global, path: &Path, content: &Bytes) -> Words {
        let Some(_) = self.site.file(path) else {
            return Words::none(alloc, RowFault::OtherKind);
        };
        ended(alloc, self.site.put(alloc, path, content))
    }

    /// Writes from a place in the store on.
    fn write(&mut self, alloc: Global, said: &Words) -> Words {
        let (at, bytes) = (said.number_at(0), said.word_at(1));
        if at > self.site.store().len() as u64 {
            return Words::none(alloc, RowFault::OtherKind);
        }
        ended(alloc, self.site.db_write(alloc, at, bytes))
    }
}

/// The files that words name, each followed by its content.
fn files(alloc: Global, said: &Words) -> Result<Vec<(Path, Bytes)>, AllocError> {
    let mut files = Vec::new(alloc);
    for pair in 0..said.len() / 2 {
        let content = Bytes::new(said.bytes_at(alloc, 2 * pair + 1));
        files.push((said.path_at(alloc, 2 * pair), content))?;
    }
    Ok(files)
}

/// The files that the words behind the first one name, each followed by its content or by `absent`.
fn chosen(alloc: Global, said: &Words) -> Result<Changed, AllocError> {
    let mut tree = Changed::new(alloc);
    for pair in 0..said.len() / 2 {
        tree.push(named(alloc, said, 2 * pair + 1))?;
    }
    Ok(tree)
}

fn named(alloc: Global, said: &Words, at: usize) -> (Path, Option<Bytes>) {
    let path = said.path_at(alloc, at);
    match said.word_at(at.saturating_add(1)) {
        b"absent" => (path, None),
        _ => {
            let content = Bytes::new(said.bytes_at(alloc, at.saturating_add(1)));
            (path, Some(content))
        }
    }
}

fn tear(word: &[u8]) -> Tear {
    match word {
        b"lost" => Tear::Lost,
        b"torn" => Tear::Torn,
        _ => Tear::Kept,
    }
}

/// The bytes of the store, and the files that differ, each with its content or `absent`.
fn left(alloc: Global, choice: &Choice) -> Words {
    let mut words = Words::word(alloc, choice.db.as_slice());
    for (path, content) in choice.tree.as_slice() {
        words.show(alloc, path);
        match content {
            Some(content) => words.put(alloc, content.as_slice()),
            None => words.put(alloc, b"absent"),
        }
    }
    words
}

/// The answer of an edit or a crash.
fn changed(alloc: Global, answer: Result<(), MemRefused>) -> Words {
    match answer {
        Ok(()) => Words::done(alloc),
        Err(fault) => said_of(alloc, fault),
    }
}

/// The words of a refusal; want of memory is no answer.
fn said_of(alloc: Global, fault: MemRefused) -> Words {
    match fault {
        MemRefused::Memory => Words::none(alloc, RowFault::Memory),
        _ => Words::refusal(alloc, &fault),
    }
}
