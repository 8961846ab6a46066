//! The calls of `reader.rows`.
use crate::repeated::add;
use crate::shown::{drafts, questions};
use crate::sources::Sources;
use std::alloc::{AllocError, Global};
use std::fs::Files;
use std::io;
use tup_path::{Bytes, Path, Text};
use tup_query::ReadEnd;
use tup_rows::{Answers, RowFault, Words, set, try_file_by};
use tup_rule::Reading;
use tup_tupfile::read_tupfile;

pub(crate) fn try_rows<R: Files + Print>(rt: &R, alloc: Global) -> io::Result<()> {
    try_file_by(rt, alloc, "reader.rows", Session::new(alloc))
}

/// The sources that the rows above have left.
#[derive(Drop)]
struct Session {
    sources: Sources,
}

impl Session {
    /// Without a file.
    fn new(alloc: Global) -> Session {
        Session {
            sources: Sources::new(alloc),
        }
    }

    /// Forgets the sources.
    fn begin(&mut self, alloc: Global) -> Words {
        set(&mut self.sources, Sources::new(alloc));
        Words::new(alloc)
    }

    /// Puts a file.
    fn file(&mut self, alloc: Global, said: &Words) -> Words {
        self.put(alloc, said.path_at(alloc, 0), said.bytes_at(alloc, 1))
    }

    /// Puts a file of this content.
    fn put(&mut self, alloc: Global, path: Path, content: Vec<u8>) -> Words {
        noted(alloc, self.sources.put(path, Bytes::new(content)))
    }

    /// A file of a text so many times between two others.
    fn long_file(&mut self, alloc: Global, said: &Words) -> Words {
        self.put(alloc, said.path_at(alloc, 0), repeated(alloc, said))
    }

    /// A file of a text with a number in it, for so many numbers from 0 on.
    fn numbered_file(&mut self, alloc: Global, said: &Words) -> Words {
        self.put(alloc, said.path_at(alloc, 0), numbered(alloc, said))
    }

    /// Sets a name.
    fn set(&mut self, alloc: Global, said: &Words) -> Words {
        let name = said.text_at(alloc, 0);
        noted(alloc, self.sources.set(name, said.text_at(alloc, 1)))
    }

    /// Has the sources answer so many questions more.
    fn answers(&mut self, alloc: Global, said: &Words) -> Words {
        self.sources.answers(said.number_at(0));
        Words::new(alloc)
    }

    /// The rules of a folder.
    fn reads_at(&mut self, alloc: Global, said: &Words) -> Words {
        self.reads(alloc, &said.path_at(alloc, 0))
    }

    /// What the reading of a folder asks.
    fn asks_at(&mut self, alloc: Global, said: &Words) -> Words {
        self.asks(alloc, &said.path_at(alloc, 0))
    }

    /// How many rules a folder has, and how many questions its reading asks.
    fn counts_at(&mut self, alloc: Global, said: &Words) -> Words {
        self.counts(alloc, &said.path_at(alloc, 0))
    }

    /// The rules of the top folder, with this Tupfile.
    fn top(&mut self, alloc: Global, said: &Words) -> Words {
        self.tupfile(alloc, said);
        self.reads(alloc, &Path::top(alloc))
    }

    /// What the reading of the top folder asks, with this Tupfile.
    fn top_asks(&mut self, alloc: Global, said: &Words) -> Words {
        self.tupfile(alloc, said);
        self.asks(alloc, &Path::top(alloc))
    }

    /// Puts the Tupfile of the top folder.
    fn tupfile(&mut self, alloc: Global, said: &Words) {
        match Path::from_top(alloc, "Tupfile") {
            Ok(path) => drop(self.put(alloc, path, said.bytes_at(alloc, 0))),
            Err(_) => said.fail(RowFault::Memory),
        }
    }

    /// The rules of a folder, or why it isn't read.
    fn reads(&mut self, alloc: Global, dir: &Path) -> Words {
        match self.read(alloc, dir) {
            Ok(reading) => {
                let words = drafts(alloc, reading.drafts.as_slice());
                drop(reading);
                words
            }
            Err(end) => Words::refusal(alloc, &end),
        }
    }

    /// How many rules a folder has and how many questions are asked, or why it isn't read.
    fn counts(&mut self, alloc: Global, dir: &Path) -> Words {
        match self.read(alloc, dir) {
            Ok(reading) => {
                let words = counted(alloc, &reading);
                drop(reading);
                words
            }
            Err(end) => Words::refusal(alloc, &end),
        }
    }

    /// What the reading of a folder asks, or why it isn't read.
    fn asks(&mut self, alloc: Global, dir: &Path) -> Words {
        match self.read(alloc, dir) {
            Ok(reading) => {
                let words = questions(alloc, reading.asked.as_slice());
                drop(reading);
                words
            }
            Err(end) => Words::refusal(alloc, &end),
        }
    }

    /// The reading of a folder.
    fn read(&mut self, alloc: Global, dir: &Path) -> Result<Reading, ReadEnd> {
        self.sources.go_on();
        read_tupfile(alloc, dir, &mut self.sources)
    }
}

impl Answers for Session {
    /// Makes one of the calls that `data/reader.rows` names.
    fn answer(&mut self, alloc: Global, call: &str, said: &Words) -> Result<Words, RowFault> {
        Ok(match call {
            "fresh" => self.begin(alloc),
            "file" => self.file(alloc, said),
            "long_file" => self.long_file(alloc, said),
            "numbered_file" => self.numbered_file(alloc, said),
            "set" => self.set(alloc, said),
            "answers" => self.answers(alloc, said),
            "top" => self.top(alloc, said),
            "top_asks" => self.top_asks(alloc, said),
            "reads" => self.reads_at(alloc, said),
            "asks" => self.asks_at(alloc, said),
            "counts" => self.counts_at(alloc, said),
            _ => Words::none(alloc, RowFault::NoSuchCall),
        })
    }
}

/// No words, unless there was no memory for what the row puts.
fn noted(alloc: Global, put: Result<(), AllocError>) -> Words {
    match put {
        Ok(()) => Words::new(alloc),
        Err(_) => Words::none(alloc, RowFault::Memory),
    }
}

/// The rules and the questions of a reading by their numbers.
fn counted(alloc: Global, reading: &Reading) -> Words {
    let mut words = Words::shown(alloc, &reading.drafts.len());
    words.show(alloc, &reading.asked.len());
    words
}

/// A front, a text so many times, and a back.
fn repeated(alloc: Global, said: &Words) -> Vec<u8> {
    let mut bytes = said.bytes_at(alloc, 1);
    let more = said.word_at(3);
    for _ in 0..said.number_at(2) {
        add(said, &mut bytes, more);
    }
    add(said, &mut bytes, said.word_at(4));
    bytes
}

/// A front, a number and a back, for so many numbers from 0 on.
fn numbered(alloc: Global, said: &Words) -> Vec<u8> {
    let mut bytes = Vec::new(alloc);
    for number in 0..said.number_at(2) {
        add(said, &mut bytes, said.word_at(1));
        add_number(alloc, &mut bytes, said, number);
        add(said, &mut bytes, said.word_at(3));
    }
    bytes
}

/// Adds a number.
fn add_number(alloc: Global, bytes: &mut Vec<u8>, said: &Words, number: u64) {
    match format!(in alloc; "{number}") {
        Ok(text) => add(said, bytes, text.as_bytes()),
        Err(_) => said.fail(RowFault::Memory),
    }
}
