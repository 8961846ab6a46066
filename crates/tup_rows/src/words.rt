//! The words of a row, each a list of bytes.
//!
//! What an argument isn't, and what there is no memory for, is noted in the words that were asked or added to: the
//! row then differs, and a call is written as if all went well.
use crate::fault::RowFault;
use std::alloc::Global;
use std::cell::Cell;
use std::fmt::Display;
use tup_path::{Items, Path, PathFault, Paths, Text, Texts};

/// Some words: the arguments of a call, or an answer.
#[derive(Drop)]
pub struct Words {
    words: Vec<Vec<u8>>,
    /// How many of them, from the first on, a call asked for.
    taken: Cell<usize>,
    /// Why the row differs, whatever its answer is.
    fault: Cell<Option<RowFault>>,
}

impl Words {
    /// No words; it takes no memory.
    pub fn new(alloc: Global) -> Words {
        Words {
            words: Vec::new(alloc),
            taken: Cell::new(0),
            fault: Cell::new(None),
        }
    }

    /// One word.
    pub fn word(alloc: Global, word: &[u8]) -> Words {
        let mut words = Words::new(alloc);
        words.put(alloc, word);
        words
    }

    /// One word: a value as it is displayed.
    pub fn shown<D: Display>(alloc: Global, value: &D) -> Words {
        let mut words = Words::new(alloc);
        words.show(alloc, value);
        words
    }

    /// `ok`, the answer of a call that gives nothing.
    pub fn done(alloc: Global) -> Words {
        Words::word(alloc, b"ok")
    }

    /// `yes` or `no`.
    pub fn yes_or_no(alloc: Global, yes: bool) -> Words {
        Words::word(alloc, if yes { b"yes" } else { b"no" })
    }

    /// The words of a refusal: `refused`, and the fault as it is displayed.
    pub fn refusal<D: Display>(alloc: Global, fault: &D) -> Words {
        let mut words = Words::word(alloc, b"refused");
        words.show(alloc, fault);
        words
    }

    /// One word: a value as it is displayed; or the words of a refusal.
    pub fn given<D: Display, F: Display>(alloc: Global, given: &Result<D, F>) -> Words {
        match given {
            Ok(value) => Words::shown(alloc, value),
            Err(fault) => Words::refusal(alloc, fault),
        }
    }

    /// Values as they are displayed, a word each.
    pub fn all<D: Display>(alloc: Global, values: &[D]) -> Words {
        let mut words = Words::new(alloc);
        words.show_all(alloc, values);
        words
    }

    /// No answer, for this reason.
    pub fn none(alloc: Global, fault: RowFault) -> Words {
        let words = Words::new(alloc);
        words.fail(fault);
        words
    }

    /// Adds a word at the end.
    pub fn put(&mut self, alloc: Global, word: &[u8]) {
        match Vec::from_slice(alloc, word) {
            Ok(word) => self.push(word),
            Err(_) => self.fail(RowFault::Memory),
        }
    }

    /// Adds a value as it is displayed.
    pub fn show<D: Display>(&mut self, alloc: Global, value: &D) {
        match format!(in alloc; "{value}") {
            Ok(text) => self.push(text.into_bytes()),
            Err(_) => self.fail(RowFault::Memory),
        }
    }

    /// Adds values as they are displayed, a word each.
    pub fn show_all<D: Display>(&mut self, alloc: Global, values: &[D]) {
        for value in values {
            self.show(alloc, value);
        }
    }

    pub(crate) fn push(&mut self, word: Vec<u8>) {
        if self.words.push(word).is_err() {
            self.fail(RowFault::Memory);
        }
    }

    /// Has the row differ for this reason, whatever its answer is.
    pub fn fail(&self, fault: RowFault) {
        self.fault.set(Some(fault));
    }

    /// Why the row differs: the last reason that was noted.
    pub(crate) fn fault(&self) -> Option<RowFault> {
        self.fault.get()
    }

    /// How many there are; who counts the arguments of a row takes them all.
    pub fn len(&self) -> usize {
        self.take(self.words.len());
        self.words.len()
    }

    pub fn is_empty(&self) -> bool {
        self.words.is_empty()
    }

    /// All of them, which takes them all.
    pub fn as_slice(&self) -> &[Vec<u8>] {
        self.take(self.words.len());
        &self.words
    }

    /// Whether these are the same words.
    pub(crate) fn same(&self, other: &Words) -> bool {
        self.words == other.words
    }

    /// Whether a call asked for the last of them, or there is none.
    pub(crate) fn are_taken(&self) -> bool {
        self.taken.get() >= self.words.len()
    }

    fn take(&self, count: usize) {
        if self.taken.get() < count {
            self.taken.set(count);
        }
    }

    /// The word at a place, from 0 on. Where there is none the row differs, and this is the empty word.
    pub fn word_at(&self, at: usize) -> &[u8] {
        match self.words.get(at) {
            Some(word) => {
                self.take(at.saturating_add(1));
                word.as_slice()
            }
            None => {
                self.fail(RowFault::TooFew);
                b""
            }
        }
    }

    /// The word at a place as text. Where it is none the row differs, and this is the empty text.
    pub fn str_at(&self, at: usize) -> &str {
        match str::from_utf8(self.word_at(at)) {
            Ok(text) => text,
            Err(_) => {
                self.fail(RowFault::OtherKind);
                ""
            }
        }
    }

    /// The word at a place as a number in decimal digits. Where it is none the row differs, and this is 0.
    pub fn number_at(&self, at: usize) -> u64 {
        match self.str_at(at).parse() {
            Ok(number) => number,
            Err(_) => {
                self.fail(RowFault::OtherKind);
                0
            }
        }
    }

    /// The word at a place as a number below 2^32. Where it is none the row differs, and this is 0.
    pub fn small_at(&self, at: usize) -> u32 {
        match u32::try_from(self.number_at(at)) {
            Ok(number) => number,
            Err(_) => {
                self.fail(RowFault::OtherKind);
                0
            }
        }
    }

    /// The word at a place, to be kept.
    pub fn bytes_at(&self, alloc: Global, at: usize) -> Vec<u8> {
        self.copy_of(alloc, self.word_at(at))
    }

    /// A copy of some bytes. Where there is no memory for it the row differs, and this is empty.
    pub fn copy_of(&self, alloc: Global, bytes: &[u8]) -> Vec<u8> {
        match Vec::from_slice(alloc, bytes) {
            Ok(copy) => copy,
            Err(_) => {
                self.fail(RowFault::Memory);
                Vec::new(alloc)
            }
        }
    }

    /// The word at a place as text, to be kept.
    pub fn text_at(&self, alloc: Global, at: usize) -> Text {
        self.text_of(alloc, self.str_at(at))
    }

    /// The texts that the word at a place is, parted by blanks.
    pub fn texts_at(&self, alloc: Global, at: usize) -> Texts {
        let mut texts = Items::new(alloc);
        for word in self.str_at(at).split_ascii_whitespace() {
            self.list(&mut texts, self.text_of(alloc, word));
        }
        texts
    }

    fn text_of(&self, alloc: Global, word: &str) -> Text {
        match Text::from_str(alloc, word) {
            Ok(text) => text,
            Err(_) => {
                self.fail(RowFault::Memory);
                Text::from_string(String::new(alloc))
            }
        }
    }

    /// The path that the word at a place names from the top. Where it names none the row differs, and this is the top.
    pub fn path_at(&self, alloc: Global, at: usize) -> Path {
        self.path_of(alloc, self.str_at(at))
    }

    /// The paths that the word at a place names from the top, parted by blanks.
    pub fn paths_at(&self, alloc: Global, at: usize) -> Paths {
        let mut paths = Items::new(alloc);
        for word in self.str_at(at).split_ascii_whitespace() {
            self.list(&mut paths, self.path_of(alloc, word));
        }
        paths
    }

    fn path_of(&self, alloc: Global, word: &str) -> Path {
        match Path::from_top(alloc, word) {
            Ok(path) => path,
            Err(fault) => {
                self.fail(match fault {
                    PathFault::Memory => RowFault::Memory,
                    _ => RowFault::OtherKind,
                });
                Path::top(alloc)
            }
        }
    }

    /// Adds an item to a list.
    pub fn list<T: Drop>(&self, items: &mut Items<T>, item: T) {
        if items.push(item).is_err() {
            self.fail(RowFault::Memory);
        }
    }
}
