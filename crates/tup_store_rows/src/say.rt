//! Values in words.
use std::alloc::Global;
use tup_path::{Items, Path, Shared, Text};
use tup_rows::Words;
use tup_stamp::{Stamp, hex};

/// A value that answers name in words.
pub trait Say: Drop {
    /// Adds the words of the value.
    fn say(&self, alloc: Global, words: &mut Words);
}

/// Adds a name, and the words of the value that it names.
pub fn named<T: Say>(alloc: Global, words: &mut Words, name: &str, value: &T) {
    words.put(alloc, name.as_bytes());
    value.say(alloc, words)
}

impl Say for u32 {
    fn say(&self, alloc: Global, words: &mut Words) {
        words.show(alloc, self);
    }
}

impl Say for bool {
    fn say(&self, alloc: Global, words: &mut Words) {
        words.put(alloc, if *self { b"true" } else { b"false" })
    }
}

impl Say for () {
    fn say(&self, _alloc: Global, _words: &mut Words) {}
}

impl Say for Text {
    fn say(&self, alloc: Global, words: &mut Words) {
        words.put(alloc, self.as_bytes())
    }
}

impl Say for Path {
    fn say(&self, alloc: Global, words: &mut Words) {
        words.show(alloc, self);
    }
}

impl Say for Stamp {
    fn say(&self, alloc: Global, words: &mut Words) {
        words.put(alloc, &hex(self))
    }
}

impl<T: Say> Say for Option<T> {
    fn say(&self, alloc: Global, words: &mut Words) {
        match self {
            None => words.put(alloc, b"none"),
            Some(value) => named(alloc, words, "some", value),
        }
    }
}

impl<T: Say> Say for Items<T> {
    fn say(&self, alloc: Global, words: &mut Words) {
        say_all(alloc, words, self.as_slice())
    }
}

impl<T: Say> Say for Shared<T> {
    fn say(&self, alloc: Global, words: &mut Words) {
        say_all(alloc, words, self.as_slice())
    }
}

/// Adds how many values there are, and the words of each.
fn say_all<T: Say>(alloc: Global, words: &mut Words, items: &[T]) {
    words.show(alloc, &items.len());
    for item in items {
        item.say(alloc, words);
    }
}

impl<A: Say, B: Say> Say for (A, B) {
    fn say(&self, alloc: Global, words: &mut Words) {
        self.0.say(alloc, words);
        self.1.say(alloc, words)
    }
}
