//! Rules, readings and records in words.
use crate::say::{Say, named};
use std::alloc::Global;
use tup_record::{OwnedState, Record, RunRecord};
use tup_rows::Words;
use tup_rule::{Answered, Draft, GroupRef, Kind, Noted, Piece, Question, Reading, Rule};

impl Say for GroupRef {
    fn say(&self, alloc: Global, words: &mut Words) {
        self.dir.say(alloc, words);
        self.name.say(alloc, words)
    }
}

impl Say for Piece {
    fn say(&self, alloc: Global, words: &mut Words) {
        match self {
            Piece::Text(text) => named(alloc, words, "text", text),
            Piece::Group(place) => named(alloc, words, "group", place),
        }
    }
}

impl Say for Kind {
    fn say(&self, alloc: Global, words: &mut Words) {
        let name = match self {
            Kind::Nothing => b"nothing".as_slice(),
            Kind::File => b"file",
            Kind::Dir => b"dir",
        };
        words.put(alloc, name)
    }
}

impl Say for Question {
    fn say(&self, alloc: Global, words: &mut Words) {
        match self {
            Question::Content(path) => named(alloc, words, "content", path),
            Question::Config(name) => named(alloc, words, "config", name),
            Question::Names(dir) => named(alloc, words, "names", dir),
            Question::Kind(path) => named(alloc, words, "kind", path),
        }
    }
}

impl Say for Noted {
    fn say(&self, alloc: Global, words: &mut Words) {
        match self {
            Noted::Content(stamp) => named(alloc, words, "told", stamp),
            Noted::Config(value) => named(alloc, words, "told", value),
            Noted::Names(names) => named(alloc, words, "told", names),
            Noted::Kind(kind) => named(alloc, words, "told", kind),
        }
    }
}

impl Say for Answered {
    fn say(&self, alloc: Global, words: &mut Words) {
        self.question().say(alloc, words);
        self.noted().say(alloc, words)
    }
}

impl Say for Rule {
    fn say(&self, alloc: Global, words: &mut Words) {
        named(alloc, words, "dir", &self.dir);
        named(alloc, words, "text", &self.text);
        named(alloc, words, "display", &self.display);
        named(alloc, words, "compare", &self.compare);
        named(alloc, words, "inputs", &self.inputs);
        named(alloc, words, "order", &self.order);
        named(alloc, words, "outputs", &self.outputs)
    }
}

impl Say for Draft {
    fn say(&self, alloc: Global, words: &mut Words) {
        named(alloc, words, "file", &self.file);
        named(alloc, words, "line", &self.line);
        named(alloc, words, "pieces", &self.pieces);
        named(alloc, words, "display", &self.display);
        named(alloc, words, "compare", &self.compare);
        named(alloc, words, "inputs", &self.inputs);
        named(alloc, words, "order", &self.order);
        named(alloc, words, "outputs", &self.outputs);
        named(alloc, words, "groups", &self.groups);
        named(alloc, words, "gives", &self.gives)
    }
}

impl Say for Reading {
    fn say(&self, alloc: Global, words: &mut Words) {
        named(alloc, words, "asked", &self.asked);
        named(alloc, words, "drafts", &self.drafts)
    }
}

impl Say for RunRecord {
    fn say(&self, alloc: Global, words: &mut Words) {
        named(alloc, words, "asks", &self.asks);
        named(alloc, words, "writes", &self.writes)
    }
}

impl Say for OwnedState {
    fn say(&self, alloc: Global, words: &mut Words) {
        match self {
            OwnedState::Never => words.put(alloc, b"never"),
            OwnedState::Unsure => words.put(alloc, b"unsure"),
            OwnedState::Written(stamp) => named(alloc, words, "written", stamp),
        }
    }
}

impl Say for Record {
    fn say(&self, alloc: Global, words: &mut Words) {
        match self {
            Record::Seen { path, stamp } => {
                named(alloc, words, "seen", path);
                stamp.say(alloc, words)
            }
            Record::Reading { dir, reading } => {
                named(alloc, words, "reading", dir);
                reading.say(alloc, words)
            }
            Record::Rule {
                number,
                place,
                rule,
            } => {
                named(alloc, words, "rule", number);
                named(alloc, words, "place", place);
                rule.say(alloc, words)
            }
            Record::Run { number, run } => {
                named(alloc, words, "run", number);
                run.say(alloc, words)
            }
            Record::Owned { path, maker, state } => {
                named(alloc, words, "owned", path);
                named(alloc, words, "maker", maker);
                state.say(alloc, words)
            }
            Record::Create { dir } => named(alloc, words, "create", dir),
            Record::Modify { number } => named(alloc, words, "modify", number),
        }
    }
}
