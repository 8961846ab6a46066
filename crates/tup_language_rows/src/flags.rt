//! The calls of `flags.rows`.
use crate::repeated;
use std::alloc::Global;
use std::fs::Files;
use std::io;
use tup_flags::{FlagFault, FlagParts, Place, expand};
use tup_path::{Items, Path, Text};
use tup_rows::{Answers, RowFault, Words, set, try_file_by};
use tup_rule::{GroupRef, GroupRefs, Piece, Pieces};

pub(crate) fn try_rows<R: Files + Print>(rt: &R, alloc: Global) -> io::Result<()> {
    try_file_by(rt, alloc, "flags.rows", Flags::new(alloc))
}

/// Knows the calls of tup_flags, and keeps the parts of a rule from row to row.
#[derive(Drop)]
struct Flags {
    parts: FlagParts,
}

impl Answers for Flags {
    fn answer(&mut self, alloc: Global, call: &str, said: &Words) -> Result<Words, RowFault> {
        Ok(match call {
            "expand" => self.expanded(alloc, said),
            "expand_long" => self.measured(alloc, said),
            _ => self.changed(alloc, call, said),
        })
    }
}

impl Flags {
    /// A rule of the top directory that has no files.
    fn new(alloc: Global) -> Flags {
        Flags {
            parts: FlagParts {
                dir: Path::top(alloc),
                inputs: Items::new(alloc),
                order: Items::new(alloc),
                outputs: Items::new(alloc),
                foreach: false,
                glob: None,
                groups: Items::new(alloc),
                place: Place::Command,
            },
        }
    }

    /// Sets a part of the rule, whose answer has no words.
    fn changed(&mut self, alloc: Global, part: &str, said: &Words) -> Words {
        let parts = &mut self.parts;
        match part {
            "dir" => set(&mut parts.dir, said.path_at(alloc, 0)),
            "inputs" => set(&mut parts.inputs, said.paths_at(alloc, 0)),
            "order" => set(&mut parts.order, said.paths_at(alloc, 0)),
            "outputs" => set(&mut parts.outputs, said.paths_at(alloc, 0)),
            "foreach" => parts.foreach = said.str_at(0) == "yes",
            "glob" => set(&mut parts.glob, some_text(alloc, said)),
            "groups" => set(&mut parts.groups, groups(alloc, said)),
            _ => return Words::none(alloc, RowFault::NoSuchCall),
        }
        Words::new(alloc)
    }

    /// The text expanded at the place of the rule line that is named.
    fn expanded(&mut self, alloc: Global, said: &Words) -> Words {
        self.parts.place = place(said);
        match expand(alloc, &said.text_at(alloc, 1), &self.parts) {
            Ok(pieces) => listed(alloc, &pieces),
            Err(fault) => refused(alloc, fault),
        }
    }

    /// How many bytes the first piece has of so many letters with a text behind them.
    fn measured(&mut self, alloc: Global, said: &Words) -> Words {
        self.parts.place = Place::Command;
        let (count, back) = (said.number_at(0), said.str_at(1));
        match expand(
            alloc,
            &repeated::text(alloc, said, ("", "a", count, back)),
            &self.parts,
        ) {
            Ok(pieces) => first_length(alloc, &pieces),
            Err(fault) => refused(alloc, fault),
        }
    }
}

/// Want of memory is no answer.
fn refused(alloc: Global, fault: FlagFault) -> Words {
    match fault {
        FlagFault::Memory => Words::none(alloc, RowFault::Memory),
        fault => Words::refusal(alloc, &fault),
    }
}

fn place(said: &Words) -> Place {
    match said.str_at(0) {
        "inputs" => Place::Inputs,
        "command" => Place::Command,
        "outputs" => Place::Outputs,
        "extra" => Place::Extra,
        _ => {
            said.fail(RowFault::OtherKind);
            Place::Command
        }
    }
}

/// A text, or `None` for the empty word.
fn some_text(alloc: Global, said: &Words) -> Option<Text> {
    if said.str_at(0).is_empty() {
        return None;
    }
    Some(said.text_at(alloc, 0))
}

/// Groups of the top directory with these names.
fn groups(alloc: Global, said: &Words) -> GroupRefs {
    let mut groups = Items::new(alloc);
    for name in said.texts_at(alloc, 0).into_vec() {
        let dir = Path::top(alloc);
        said.list(&mut groups, GroupRef { dir, name });
    }
    groups
}

/// Each piece as two words: `text` and the text, or `group` and its place.
fn listed(alloc: Global, pieces: &Pieces) -> Words {
    let mut words = Words::new(alloc);
    for piece in pieces.as_slice() {
        add_piece(alloc, &mut words, piece);
    }
    words
}

fn add_piece(alloc: Global, words: &mut Words, piece: &Piece) {
    match piece {
        Piece::Text(text) => {
            words.put(alloc, b"text");
            words.show(alloc, text);
        }
        Piece::Group(at) => {
            words.put(alloc, b"group");
            words.show(alloc, at);
        }
    }
}

fn first_length(alloc: Global, pieces: &Pieces) -> Words {
    match pieces.as_slice() {
        [Piece::Text(text), ..] => Words::shown(alloc, &text.as_str().len()),
        _ => Words::word(alloc, b"0"),
    }
}
