//! The calls of `macros.rows`.
use std::alloc::Global;
use std::fs::Files;
use std::io;
use tup_macro::{Bins, Groups, Macro, MacroFault, Macros};
use tup_path::Texts;
use tup_rows::{Answers, RowFault, Words, try_file_by};
use tup_rule::GroupRef;

pub(crate) fn try_rows<R: Files + Print>(rt: &R, alloc: Global) -> io::Result<()> {
    match Tables::new(alloc) {
        Ok(tables) => try_file_by(rt, alloc, "macros.rows", tables),
        Err(fault) => println!(rt; "macros.rows: {fault}"),
    }
}

/// Knows the calls of tup_macro, and keeps its tables from row to row.
#[derive(Drop)]
struct Tables {
    macros: Macros,
    bins: Bins,
    groups: Groups,
}

impl Answers for Tables {
    fn answer(&mut self, alloc: Global, call: &str, said: &Words) -> Result<Words, RowFault> {
        Ok(match call {
            "define" => self.define(alloc, said),
            "macro" => self.defined(alloc, said),
            "give_bin" => self.give_bin(alloc, said),
            "bin" => self.bin(alloc, said),
            "give_group" => self.give_group(alloc, said),
            "group" => self.group(alloc, said),
            _ => Words::none(alloc, RowFault::NoSuchCall),
        })
    }
}

impl Tables {
    fn new(alloc: Global) -> Result<Tables, MacroFault> {
        Ok(Tables {
            macros: Macros::new(alloc)?,
            bins: Bins::new(alloc)?,
            groups: Groups::new(alloc)?,
        })
    }

    fn define(&mut self, alloc: Global, said: &Words) -> Words {
        let body = Macro {
            order: said.texts_at(alloc, 1),
            command: said.text_at(alloc, 2),
            outputs: said.texts_at(alloc, 3),
            extra: said.texts_at(alloc, 4),
        };
        done(alloc, self.macros.define(&said.text_at(alloc, 0), body))
    }

    fn defined(&self, alloc: Global, said: &Words) -> Words {
        match self.macros.get(&said.text_at(alloc, 0)) {
            Ok(body) => named(alloc, body),
            Err(fault) => refused(alloc, fault),
        }
    }

    fn give_bin(&mut self, alloc: Global, said: &Words) -> Words {
        let name = said.text_at(alloc, 0);
        done(alloc, self.bins.add(&name, &said.path_at(alloc, 1)))
    }

    fn bin(&self, alloc: Global, said: &Words) -> Words {
        match self.bins.members(alloc, &said.text_at(alloc, 0)) {
            Ok(members) => Words::all(alloc, members.as_slice()),
            Err(fault) => refused(alloc, fault),
        }
    }

    fn give_group(&mut self, alloc: Global, said: &Words) -> Words {
        let group = group_at(alloc, said);
        done(alloc, self.groups.add(&group, &said.path_at(alloc, 2)))
    }

    fn group(&self, alloc: Global, said: &Words) -> Words {
        match self.groups.members(alloc, &group_at(alloc, said)) {
            Ok(Some(members)) => Words::all(alloc, members.as_slice()),
            Ok(None) => Words::word(alloc, b"none"),
            Err(fault) => refused(alloc, fault),
        }
    }
}

/// The group that a folder and a name are.
fn group_at(alloc: Global, said: &Words) -> GroupRef {
    GroupRef {
        dir: said.path_at(alloc, 0),
        name: said.text_at(alloc, 1),
    }
}

/// No words, or the refusal.
fn done(alloc: Global, outcome: Result<(), MacroFault>) -> Words {
    match outcome {
        Ok(()) => Words::new(alloc),
        Err(fault) => refused(alloc, fault),
    }
}

/// The words of a refusal; want of memory is no answer.
fn refused(alloc: Global, fault: MacroFault) -> Words {
    match fault {
        MacroFault::Memory => Words::none(alloc, RowFault::Memory),
        fault => Words::refusal(alloc, &fault),
    }
}

/// What a macro says, each part behind its name.
fn named(alloc: Global, body: &Macro) -> Words {
    let mut words = Words::new(alloc);
    each(alloc, &mut words, "order", &body.order);
    words.put(alloc, b"command");
    words.show(alloc, &body.command);
    each(alloc, &mut words, "outputs", &body.outputs);
    each(alloc, &mut words, "extra", &body.extra);
    words
}

fn each(alloc: Global, words: &mut Words, name: &str, texts: &Texts) {
    words.put(alloc, name.as_bytes());
    words.show_all(alloc, texts.as_slice());
}
