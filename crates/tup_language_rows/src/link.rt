//! The calls of `link.rows`.
use crate::draft::draft_at;
use crate::project::Project;
use std::alloc::Global;
use std::fs::Files;
use std::io;
use tup_link::{LinkFault, RuleNames, What};
use tup_path::Paths;
use tup_rows::{Answers, RowFault, Words, set, try_file_by};
use tup_rule::{GroupRef, Rule};

pub(crate) fn try_rows<R: Files + Print>(rt: &R, alloc: Global) -> io::Result<()> {
    try_file_by(
        rt,
        alloc,
        "link.rows",
        Linking {
            project: Project::new(alloc),
        },
    )
}

/// Knows the calls of tup_link, and keeps the project from row to row.
#[derive(Drop)]
struct Linking {
    project: Project,
}

impl Answers for Linking {
    fn answer(&mut self, alloc: Global, call: &str, said: &Words) -> Result<Words, RowFault> {
        Ok(match call {
            "project" => self.begin(alloc),
            "folder" => self.folder(alloc, said),
            "draft" => self.draft(alloc, said),
            "chain" => self.chain(alloc, said),
            "wide" => self.wide(alloc, said),
            "link" => self.link(alloc),
            "rule" => self.rule(alloc, said),
            _ => Words::none(alloc, RowFault::NoSuchCall),
        })
    }
}

impl Linking {
    fn begin(&mut self, alloc: Global) -> Words {
        set(&mut self.project, Project::new(alloc));
        Words::new(alloc)
    }

    fn folder(&mut self, alloc: Global, said: &Words) -> Words {
        self.project.begin(alloc, said, said.path_at(alloc, 0));
        Words::new(alloc)
    }

    fn draft(&mut self, alloc: Global, said: &Words) -> Words {
        self.project.add(said, draft_at(alloc, said));
        Words::new(alloc)
    }

    fn chain(&mut self, alloc: Global, said: &Words) -> Words {
        let (dir, count) = (said.path_at(alloc, 0), said.number_at(1));
        self.project.add_chain(alloc, said, &dir, count);
        Words::new(alloc)
    }

    fn wide(&mut self, alloc: Global, said: &Words) -> Words {
        let (count, inputs) = (said.number_at(0), said.number_at(1));
        self.project.add_wide(alloc, said, count, inputs);
        Words::new(alloc)
    }

    /// How many rules there are, or the refusal.
    fn link(&self, alloc: Global) -> Words {
        match self.project.link(alloc) {
            Ok(rules) => Words::shown(alloc, &rules.len()),
            Err(fault) => refused(alloc, &fault),
        }
    }

    /// The rule at a place, or the refusal.
    fn rule(&self, alloc: Global, said: &Words) -> Words {
        let at = said.number_at(0);
        match self.project.link(alloc) {
            Ok(rules) => shown_at(alloc, rules.as_slice(), at),
            Err(fault) => refused(alloc, &fault),
        }
    }
}

fn shown_at(alloc: Global, rules: &[Rule], at: u64) -> Words {
    match rules.get(at as usize) {
        Some(rule) => shown(alloc, rule),
        None => Words::word(alloc, b"none"),
    }
}

/// The folder, the command, the display text or `-`, and the inputs, order-only inputs and outputs, each behind its name.
fn shown(alloc: Global, rule: &Rule) -> Words {
    let mut words = Words::shown(alloc, &rule.dir);
    words.show(alloc, &rule.text);
    match &rule.display {
        Some(text) => words.show(alloc, text),
        None => words.put(alloc, b"-"),
    }
    each(alloc, &mut words, "inputs", &rule.inputs);
    each(alloc, &mut words, "order", &rule.order);
    each(alloc, &mut words, "outputs", &rule.outputs);
    words
}

fn each(alloc: Global, words: &mut Words, name: &str, paths: &Paths) {
    words.put(alloc, name.as_bytes());
    words.show_all(alloc, paths.as_slice());
}

/// The words of a refusal with its cause; want of memory is no answer.
fn refused(alloc: Global, fault: &LinkFault) -> Words {
    match fault {
        LinkFault::TooMany { what, number } => too_many(alloc, *what, *number),
        LinkFault::NoSuchGroup(group) => no_such_group(alloc, fault, group),
        LinkFault::DuplicateCommand { .. } => duplicate(alloc, fault),
        LinkFault::CircularCommands(names) => circular(alloc, fault, names),
        LinkFault::Memory => Words::none(alloc, RowFault::Memory),
    }
}

fn too_many(alloc: Global, what: What, number: u64) -> Words {
    let mut words = match what {
        What::Commands => Words::refusal(alloc, &"too many commands"),
        What::Links => Words::refusal(alloc, &"too many declared inputs"),
    };
    words.show(alloc, &number);
    words
}

fn no_such_group(alloc: Global, fault: &LinkFault, group: &GroupRef) -> Words {
    let mut words = Words::refusal(alloc, fault);
    words.show(alloc, &group.dir);
    words.show(alloc, &group.name);
    words
}

fn duplicate(alloc: Global, fault: &LinkFault) -> Words {
    let mut words = Words::refusal(alloc, fault);
    if let LinkFault::DuplicateCommand { dir, file, line } = fault {
        words.show(alloc, dir);
        words.show(alloc, file);
        words.show(alloc, line);
    }
    words
}

fn circular(alloc: Global, fault: &LinkFault, names: &RuleNames) -> Words {
    let mut words = Words::refusal(alloc, fault);
    for name in names.as_slice() {
        words.show(alloc, &name.dir);
        words.show(alloc, &name.text);
    }
    words
}
