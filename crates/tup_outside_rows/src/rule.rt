//! The calls of `rule.rows`.
use crate::reading;
use std::alloc::Global;
use std::fs::Files;
use std::io;
use tup_path::{Items, Path, Text};
use tup_rows::{Answers, RowFault, Words, set, try_file_by};
use tup_rule::Rule;

pub(crate) fn try_rows<R: Files + Print>(rt: &R, alloc: Global) -> io::Result<()> {
    try_file_by(rt, alloc, "rule.rows", RuleRows::new(alloc))
}

/// What the rows above have left.
#[derive(Drop)]
struct RuleRows {
    /// The rule that is spoken of.
    rule: Rule,
    /// The one that was kept beside it.
    other: Rule,
}

impl Answers for RuleRows {
    fn answer(&mut self, alloc: Global, call: &str, said: &Words) -> Result<Words, RowFault> {
        Ok(match call {
            "declares" => self.declares(alloc, said),
            "writes" => self.writes(alloc, said),
            "name" => self.name(alloc),
            "label" => self.label(alloc),
            "keep" => self.keep(alloc),
            "same" => Words::yes_or_no(alloc, self.rule.same(&self.other)),
            _ => self.change(alloc, call, said),
        })
    }
}

impl RuleRows {
    fn new(alloc: Global) -> RuleRows {
        RuleRows {
            rule: empty(alloc),
            other: empty(alloc),
        }
    }

    /// Changes the rule, which has no words for an answer but `ok`.
    fn change(&mut self, alloc: Global, call: &str, said: &Words) -> Words {
        let rule = &mut self.rule;
        match call {
            "rule" => set(
                rule,
                bare(alloc, said.path_at(alloc, 0), said.text_at(alloc, 1)),
            ),
            "dir" => set(&mut rule.dir, said.path_at(alloc, 0)),
            "command" => set(&mut rule.text, said.text_at(alloc, 0)),
            "display" => set(&mut rule.display, Some(said.text_at(alloc, 0))),
            "compare" => rule.compare = true,
            _ => return self.list(alloc, call, said),
        }
        Words::done(alloc)
    }

    /// Adds a path to one of the rule's lists.
    fn list(&mut self, alloc: Global, call: &str, said: &Words) -> Words {
        let rule = &mut self.rule;
        match call {
            "input" => said.list(&mut rule.inputs, said.path_at(alloc, 0)),
            "order" => said.list(&mut rule.order, said.path_at(alloc, 0)),
            "output" => said.list(&mut rule.outputs, said.path_at(alloc, 0)),
            _ => return reading::answer(alloc, call, said),
        }
        Words::done(alloc)
    }

    fn declares(&self, alloc: Global, said: &Words) -> Words {
        Words::yes_or_no(alloc, self.rule.declares(&said.path_at(alloc, 0)))
    }

    fn writes(&self, alloc: Global, said: &Words) -> Words {
        Words::yes_or_no(alloc, self.rule.writes(&said.path_at(alloc, 0)))
    }

    fn keep(&mut self, alloc: Global) -> Words {
        match self.rule.clone() {
            Ok(rule) => {
                set(&mut self.other, rule);
                Words::done(alloc)
            }
            Err(_) => Words::none(alloc, RowFault::Memory),
        }
    }

    fn name(&self, alloc: Global) -> Words {
        match self.rule.name(alloc) {
            Ok(name) => named(alloc, &name.dir, &name.text),
            Err(_) => Words::none(alloc, RowFault::Memory),
        }
    }

    fn label(&self, alloc: Global) -> Words {
        match self.rule.label(alloc) {
            Ok(label) => Words::shown(alloc, &label),
            Err(_) => Words::none(alloc, RowFault::Memory),
        }
    }
}

/// The rule of the top that runs nothing, and declares and makes nothing.
fn empty(alloc: Global) -> Rule {
    bare(
        alloc,
        Path::top(alloc),
        Text::from_string(String::new(alloc)),
    )
}

/// A rule that declares and makes nothing.
fn bare(alloc: Global, dir: Path, text: Text) -> Rule {
    Rule {
        dir,
        text,
        display: None,
        compare: false,
        inputs: Items::new(alloc),
        order: Items::new(alloc),
        outputs: Items::new(alloc),
    }
}

fn named(alloc: Global, dir: &Path, text: &Text) -> Words {
    let mut words = Words::shown(alloc, dir);
    words.show(alloc, text);
    words
}
