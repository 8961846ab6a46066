//! The calls of `course.rows`: the sources and the rules that rows give, and the course that they are on.
use crate::answer::show_events;
use crate::desk::Desk;
use crate::opening::{by_path, reach_at};
use crate::orders::obey;
use crate::plan::planned;
use std::alloc::Global;
use tup_core::Stamps;
use tup_path::Items;
use tup_rows::{Answers, RowFault, Words};
use tup_rule::{Rule, Rules};
use tup_stamp::stamp_of;

/// What the rows so far gave.
#[derive(Drop)]
pub(crate) struct Courses {
    files: Stamps,
    rules: Rules,
    desk: Option<Desk>,
}

impl Answers for Courses {
    fn answer(&mut self, alloc: Global, call: &str, said: &Words) -> Result<Words, RowFault> {
        Ok(match call {
            "source" => self.add_source(alloc, said),
            "rule" => self.add_rule(alloc, said),
            "plan" => self.begin(alloc, said),
            "close" => self.close(alloc),
            _ => self.obey(alloc, call, said),
        })
    }
}

impl Courses {
    /// Nothing yet.
    pub(crate) fn new(alloc: Global) -> Courses {
        Courses {
            files: Items::new(alloc),
            rules: Items::new(alloc),
            desk: None,
        }
    }

    /// Adds a source: its path and its content.
    fn add_source(&mut self, alloc: Global, said: &Words) -> Words {
        let stamp = stamp_of(said.word_at(1));
        said.list(&mut self.files, (said.path_at(alloc, 0), stamp));
        Words::new(alloc)
    }

    /// Adds a rule.
    fn add_rule(&mut self, alloc: Global, said: &Words) -> Words {
        said.list(&mut self.rules, rule(alloc, said));
        Words::new(alloc)
    }

    /// Begins another course.
    fn begin(&mut self, alloc: Global, said: &Words) -> Words {
        match self.opened(alloc, said) {
            Ok(desk) => {
                self.desk = Some(desk);
                Words::new(alloc)
            }
            Err(fault) => Words::none(alloc, fault),
        }
    }

    /// A course of the plan that a row gives.
    fn opened(&self, alloc: Global, said: &Words) -> Result<Desk, RowFault> {
        let keep_going = said.word_at(1) == b"keep".as_slice();
        let plan = planned(alloc, &self.rules, reach_at(alloc, said, 0), keep_going)?;
        Desk::new(alloc, plan, by_path(alloc, self.files.clone()?)?)
    }

    /// Does what a row says to the course.
    fn obey(&mut self, alloc: Global, call: &str, said: &Words) -> Words {
        match &mut self.desk {
            Some(desk) => obey(alloc, desk, call, said),
            None => Words::none(alloc, RowFault::NoSuchCall),
        }
    }

    /// Ends the course, and answers what happened on it.
    fn close(&mut self, alloc: Global) -> Words {
        match self.desk.take() {
            Some(desk) => show_events(alloc, desk.course.into_history().as_slice()),
            None => Words::none(alloc, RowFault::NoSuchCall),
        }
    }
}

/// A rule: its folder, its inputs and its outputs.
fn rule(alloc: Global, said: &Words) -> Rule {
    Rule {
        dir: said.path_at(alloc, 0),
        text: said.text_at(alloc, 0),
        display: None,
        compare: false,
        inputs: said.paths_at(alloc, 1),
        order: Items::new(alloc),
        outputs: said.paths_at(alloc, 2),
    }
}
