//! The calls of `tables.rows`.
use crate::damaged::{Damage, damaged};
use crate::disturbed::{failed, stopped};
use crate::telling::told;
use crate::trial::Step;
use std::alloc::Global;
use std::sync::Wait;
use std::thread::Threads;
use tup_path::{Bytes, Items};
use tup_rows::{RowFault, Words, set};

/// The steps of the last project.
#[derive(Drop)]
pub(crate) struct Tables<'a, W: Threads + Wait + Sync> {
    rt: &'a W,
    steps: Items<Step>,
}

impl<'a, W: Threads + Wait + Sync> Tables<'a, W> {
    /// Of a project to which nothing was done.
    pub(crate) fn new(rt: &'a W, alloc: Global) -> Tables<'a, W> {
        Tables {
            rt,
            steps: Items::new(alloc),
        }
    }

    /// Answers the call of a row.
    pub(crate) fn answer(&mut self, alloc: Global, call: &str, said: &Words) -> Words {
        if call == "project" {
            set(&mut self.steps, Items::new(alloc));
            return Words::done(alloc);
        }
        match step(alloc, call, said) {
            Some(step) => {
                said.list(&mut self.steps, step);
                Words::done(alloc)
            }
            None => match self.table(alloc, call, said) {
                Ok(words) => words,
                Err(fault) => Words::none(alloc, fault),
            },
        }
    }

    /// The table that a row asks for.
    fn table(&self, alloc: Global, call: &str, said: &Words) -> Result<Words, RowFault> {
        let steps = self.steps.as_slice();
        match call {
            "stopped" => stopped(self.rt, alloc, steps, said),
            "failed" => failed(self.rt, alloc, steps, said),
            "damaged" => damaged(self.rt, alloc, steps, said, Damage::Byte),
            "told" => told(alloc, said),
            "cut" => damaged(self.rt, alloc, steps, said, Damage::Cut),
            _ => Err(RowFault::NoSuchCall),
        }
    }
}

/// The step that a row says.
fn step(alloc: Global, call: &str, said: &Words) -> Option<Step> {
    match call {
        "write" => Some(Step::Edit {
            path: said.path_at(alloc, 0),
            content: Some(Bytes::new(said.bytes_at(alloc, 1))),
        }),
        "delete" => Some(Step::Edit {
            path: said.path_at(alloc, 0),
            content: None,
        }),
        "update" => Some(Step::Update),
        _ => None,
    }
}
