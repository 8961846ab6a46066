//! The calls of `core.rows`.
use crate::drive::drive;
use crate::run::run;
use std::alloc::Global;
use tup_given::Project;
use tup_rows::{Answers, RowFault, Words};

/// Knows them; what the rows so far gave.
#[derive(Drop)]
pub(crate) struct Core {
    pub(crate) project: Project,
}

impl Answers for Core {
    fn answer(&mut self, alloc: Global, call: &str, said: &Words) -> Result<Words, RowFault> {
        Ok(match call {
            "source" => self.project.add_source(alloc, said),
            "rule" => self.project.add_rule(alloc, said),
            "drive" => drive(alloc, &self.project, said),
            _ => run(alloc, &self.project, call, said),
        })
    }
}
