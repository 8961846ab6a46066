//! The calls of `board.rows`.
use crate::project::Given;
use crate::script::script;
use crate::sweep::sweep;
use std::alloc::Global;
use tup_rows::{Answers, RowFault, Words};

impl Answers for Given {
    fn answer(&mut self, alloc: Global, call: &str, said: &Words) -> Result<Words, RowFault> {
        match call {
            "source" => Ok(self.project.add_source(alloc, said)),
            "rule" => Ok(self.project.add_rule(alloc, said)),
            "large" => Ok(self.set_large(alloc, said)),
            "anew" => Ok(self.begin_anew(alloc)),
            "sweep" => sweep(alloc, self, said),
            _ => script(alloc, self, call, said),
        }
    }
}
