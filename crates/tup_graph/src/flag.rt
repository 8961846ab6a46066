//! Rules are to be run.
ghost use Rattle.std.specs.Prelude.{◌≡◌, Ok, IfOk, IfErr};
ghost use Rattle.tup_path.specs.Gives.{GivesUnless};
ghost use Rattle.tup_graph.specs.Transactions.{flag_edits};

use crate::edit::{Edit, Edits};
use crate::fault::GraphFault;
use crate::nodes::Nodes;
use std::alloc::Global;
use tup_path::Items;
use tup_record::Record;

impl Nodes {
    /// What flags rules by their numbers.
    pub fn flag(&self, alloc: Global, rules: &[u32]) -> Result<Edits, GraphFault>
        ensures { GivesUnless result GraphFault.Memory (Ok (flag_edits rules.now)) }
    {
        let mut edits = Items::new(alloc);
        for rule in rules {
            edits.push(Edit::Put(Record::Modify { number: *rule }))?;
        }
        Ok(edits)
    }
}
