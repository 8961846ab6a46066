//! A run begins.
ghost use Rattle.std.specs.Prelude.{◌≡◌, Ok};
ghost use Rattle.tup_path.specs.Gives.{GivesUnless};
ghost use Rattle.tup_graph.specs.Transactions.{begin_edits, own as own_of, maker_of};
ghost use Rattle.tup_graph.specs.Graph.{outputs_of};

use crate::edit::{Edit, Edits};
use crate::fault::GraphFault;
use crate::nodes::Nodes;
use std::alloc::Global;
use tup_path::{Items, Path};
use tup_record::{OwnedState, Record};

impl Nodes {
    /// What a run of a rule does to the graph before it puts a file: the rule's outputs are unsure, in the order of the
    /// rule. It is nothing where no rule has this number.
    pub fn begin(&self, alloc: Global, rule: u32) -> Result<Edits, GraphFault>
        ensures { GivesUnless result GraphFault.Memory (Ok (begin_edits self.now rule)) }
    {
        let mut edits = Items::new(alloc);
        for path in self.outputs_of(rule) {
            edits.push(self.own(rule, OwnedState::Unsure, path)?)?;
        }
        Ok(edits)
    }

    /// The outputs of a rule; none where no rule has this number.
    pub(crate) fn outputs_of(&self, rule: u32) -> &[Path]
        ensures { result.now ≡ outputs_of self.now rule }
    {
        match self.rules.as_slice().get(rule as usize) {
            Some(rule) => rule.outputs.as_slice(),
            None => &[],
        }
    }

    /// An output of a rule in this state; its maker stays.
    pub(crate) fn own(&self, rule: u32, state: OwnedState, path: &Path) -> Result<Edit, GraphFault>
        ensures { GivesUnless result GraphFault.Memory (Ok (own_of self.now rule state path.now)) }
    {
        Ok(Edit::Put(Record::Owned {
            path: path.clone()?,
            maker: self.maker_of(rule, path),
            state,
        }))
    }

    /// Who makes an output of a rule: its maker, or the rule itself where nothing owns the path yet.
    fn maker_of(&self, rule: u32, path: &Path) -> Option<u32>
        ensures { result ≡ maker_of self.now rule path.now }
    {
        match self.owned.get(path) {
            Some(owned) => owned.maker,
            None => Some(rule),
        }
    }
}
