//! Files at owned paths are to go.
ghost use Rattle.std.specs.Prelude.{◌≡◌, Ok, filter_map};
ghost use Rattle.tup_path.specs.Gives.{GivesUnless};
ghost use Rattle.tup_graph.specs.Transactions.{doom_edits, doomed as doomed_of};

use crate::edit::{Edit, Edits};
use crate::fault::GraphFault;
use crate::nodes::Nodes;
use std::alloc::Global;
use tup_path::{Items, Path};
use tup_record::{OwnedState, Record};

impl Nodes {
    /// What is done to the graph before the files at some owned paths are removed: those paths are unsure. A path that
    /// isn't owned is left.
    pub fn doom(&self, alloc: Global, paths: &[Path]) -> Result<Edits, GraphFault>
        ensures { GivesUnless result GraphFault.Memory (Ok (doom_edits self.now paths.now)) }
    {
        let mut edits = Items::new(alloc);
        for path in paths {
            if let Some(edit) = self.doomed(path)? {
                edits.push(edit)?;
            }
        }
        Ok(edits)
    }

    /// A path is unsure, if it is owned.
    fn doomed(&self, path: &Path) -> Result<Option<Edit>, GraphFault>
        ensures { GivesUnless result GraphFault.Memory (Ok (doomed_of self.now path.now)) }
    {
        let Some(owned) = self.owned.get(path) else {
            return Ok(None);
        };
        Ok(Some(Edit::Put(Record::Owned {
            path: path.clone()?,
            maker: owned.maker,
            state: OwnedState::Unsure,
        })))
    }
}
