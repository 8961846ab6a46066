//! Paths are owned no longer.
ghost use Rattle.std.specs.Prelude.{◌≡◌, ◌++◌, Ok, filter_map, OnOk, IfErr};
ghost use Rattle.tup_path.specs.Gives.{GivesUnless};
ghost use Rattle.tup_graph.specs.Transactions.{forget_edits, disowned as disowned_of, unseen as unseen_of};

use crate::edit::{Edit, Edits};
use crate::fault::GraphFault;
use crate::nodes::Nodes;
use std::alloc::Global;
use tup_path::{Items, Path};
use tup_record::Record;

impl Nodes {
    /// What is done to the graph once the files at some owned paths are gone: those paths are owned no longer, and seen no
    /// longer.
    pub fn forget(&self, alloc: Global, paths: &[Path]) -> Result<Edits, GraphFault>
        ensures { GivesUnless result GraphFault.Memory (Ok (forget_edits self.now paths.now)) }
    {
        let mut edits = Items::new(alloc);
        self.push_disowned(&mut edits, paths)?;
        self.push_unseen(&mut edits, paths)?;
        Ok(edits)
    }

    /// Paths are owned no longer.
    fn push_disowned(&self, edits: &mut Edits, paths: &[Path]) -> Result<(), GraphFault>
        ensures ok { OnOk result (edits.new
            ≡ edits.old ++ filter_map (disowned_of self.now) paths.now) }
        ensures err { IfErr result (λ fault. fault ≡ GraphFault.Memory) }
    {
        for path in paths {
            if let Some(edit) = self.disowned(path)? {
                edits.push(edit)?;
            }
        }
        Ok(())
    }

    /// Paths are seen no longer.
    fn push_unseen(&self, edits: &mut Edits, paths: &[Path]) -> Result<(), GraphFault>
        ensures ok { OnOk result (edits.new
            ≡ edits.old ++ filter_map (unseen_of self.now) paths.now) }
        ensures err { IfErr result (λ fault. fault ≡ GraphFault.Memory) }
    {
        for path in paths {
            if let Some(edit) = self.unseen(path)? {
                edits.push(edit)?;
            }
        }
        Ok(())
    }

    /// A path is owned no longer, if it is.
    fn disowned(&self, path: &Path) -> Result<Option<Edit>, GraphFault>
        ensures { GivesUnless result GraphFault.Memory (Ok (disowned_of self.now path.now)) }
    {
        let Some(owned) = self.owned.get(path) else {
            return Ok(None);
        };
        Ok(Some(Edit::Remove(Record::Owned {
            path: path.clone()?,
            maker: owned.maker,
            state: owned.state,
        })))
    }

    /// A path is seen no longer, if it is.
    fn unseen(&self, path: &Path) -> Result<Option<Edit>, GraphFault>
        ensures { GivesUnless result GraphFault.Memory (Ok (unseen_of self.now path.now)) }
    {
        let Some(stamp) = self.seen.get(path) else {
            return Ok(None);
        };
        Ok(Some(Edit::Remove(Record::Seen {
            path: path.clone()?,
            stamp: *stamp,
        })))
    }
}
