//! A run ended well.
ghost use Rattle.std.specs.Prelude.{◌≡◌, ◌++◌, Ok, map, OnOk, IfErr};
ghost use Rattle.tup_path.specs.Gives.{GivesUnless};
ghost use Rattle.tup_graph.specs.Transactions.{finish_edits, written as written_of, seen_so as seen_of};

use crate::edit::{Edit, Edits};
use crate::fault::GraphFault;
use crate::nodes::Nodes;
use std::alloc::Global;
use tup_path::{Items, Path};
use tup_record::{OwnedState, Record, RunRecord, Writes};
use tup_stamp::Stamp;

impl Nodes {
    /// What the good end of a rule's run does to the graph: what it wrote is written with these stamps, and seen with
    /// them, the rule has this record, and isn't flagged any more.
    pub fn finish(&self, alloc: Global, rule: u32, run: RunRecord) -> Result<Edits, GraphFault>
        ensures { GivesUnless result GraphFault.Memory (Ok (finish_edits self.now rule run)) }
    {
        let mut edits = Items::new(alloc);
        self.push_written(&mut edits, rule, &run.writes)?;
        push_seen(&mut edits, &run.writes)?;
        edits.push(Edit::Put(Record::Run { number: rule, run }))?;
        edits.push(Edit::Remove(Record::Modify { number: rule }))?;
        Ok(edits)
    }

    /// Outputs of a rule are written with their stamps.
    fn push_written(&self, edits: &mut Edits, rule: u32, writes: &Writes) -> Result<(), GraphFault>
        ensures ok { OnOk result (edits.new
            ≡ edits.old ++ map (written_of self.now rule) writes.now) }
        ensures err { IfErr result (λ fault. fault ≡ GraphFault.Memory) }
    {
        for (path, stamp) in writes.as_slice() {
            edits.push(self.own(rule, OwnedState::Written(*stamp), path)?)?;
        }
        Ok(())
    }
}

/// Files are seen with their stamps.
fn push_seen(edits: &mut Edits, writes: &Writes) -> Result<(), GraphFault>
    ensures ok { OnOk result (edits.new ≡ edits.old ++ map seen_of writes.now) }
    ensures err { IfErr result (λ fault. fault ≡ GraphFault.Memory) }
{
    for file in writes.as_slice() {
        edits.push(seen_so(file)?)?;
    }
    Ok(())
}

/// A file is seen with its stamp.
fn seen_so(file: &(Path, Stamp)) -> Result<Edit, GraphFault>
    ensures { GivesUnless result GraphFault.Memory (Ok (seen_of file.now)) }
{
    let (path, stamp) = file;
    Ok(Edit::Put(Record::Seen {
        path: path.clone()?,
        stamp: *stamp,
    }))
}
