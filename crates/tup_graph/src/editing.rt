//! How a graph takes edits.
ghost use Rattle.std.specs.Prelude.{◌≡◌, take, OnOk, IfErr};
ghost use Rattle.tup_graph.specs.Edits.{edited, edited_by, with_first, without};

use crate::edit::{Edit, Edits};
use crate::fault::GraphFault;
use crate::nodes::Nodes;
use std::alloc::{AllocError, Global};
use std::mem;
use tup_path::Items;
use tup_record::Record;

impl Nodes {
    /// Makes edits, one after another. After a refusal the graph is of no use.
    pub fn edit_all(&mut self, alloc: Global, edits: Edits) -> Result<(), GraphFault>
        ensures ok { OnOk result (self.new ≡ edited_by self.old edits) }
        ensures err { IfErr result (λ fault. fault ≡ GraphFault.Memory) }
    {
        for edit in edits.into_vec() {
            self.edit(alloc, edit)?;
        }
        Ok(())
    }

    /// Makes an edit.
    fn edit(&mut self, alloc: Global, edit: Edit) -> Result<(), GraphFault>
        ensures ok { OnOk result (self.new ≡ edited self.old edit) }
        ensures err { IfErr result (λ fault. fault ≡ GraphFault.Memory) }
    {
        match edit {
            Edit::Put(found) => self.put(found),
            Edit::Remove(found) => Ok(self.leave_out(alloc, &found)?),
        }
    }

    /// Takes away what stands under the key of a record, and with a rule those behind it. After a refusal the graph is of no use.
    fn leave_out(&mut self, alloc: Global, gone: &Record) -> Result<(), AllocError>
        ensures { OnOk result (self.new ≡ without self.old gone.now) }
    {
        match gone {
            Record::Seen { path, .. } => self.seen.remove(path),
            Record::Reading { dir, .. } => self.readings.remove(dir),
            Record::Rule { number, .. } => self.cut_rules(alloc, *number as usize)?,
            Record::Run { number, .. } => self.runs.remove(number),
            Record::Owned { path, .. } => self.owned.remove(path),
            Record::Create { dir } => self.created.remove(dir),
            Record::Modify { number } => self.flags.remove(number),
        }
        Ok(())
    }

    /// Leaves so many of the first rules. After a refusal the graph is of no use.
    fn cut_rules(&mut self, alloc: Global, count: usize) -> Result<(), AllocError>
        ensures { OnOk result (self.new ≡ with_first self.old count) }
    {
        self.rules.cut(count)?;
        let places = mem::replace(&mut self.places, Items::new(alloc));
        self.places = first(places, count);
        Ok(())
    }
}

/// So many of the first of some values.
pub(crate) fn first<T: Drop>(items: Items<T>, count: usize) -> Items<T>
    ensures { result ≡ take count items }
{
    let mut items = items.into_vec();
    items.truncate(count);
    Items::from_vec(items)
}
