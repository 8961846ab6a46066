//! The graph that the entries of a table stand for.
ghost use Rattle.std.specs.Prelude.{◌≡◌, ◌⊎◌, ℕ, MatchResult, IfErr, IfOk, OnErr, OnOk};
ghost use Rattle.tup_graph.specs.Late.{IsHeld};
ghost use Rattle.tup_graph.specs.Opening.{Takes, IsGraphOf, IsBroken, refusal as refusal_of};
ghost use Rattle.tup_graph.specs.Prints.{HasPrints};
ghost use Rattle.tup_record.specs.declared.record.Record.{Record as RecordValue};

use crate::fault::GraphFault;
use crate::late::Late;
use crate::nodes::Nodes;
use crate::prints::Prints;
use std::alloc::Global;
use tup_path::{Bytes, Items};
use tup_record::{Record, RecordFault, decode};
use tup_table::{Entries, Entry};

/// The graph that the entries of a table stand for, and its prints, in one pass over them. `BadStore` names the gate of the commit that
/// put the first entry, in the byte order of keys, which is no record or doesn't fit behind those before it.
pub fn read_graph(alloc: Global, entries: &Entries) -> Result<(Nodes, Prints), GraphFault>
    ensures nodes { MatchResult result
        (λ read. IsGraphOf entries.now read.0)
        (λ fault. (fault ≡ GraphFault.Memory)
        ⊎ ((offset : ℕ) × (fault ≡ GraphFault.BadStore offset) × IsBroken entries.now offset)) }
    ensures prints { IfOk result (λ read. HasPrints read.0 read.1) }
{
    entries.keys_ascend();
    let mut graph = Nodes::empty(alloc);
    let mut prints = Prints::new(alloc)?;
    let mut late = Items::new(alloc);
    for (key, slot) in entries.iter() {
        if let Some(entry) = slot {
            graph.take(alloc, &mut prints, &mut late, key, entry)?;
        }
    }
    graph.put_late(late)?;
    Ok((graph, prints))
}

impl Nodes {
    /// Takes the record of an entry in, or holds it behind those that are put in last, if it is one that fits. Its prints are
    /// made while it is at hand. After a refusal the graph is of no use.
    fn take(
        &mut self,
        alloc: Global,
        prints: &mut Prints,
        late: &mut Items<Late>,
        key: &Bytes,
        entry: &Entry,
    ) -> Result<(), GraphFault>
        requires { HasPrints self.old prints.old }
        ensures graph { MatchResult result
            (λ _. (r : RecordValue) × Takes self.old (key.now, entry.now) r
            × IsHeld r self.old late.old self.new late.new)
            (λ fault. (fault ≡ GraphFault.Memory)
            ⊎ ((fault ≡ GraphFault.BadStore entry.now.origin)
            × ((r : RecordValue) → Takes self.old (key.now, entry.now) r → ⊥))) }
        ensures prints { OnOk result (HasPrints self.new prints.new) }
    {
        match decode(alloc, key, &entry.value) {
            Ok(found) if self.fits(&found) => self.hold_printed(prints, late, found),
            Ok(_) => Err(GraphFault::BadStore {
                offset: entry.origin,
            }),
            Err(fault) => Err(refusal(fault, entry.origin)),
        }
    }

    /// Takes a record in, or holds it behind those that are put in last, and makes its prints. After a refusal the graph is of
    /// no use.
    fn hold_printed(
        &mut self,
        prints: &mut Prints,
        late: &mut Items<Late>,
        found: Record,
    ) -> Result<(), GraphFault>
        requires { HasPrints self.old prints.old }
        ensures graph { OnOk result (IsHeld found self.old late.old self.new late.new) }
        ensures prints { OnOk result (HasPrints self.new prints.new) }
        ensures err { IfErr result (λ fault. fault ≡ GraphFault.Memory) }
    {
        prints.take_in(self, &found)?;
        self.hold(late, found)
    }
}

/// Why an entry of this origin that doesn't read as a record isn't taken.
fn refusal(fault: RecordFault, origin: u64) -> GraphFault
    ensures { result ≡ refusal_of fault origin }
{
    match fault {
        RecordFault::Memory => GraphFault::Memory,
        _ => GraphFault::BadStore { offset: origin },
    }
}
