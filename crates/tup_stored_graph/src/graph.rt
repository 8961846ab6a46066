//! A graph over the store of a site.
ghost use Rattle.std.specs.Prelude.{◌≡◌, ◌≢◌, ◌⊎◌, ◌↔◌, ◌++◌, ◌∷◌, ℕ, [], All, Contains, IsTrue, IfOk, IfErr, OnOk, Err};
ghost use Rattle.std.specs.List.Sorted.{IsStrictlySortedBy};
ghost use Rattle.std.specs.Ordering.{nat_cmp};
ghost use Rattle.tup_path.specs.Name.{Names};
ghost use Rattle.tup_path.specs.Order.{by_names};
ghost use Rattle.tup_path.specs.Gives.{GivesUnless};
ghost use Rattle.tup_site.specs.Crash.{GoesOn, WriteStep};
ghost use Rattle.tup_site.specs.World.{TreeStays};
ghost use Rattle.tup_table.specs.Entries.{IsAscending};
ghost use Rattle.tup_table.specs.Images.{OpenStep};
ghost use Rattle.tup_table.specs.Store.{header};
ghost use Rattle.tup_table.specs.Table.{entries_in, IsSparse};
ghost use Rattle.tup_graph.specs.Above.{HasAsked};
ghost use Rattle.tup_graph.specs.Changes.{once_made};
ghost use Rattle.tup_graph.specs.Edits.{edited_by, HasSpelling};
ghost use Rattle.tup_graph.specs.Graph.{empty_graph};
ghost use Rattle.tup_graph.specs.Opening.{IsGraphOf};
ghost use Rattle.tup_readers.specs.Index.{HasQuestioned};
ghost use Rattle.tup_stored_graph.specs.Cause.{CountsFaults, OnlyOutside};
ghost use Rattle.tup_stored_graph.specs.Crash.{LeavesEither};
ghost use Rattle.tup_stored_graph.specs.Held.{is_fresh, StandsFor};
ghost use Rattle.tup_stored_graph.specs.Opening.{OpensAs};
ghost use Rattle.tup_stored_graph.specs.Transaction.{Leaves, IsFull};

use std::alloc::Global;
use std::marker::Model;
use tup_graph::{Edits, GraphFault, Nodes, changes, read_graph};
use tup_path::Path;
use tup_readers::Indexed;
use tup_rule::Question;
use tup_site::Site;
use tup_table::Table;

/// What a store keeps of a project, in memory. Contracts see the table, the nodes, and whether
/// these are whole.
///
/// A fresh graph stands for the bytes of its store, and a crash leaves just these. After a failure
/// of the site, and after want of memory once something was written, it isn't fresh: its store is
/// opened again.
#[derive(Drop)]
pub struct Graph {
    pub(crate) table: Table,
    pub(crate) nodes: Indexed,
    /// Whether the nodes have all that the table has.
    whole: bool,
}

impl Model for Graph {
    ghost use Rattle.tup_stored_graph.specs.Held.{Held, IsSound, held_code};

    ghost Value = { Held };

    ghost coded = { held_code };

    ghost view = { λ g. record { table = g.table; nodes = g.nodes; whole = g.whole } };

    ghost invariant = { λ g.
        IsSound (record { table = g.table; nodes = g.nodes; whole = g.whole }) };
}

impl Graph {
    /// Makes a store of the empty graph where there is none, durably. A refusal, or a crash before
    /// the end, may leave any bytes.
    pub fn make<S: Site>(alloc: Global, site: &mut S) -> Result<Graph, GraphFault>
        requires { IsTrue S.tells → (S.world site.old).store ≡ [] }

        ensures made { IfOk result (λ graph. IsTrue (is_fresh graph)
            × (entries_in graph.table ≡ []) × (graph.nodes ≡ empty_graph)) }
        ensures stands { IsTrue S.tells
            → IfOk result (λ graph. StandsFor S.world S.moment S.left_since graph site.new) }
        ensures store { IsTrue S.tells → OnOk result ((S.world site.new).store ≡ header ++ 0 ∷ []) }

        // What it changes meanwhile, and what a crash may leave then: the first bytes of the store.
        ensures tree { IsTrue S.tells → TreeStays (S.world site.old) (S.world site.new) }
        ensures crash { IsTrue S.tells
            → GoesOn S.moment S.left_since site.old site.new (WriteStep 0 18) }
        ensures known { IsTrue S.tells → S.known site.new ≡ S.known site.old }

        ensures outside { OnlyOutside result }
        ensures cause { CountsFaults (S.faults site.old) (S.faults site.new) result }
    {
        let table = Table::make(alloc, site)?;
        let nodes = Indexed::empty(alloc)?;
        Ok(Graph {
            table,
            nodes,
            whole: true,
        })
    }

    /// Opens the store of a site: the graph that it stands for is what a crash leaves from then on.
    /// A gate that is missing at the end of the store, or stands open there with nothing behind it,
    /// is written closed; where compacting was stopped, it is finished; and nothing else is written.
    ///
    /// `BadStore` names the first commit that doesn't read, or else the one that put the first
    /// record, in the byte order of keys, which isn't one or doesn't fit.
    pub fn open<S: Site>(alloc: Global, site: &mut S) -> Result<Graph, GraphFault>
        // The graph, `NotThere` and `BadStore` are by the bytes alone.
        ensures opens { IsTrue S.tells
            → OpensAs (S.world site.old).store (S.world site.new).store result }
        ensures graph { IfOk result (λ graph. IsTrue (is_fresh graph)
            × IsGraphOf (entries_in graph.table) graph.nodes) }
        ensures stands { IsTrue S.tells
            → IfOk result (λ graph. StandsFor S.world S.moment S.left_since graph site.new) }
        // Whatever it answers, all is as it was, or the store has the same entries, and nothing but
        // a closed gate that its end lacks was written, one byte, whichever, where that failed; and
        // what finishes compacting.
        ensures keeps { IsTrue S.tells → (S.world site.new ≡ S.world site.old)
            ⊎ OpenStep (S.world site.old) (S.world site.new) }

        // What it changes meanwhile, and what a crash may leave then: the same entries.
        ensures tree { IsTrue S.tells → TreeStays (S.world site.old) (S.world site.new) }
        ensures crash { IsTrue S.tells → GoesOn S.moment S.left_since site.old site.new OpenStep }
        ensures known { IsTrue S.tells → S.known site.new ≡ S.known site.old }

        ensures never_full { result ≢ Err GraphFault.Full }
        ensures cause { CountsFaults (S.faults site.old) (S.faults site.new) result }
    {
        let table = Table::open(alloc, site)?;
        let (nodes, prints) = read_graph(alloc, table.entries())?;
        let indexed = Indexed::of(alloc, nodes, prints)?;
        Ok(Graph {
            table,
            nodes: indexed,
            whole: true,
        })
    }

    /// The nodes: while the graph is fresh, those that its store stands for.
    pub fn nodes(&self) -> &Nodes
        ensures value { result.now ≡ self.now.nodes }
        ensures graph { IsTrue (is_fresh self.now)
            → IsGraphOf (entries_in self.now.table) result.now }
    {
        self.nodes.nodes()
    }

    /// The same nodes, with what leads back from a path to those that use it.
    pub fn indexed(&self) -> &Indexed
        ensures value { result.now ≡ self.now.nodes }
        ensures graph { IsTrue (is_fresh self.now)
            → IsGraphOf (entries_in self.now.table) result.now }
    {
        &self.nodes
    }

    /// The rules whose records ask a path, in ascending order.
    pub fn readers_of(&self, alloc: Global, path: &Path) -> Result<Vec<u32>, GraphFault>
        ensures readers { IfOk result (λ numbers. (number : ℕ)
            → Contains numbers.items number ↔ HasAsked self.now.nodes number path.now) }
        ensures ascending { IfOk result (λ numbers. IsStrictlySortedBy nat_cmp numbers.items) }
        ensures memory { IfErr result (λ fault. fault ≡ GraphFault.Memory) }
    {
        self.nodes.readers_of(alloc, path)
    }

    /// The folders whose readings asked a question, in the order of paths.
    pub fn asked_by(&self, alloc: Global, question: &Question) -> Result<Vec<Path>, GraphFault>
        ensures folders { IfOk result (λ dirs. (dir : Names)
            → Contains dirs.items dir ↔ HasQuestioned self.now.nodes dir question.now) }
        ensures ascending { IfOk result (λ dirs. IsStrictlySortedBy by_names dirs.items) }
        ensures memory { IfErr result (λ fault. fault ≡ GraphFault.Memory) }
    {
        self.nodes.asked_by(alloc, question)
    }

    /// Whether the graph stands for its store.
    pub fn fresh(&self) -> bool
        ensures { result ≡ is_fresh self.now }
    {
        self.whole && self.table.fresh()
    }

    /// Makes edits that the store can take, in one commit of what they change; where they change
    /// nothing, nothing is written.
    pub fn commit_edits<S: Site>(
        &mut self,
        alloc: Global,
        site: &mut S,
        edits: Edits,
    ) -> Result<(), GraphFault>
        requires fresh { IsTrue (is_fresh self.old) }
        requires stands { IsTrue S.tells
            → StandsFor S.world S.moment S.left_since self.old site.old }
        requires read { (origin : ℕ) → IsAscending (entries_in self.old.table)
            → IsGraphOf (entries_in self.old.table) self.old.nodes → All HasSpelling edits
            → IsGraphOf (once_made origin (entries_in self.old.table) edits)
            (edited_by self.old.nodes edits) }

        ensures leaves { Leaves edits (edited_by self.old.nodes edits)
            self.old self.new site.old site.new result }
        ensures full { IsFull self.old edits
            → GivesUnless result GraphFault.Memory (Err GraphFault.Full) }
        ensures stands { IsTrue S.tells → IsTrue (is_fresh self.new)
            → StandsFor S.world S.moment S.left_since self.new site.new }
        ensures tree { IsTrue S.tells → TreeStays (S.world site.old) (S.world site.new) }
        ensures crash { IsTrue S.tells → LeavesEither S.moment S.left_since site.old site.new
            self.old.nodes (edited_by self.old.nodes edits) }
        ensures known { IsTrue S.tells → S.known site.new ≡ S.known site.old }
        ensures cause { CountsFaults (S.faults site.old) (S.faults site.new) result }
    {
        self.table.entries().keys_ascend();
        let changes = changes(alloc, self.table.entries(), &edits)?;
        if changes.is_empty() {
            return Ok(());
        }
        self.table.commit(alloc, site, &changes)?;
        self.whole = false;
        self.nodes.edit_all(alloc, edits)?;
        self.whole = true;
        Ok(())
    }

    /// Whether compacting a store of this many bytes is worth it: it has more than 1,048,576, and
    /// more than four times as many as are live.
    pub fn is_sparse(&self, len: u64) -> bool
        ensures { IsTrue result ↔ IsSparse self.now.table len }
    {
        self.table.is_sparse(len)
    }

    /// Makes the store one commit of all records, and cuts off what was replaced or deleted. The
    /// nodes stay, and from the first moment of the call on a crash leaves the same graph.
    pub fn compact<S: Site>(&mut self, alloc: Global, site: &mut S) -> Result<(), GraphFault>
        requires fresh { IsTrue (is_fresh self.old) }
        requires stands { IsTrue S.tells
            → StandsFor S.world S.moment S.left_since self.old site.old }
        ensures nodes { self.new.nodes ≡ self.old.nodes }
        ensures fresh { OnOk result (IsTrue (is_fresh self.new)) }
        ensures stands { IsTrue S.tells → IsTrue (is_fresh self.new)
            → StandsFor S.world S.moment S.left_since self.new site.new }
        ensures tree { IsTrue S.tells → TreeStays (S.world site.old) (S.world site.new) }
        ensures crash { IsTrue S.tells → LeavesEither S.moment S.left_since site.old site.new
            self.old.nodes self.old.nodes }
        ensures known { IsTrue S.tells → S.known site.new ≡ S.known site.old }
        ensures outside { OnlyOutside result }
        ensures cause { CountsFaults (S.faults site.old) (S.faults site.new) result }
    {
        self.table.entries().keys_ascend();
        self.table.compact(alloc, site)?;
        Ok(())
    }
}
