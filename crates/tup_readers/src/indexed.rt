//! A graph in memory that knows who asked what.
ghost use Rattle.std.specs.Prelude.{◌≡◌, ◌↔◌, ℕ, Contains, IfErr, IfOk, OnErr, OnOk};
ghost use Rattle.std.specs.List.Sorted.{IsStrictlySortedBy};
ghost use Rattle.std.specs.Ordering.{nat_cmp};
ghost use Rattle.tup_graph.specs.Above.{HasAsked};
ghost use Rattle.tup_graph.specs.Edits.{edited, edited_by};
ghost use Rattle.tup_graph.specs.Graph.{empty_graph};
ghost use Rattle.tup_graph.specs.Prints.{HasPrints};
ghost use Rattle.tup_readers.specs.Index.{HasNamed, HasQuestioned, HasWritten};
ghost use Rattle.tup_readers.specs.Suspects.{AreSuspects, HasAllOthers};
ghost use Rattle.tup_path.specs.Name.{Names};
ghost use Rattle.tup_path.specs.Order.{by_names};

use crate::askers::find_askers;
use crate::suspects::Suspects;
use crate::users::{Way, users_among};
use std::alloc::Global;
use std::collections::BTreeSet;
use std::marker::Model;
use std::mem;
use tup_graph::{Edit, Edits, GraphFault, Nodes, Prints};
use tup_path::{Items, Path};
use tup_rule::Question;

/// The nodes of a graph, with prints of the paths that its rules and their records name, and with the rules whose records may
/// no longer tell what is seen. Contracts see the nodes; the rest is always what their rules and records give.
#[derive(Drop)]
pub struct Indexed {
    nodes: Nodes,
    prints: Prints,
    suspects: Suspects,
}

impl Model for Indexed {
    ghost use Rattle.tup_graph.specs.Graph.{GraphState};
    ghost use Rattle.tup_graph.specs.Prints.{HasPrints};
    ghost use Rattle.tup_graph.specs.contracts.nodes.Nodes as of_nodes;
    ghost use Rattle.tup_readers.specs.Suspects.{AreSuspects};

    ghost Value = { GraphState };

    ghost coded = { of_nodes.the_row.coded };

    ghost view = { λ i. i.nodes };

    ghost invariant = { λ i. HasPrints i.nodes i.prints
        × AreSuspects i.nodes.seen i.nodes.runs i.suspects };
}

impl Indexed {
    /// The graph of a new store.
    pub fn empty(alloc: Global) -> Result<Indexed, GraphFault>
        ensures nodes { IfOk result (λ indexed. indexed ≡ empty_graph) }
        ensures memory { IfErr result (λ fault. fault ≡ GraphFault.Memory) }
    {
        let prints = Prints::new(alloc)?;
        Ok(Indexed {
            nodes: Nodes::empty(alloc),
            prints,
            suspects: Suspects::new(alloc),
        })
    }

    /// A graph with the prints of its paths. It takes one pass over the records, for the rules that may no longer tell what is
    /// seen.
    pub fn of(alloc: Global, nodes: Nodes, prints: Prints) -> Result<Indexed, GraphFault>
        requires { HasPrints nodes prints }
        ensures nodes { IfOk result (λ indexed. indexed ≡ nodes) }
        ensures memory { IfErr result (λ fault. fault ≡ GraphFault.Memory) }
    {
        let suspects = Suspects::of_nodes(alloc, &nodes)?;
        Ok(Indexed {
            nodes,
            prints,
            suspects,
        })
    }

    /// The nodes.
    pub fn nodes(&self) -> &Nodes
        ensures { result.now ≡ self.now }
    {
        &self.nodes
    }

    /// Rules whose records may tell other stamps than those that are seen; all that do are among them.
    pub fn suspects(&self) -> &BTreeSet<u32>
        ensures { HasAllOthers self.now.seen self.now.runs result.now }
    {
        &self.suspects.numbers
    }

    /// The rules whose records ask a path, in ascending order. It looks into the records beside the print of the path.
    pub fn readers_of(&self, alloc: Global, path: &Path) -> Result<Vec<u32>, GraphFault>
        ensures readers { IfOk result (λ numbers. (number : ℕ)
            → Contains numbers.items number ↔ HasAsked self.now number path.now) }
        ensures ascending { IfOk result (λ numbers. IsStrictlySortedBy nat_cmp numbers.items) }
        ensures memory { IfErr result (λ fault. fault ≡ GraphFault.Memory) }
    {
        let near = self.prints.users(alloc, path)?;
        Ok(users_among(alloc, &self.nodes, &near, path, Way::Asks)?)
    }

    /// The rules whose records wrote a path, in ascending order. It looks into the records beside the print of the path.
    pub fn writers_of(&self, alloc: Global, path: &Path) -> Result<Vec<u32>, GraphFault>
        ensures writers { IfOk result (λ numbers. (number : ℕ)
            → Contains numbers.items number ↔ HasWritten self.now number path.now) }
        ensures ascending { IfOk result (λ numbers. IsStrictlySortedBy nat_cmp numbers.items) }
        ensures memory { IfErr result (λ fault. fault ≡ GraphFault.Memory) }
    {
        let near = self.prints.users(alloc, path)?;
        Ok(users_among(alloc, &self.nodes, &near, path, Way::Writes)?)
    }

    /// The rules that declare a path or make it, in ascending order. It looks into the rules beside the print of the path.
    pub fn namers_of(&self, alloc: Global, path: &Path) -> Result<Vec<u32>, GraphFault>
        ensures namers { IfOk result (λ numbers. (number : ℕ)
            → Contains numbers.items number ↔ HasNamed self.now number path.now) }
        ensures ascending { IfOk result (λ numbers. IsStrictlySortedBy nat_cmp numbers.items) }
        ensures memory { IfErr result (λ fault. fault ≡ GraphFault.Memory) }
    {
        let near = self.prints.namers(alloc, path)?;
        Ok(users_among(alloc, &self.nodes, &near, path, Way::Names)?)
    }

    /// Rules in ascending order. Those that declare a path or make it are among them; none is looked into.
    pub fn near_namers_of(&self, alloc: Global, path: &Path) -> Result<Vec<u32>, GraphFault>
        ensures namers { IfOk result (λ numbers. (number : ℕ)
            → HasNamed self.now number path.now → Contains numbers.items number) }
        ensures ascending { IfOk result (λ numbers. IsStrictlySortedBy nat_cmp numbers.items) }
        ensures memory { IfErr result (λ fault. fault ≡ GraphFault.Memory) }
    {
        let near = self.prints.namers(alloc, path)?;
        Ok(near)
    }

    /// The folders whose readings asked a question, in the order of paths. It goes through all readings.
    pub fn asked_by(&self, alloc: Global, question: &Question) -> Result<Vec<Path>, GraphFault>
        ensures folders { IfOk result (λ dirs. (dir : Names)
            → Contains dirs.items dir ↔ HasQuestioned self.now dir question.now) }
        ensures ascending { IfOk result (λ dirs. IsStrictlySortedBy by_names dirs.items) }
        ensures memory { IfErr result (λ fault. fault ≡ GraphFault.Memory) }
    {
        Ok(find_askers(alloc, &self.nodes, question)?)
    }

    /// Makes edits, one after another, and shares the rules after the last one. So rules are copied once at most, for the first
    /// edit of a rule. After a refusal it is the graph of a new store.
    pub fn edit_all(&mut self, alloc: Global, edits: Edits) -> Result<(), GraphFault>
        ensures ok { OnOk result (self.new ≡ edited_by self.old edits) }
        ensures err { OnErr result (self.new ≡ empty_graph) }
        ensures memory { IfErr result (λ fault. fault ≡ GraphFault.Memory) }
    {
        let before = mem::replace(&mut self.nodes, Nodes::empty(alloc));
        let after = take_all_in(alloc, before, &mut self.prints, &mut self.suspects, edits)?;
        self.nodes = after;
        Ok(())
    }
}

/// What edits leave of a graph, one after another, with rules that plans share.
fn take_all_in(
    alloc: Global,
    before: Nodes,
    prints: &mut Prints,
    suspects: &mut Suspects,
    edits: Edits,
) -> Result<Nodes, GraphFault>
    requires prints { HasPrints before prints.old }
    requires suspects { AreSuspects before.seen before.runs suspects.old }
    ensures nodes { IfOk result (λ nodes. nodes ≡ edited_by before edits) }
    ensures prints { IfOk result (λ nodes. HasPrints nodes prints.new) }
    ensures suspects { IfOk result (λ nodes. AreSuspects nodes.seen nodes.runs suspects.new) }
    ensures memory { IfErr result (λ fault. fault ≡ GraphFault.Memory) }
{
    let mut nodes = before;
    for edit in edits.into_vec() {
        take_in(alloc, &mut nodes, prints, suspects, edit)?;
    }
    nodes.share_rules()?;
    Ok(nodes)
}

/// Makes an edit. After a refusal all is of no use.
fn take_in(
    alloc: Global,
    nodes: &mut Nodes,
    prints: &mut Prints,
    suspects: &mut Suspects,
    edit: Edit,
) -> Result<(), GraphFault>
    requires prints { HasPrints nodes.old prints.old }
    requires suspects { AreSuspects nodes.old.seen nodes.old.runs suspects.old }
    ensures nodes { OnOk result (nodes.new ≡ edited nodes.old edit) }
    ensures prints { OnOk result (HasPrints nodes.new prints.new) }
    ensures suspects { OnOk result (AreSuspects nodes.new.seen nodes.new.runs suspects.new) }
    ensures memory { IfErr result (λ fault. fault ≡ GraphFault.Memory) }
{
    suspects.edit(alloc, nodes, prints, &edit)?;
    prints.edit(nodes, &edit)?;
    let mut edits = Items::new(alloc);
    edits.push(edit)?;
    nodes.edit_all(alloc, edits)?;
    Ok(())
}
