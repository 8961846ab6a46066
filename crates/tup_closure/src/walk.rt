//! The rules that recorded reads lead to.
ghost use Rattle.std.specs.Prelude.{◌≡◌, ◌↔◌, ◌+◌, ◌≤◌, ℕ, List, [], true, if◌then◌else◌, Contains, length, IfOk, IfErr, OnErr, OnOk};
ghost use Rattle.std.specs.List.Sorted.{IsStrictlySortedBy};
ghost use Rattle.std.specs.Ordering.{nat_cmp};
ghost use Rattle.tup_graph.specs.Above.{HasAsked, IsAbove};
ghost use Rattle.tup_graph.specs.Graph.{is_rule, outputs_of as outputs_in};
ghost use Rattle.tup_closure.specs.Readers.{AreRunsOfRules, HasAskedOneOf};
ghost use Rattle.tup_closure.specs.Steps.{HasStepped, HasSteppedAtMost, IsListOf, looks_at, readers_of};
ghost use Rattle.tup_closure.specs.Walk.{GoesTo};

use crate::steps::Steps;
use std::alloc::Global;
use std::collections::BTreeSet;
use std::sync::ledger::Ledger;
use tup_graph::{GraphFault, Nodes};
use tup_path::{Items, Path};
use tup_readers::Indexed;

/// The roots, and the rules that recorded reads lead to from them, over any number of reads, in ascending order: each rule
/// whose record asks an output of one of them, each that asks an output of such a one, and so on.
///
/// It takes a step for each root, however often that is listed, and one for each look at a rule that reads what a rule makes
/// to which it has come: so many as there are pairs of an output of these rules and a reader of it. After a refusal it has
/// taken no more.
pub fn above<L: Ledger>(
    alloc: Global,
    graph: &Indexed,
    roots: &[u32],
    steps: &mut Steps<L>,
) -> Result<Items<u32>, GraphFault>
    requires runs { AreRunsOfRules graph.now }
    requires roots { (root : ℕ) → Contains roots.now root → is_rule graph.now root ≡ true }
    ensures above { IfOk result (λ numbers. (number : ℕ)
        → Contains numbers number ↔ IsAbove graph.now (Contains roots.now) number) }
    ensures ascending { IfOk result (λ numbers. IsStrictlySortedBy nat_cmp numbers) }
    ensures steps { OnOk result
        (HasStepped graph.now (Contains roots.now) steps.old steps.new) }
    ensures fewer { OnErr result
        (HasSteppedAtMost graph.now (Contains roots.now) steps.old steps.new) }
    ensures memory { IfErr result (λ fault. fault ≡ GraphFault.Memory) }
{
    let mut walk = Walk::new(alloc);
    walk.reach_roots(roots, steps)?;
    'rules: while let Some(number) = walk.waiting.pop() {
        walk.visit(alloc, graph, number, steps)?;
    }
    walk.numbers(alloc)
}

/// The rules that a walk has come to, and those among them of which it has yet to look who reads what they make.
#[derive(Drop)]
struct Walk {
    reached: BTreeSet<u32>,
    waiting: Vec<u32>,
}

impl Walk {
    /// It has come to no rule; it takes no memory.
    fn new(alloc: Global) -> Walk
        ensures reached { result.reached.keys ≡ [] }
        ensures waiting { result.waiting.items ≡ [] }
    {
        Walk {
            reached: BTreeSet::new(alloc),
            waiting: Vec::new(alloc),
        }
    }

    /// Comes to some rules, with a step for each that is new.
    fn reach_roots<L: Ledger>(
        &mut self,
        numbers: &[u32],
        steps: &mut Steps<L>,
    ) -> Result<(), GraphFault>
        requires { self.old.reached.keys ≡ [] }
        ensures goes { OnOk result (GoesTo (Contains numbers.now) self.old self.new) }
        ensures steps { OnOk result (steps.new ≡ steps.old + length self.new.reached.keys) }
        ensures fewer { OnErr result ((roots : List ℕ) → IsListOf (Contains numbers.now) roots
            → steps.new ≤ steps.old + length roots) }
        ensures memory { IfErr result (λ fault. fault ≡ GraphFault.Memory) }
    {
        for number in numbers {
            self.reach_root(*number, steps)?;
        }
        Ok(())
    }

    /// Comes to a rule, with a step if it is new.
    fn reach_root<L: Ledger>(&mut self, number: u32, steps: &mut Steps<L>) -> Result<(), GraphFault>
        ensures goes { OnOk result (GoesTo (λ other. other ≡ number) self.old self.new) }
        ensures steps { OnOk result (steps.new + length self.old.reached.keys
            ≡ steps.old + length self.new.reached.keys) }
        ensures fewer { OnErr result (steps.new ≡ steps.old) }
        ensures memory { IfErr result (λ fault. fault ≡ GraphFault.Memory) }
    {
        if !self.reach(number)? {
            return Ok(());
        }
        steps.tick();
        Ok(())
    }

    /// Comes to those who read what a rule makes.
    fn visit<L: Ledger>(
        &mut self,
        alloc: Global,
        graph: &Indexed,
        number: u32,
        steps: &mut Steps<L>,
    ) -> Result<(), GraphFault>
        ensures goes { OnOk result (GoesTo
            (HasAskedOneOf graph.now (outputs_in graph.now number)) self.old self.new) }
        ensures steps { OnOk result (steps.new
            ≡ steps.old + looks_at graph.now (outputs_in graph.now number)) }
        ensures fewer { OnErr result (steps.new
            ≤ steps.old + looks_at graph.now (outputs_in graph.now number)) }
        ensures memory { IfErr result (λ fault. fault ≡ GraphFault.Memory) }
    {
        self.reach_readers(alloc, graph, outputs_of(graph.nodes(), number), steps)
    }

    /// Comes to those who read some paths.
    fn reach_readers<L: Ledger>(
        &mut self,
        alloc: Global,
        graph: &Indexed,
        paths: &[Path],
        steps: &mut Steps<L>,
    ) -> Result<(), GraphFault>
        ensures goes { OnOk result (GoesTo
            (HasAskedOneOf graph.now paths.now) self.old self.new) }
        ensures steps { OnOk result (steps.new ≡ steps.old + looks_at graph.now paths.now) }
        ensures fewer { OnErr result (steps.new ≤ steps.old + looks_at graph.now paths.now) }
        ensures memory { IfErr result (λ fault. fault ≡ GraphFault.Memory) }
    {
        for path in paths {
            self.reach_readers_of(alloc, graph, path, steps)?;
        }
        Ok(())
    }

    /// Comes to those who read a path.
    fn reach_readers_of<L: Ledger>(
        &mut self,
        alloc: Global,
        graph: &Indexed,
        path: &Path,
        steps: &mut Steps<L>,
    ) -> Result<(), GraphFault>
        ensures goes { OnOk result (GoesTo
            (λ number. HasAsked graph.now number path.now) self.old self.new) }
        ensures steps { OnOk result (steps.new
            ≡ steps.old + length (readers_of graph.now path.now)) }
        ensures fewer { OnErr result (steps.new
            ≤ steps.old + length (readers_of graph.now path.now)) }
        ensures memory { IfErr result (λ fault. fault ≡ GraphFault.Memory) }
    {
        let numbers = graph.readers_of(alloc, path)?;
        self.look_at(&numbers, steps)
    }

    /// Comes to some rules, with a step for each.
    fn look_at<L: Ledger>(
        &mut self,
        numbers: &[u32],
        steps: &mut Steps<L>,
    ) -> Result<(), GraphFault>
        ensures goes { OnOk result (GoesTo (Contains numbers.now) self.old self.new) }
        ensures steps { OnOk result (steps.new ≡ steps.old + length numbers.now) }
        ensures fewer { OnErr result (steps.new ≤ steps.old + length numbers.now) }
        ensures memory { IfErr result (λ fault. fault ≡ GraphFault.Memory) }
    {
        for number in numbers {
            steps.tick();
            self.reach(*number)?;
        }
        Ok(())
    }

    /// Comes to a rule, which waits then if it is new; whether it is.
    fn reach(&mut self, number: u32) -> Result<bool, GraphFault>
        ensures goes { OnOk result (GoesTo (λ other. other ≡ number) self.old self.new) }
        ensures fresh { IfOk result (λ is_new. length self.new.reached.keys
            ≡ length self.old.reached.keys + (if is_new then 1 else 0)) }
        ensures memory { IfErr result (λ fault. fault ≡ GraphFault.Memory) }
    {
        if !self.reached.insert(number)? {
            return Ok(false);
        }
        self.waiting.push(number)?;
        Ok(true)
    }

    /// The rules that it has come to, in ascending order.
    fn numbers(&self, alloc: Global) -> Result<Items<u32>, GraphFault>
        ensures numbers { IfOk result (λ numbers. numbers ≡ self.now.reached.keys) }
        ensures ascending { IfOk result (λ numbers. IsStrictlySortedBy nat_cmp numbers) }
        ensures memory { IfErr result (λ fault. fault ≡ GraphFault.Memory) }
    {
        let mut numbers = Items::new(alloc);
        for number in &self.reached {
            numbers.push(*number)?;
        }
        Ok(numbers)
    }
}

/// The outputs of a rule; none where no rule has this number.
fn outputs_of(nodes: &Nodes, number: u32) -> &[Path]
    ensures { result.now ≡ outputs_in nodes.now number }
{
    match nodes.rules().get(number as usize) {
        Some(rule) => rule.outputs.as_slice(),
        None => &[],
    }
}
