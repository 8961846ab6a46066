//! Which rules may name a path, and whose records may tell of it.
ghost use Rattle.std.specs.Prelude.{◌≡◌, ℕ, length, Contains, IfOk, OnOk};
ghost use Rattle.std.specs.List.Sorted.{IsStrictlySortedBy};
ghost use Rattle.std.specs.Ordering.{nat_cmp};
ghost use Rattle.tup_graph.specs.Edits.{edited};
ghost use Rattle.tup_graph.specs.Graph.{empty_graph};
ghost use Rattle.tup_graph.specs.Lists.{StandsBeside, print_of as print_of_names};
ghost use Rattle.tup_graph.specs.Opening.{put as put_of};
ghost use Rattle.tup_graph.specs.Prints.{HasPrints};

use crate::edit::Edit;
use crate::nodes::Nodes;
use crate::print_lists::{PrintLists, print_of};
use std::alloc::{AllocError, Global};
use tup_path::Path;
use tup_record::Record;

/// For the print of each path the rules that may name the path, and those whose records may tell of it. A print is a number
/// that is made of the path. So who uses a path is found without a pass over all rules: it is among those beside the print.
#[derive(Drop)]
pub struct Prints {
    /// The rules that declare or write a path.
    pub(crate) named: PrintLists,
    /// The rules whose records ask or wrote a path.
    pub(crate) recorded: PrintLists,
}

impl Prints {
    /// The prints of the graph of a new store.
    pub fn new(alloc: Global) -> Result<Prints, AllocError>
        ensures { IfOk result (HasPrints empty_graph) }
    {
        Ok(Prints {
            named: PrintLists::new(alloc)?,
            recorded: PrintLists::new(alloc)?,
        })
    }

    /// Takes in what an edit does to a graph, which is given as it is before. Nothing is taken away. After a refusal there may
    /// be more than there was.
    pub fn edit(&mut self, nodes: &Nodes, edit: &Edit) -> Result<(), AllocError>
        requires { HasPrints nodes.now self.old }
        ensures { OnOk result (HasPrints (edited nodes.now edit.now) self.new) }
    {
        match edit {
            Edit::Put(found) => self.take_in(nodes, found),
            Edit::Remove(_) => Ok(()),
        }
    }

    /// Numbers of rules, in ascending order. Those that declare or write a path are among them.
    pub fn namers(&self, alloc: Global, path: &Path) -> Result<Vec<u32>, AllocError>
        ensures namers { IfOk result (λ numbers. (number : ℕ)
            → StandsBeside self.now.named (print_of_names path.now) number
            → Contains numbers.items number) }
        ensures ascending { IfOk result (λ numbers. IsStrictlySortedBy nat_cmp numbers.items) }
    {
        self.named.beside(alloc, print_of(path))
    }

    /// Numbers of rules, in ascending order. Those whose records ask or wrote a path are among them.
    pub fn users(&self, alloc: Global, path: &Path) -> Result<Vec<u32>, AllocError>
        ensures users { IfOk result (λ numbers. (number : ℕ)
            → StandsBeside self.now.recorded (print_of_names path.now) number
            → Contains numbers.items number) }
        ensures ascending { IfOk result (λ numbers. IsStrictlySortedBy nat_cmp numbers.items) }
    {
        self.recorded.beside(alloc, print_of(path))
    }

    /// Takes in that a graph, which is given as it is before, takes a record.
    pub(crate) fn take_in(&mut self, nodes: &Nodes, found: &Record) -> Result<(), AllocError>
        requires { HasPrints nodes.now self.old }
        ensures { OnOk result (HasPrints (put_of nodes.now found.now) self.new) }
    {
        match found {
            Record::Rule { rule, .. } => self.named.add_rule(next_number(nodes)?, rule),
            Record::Run { number, run } => self.recorded.add_run(*number, run),
            _ => Ok(()),
        }
    }
}

/// The number of the next rule. There is no memory for so many that it wouldn't be one of 32 bits.
fn next_number(nodes: &Nodes) -> Result<u32, AllocError>
    ensures { IfOk result (λ number. number ≡ length nodes.now.rules) }
{
    match u32::try_from(nodes.rules().len()) {
        Ok(number) => Ok(number),
        Err(_) => Err(AllocError),
    }
}
