//! Numbers beside the prints of paths.
ghost use Rattle.std.specs.Prelude.{◌≡◌, ℕ, true, [], replicate, Contains, IfOk, OnOk};
ghost use Rattle.std.specs.BTreeSet.{contains};
ghost use Rattle.std.specs.List.Sorted.{IsStrictlySortedBy};
ghost use Rattle.std.specs.Ordering.{nat_cmp};
ghost use Rattle.tup_graph.specs.Lists.{Adds, IsIn, IsNamedBy, IsToldBy, StandsBeside, print_of as print_of_names};

use std::alloc::{AllocError, Global};
use std::collections::BTreeSet;
use std::hash::{FoldHasher, Hasher};
use std::marker::Model;
use tup_path::{Items, Path};
use tup_record::RunRecord;
use tup_rule::Rule;

/// How many lists there are.
const LISTS: usize = 256;

/// Numbers beside the prints of paths. A print lies in the list of its last byte. Contracts see the lists.
#[derive(Drop)]
pub(crate) struct PrintLists {
    lists: Vec<Items<(u32, u32)>>,
}

impl Model for PrintLists {
    ghost use Rattle.std.specs.Prelude.{◌≡◌, length};
    ghost use Rattle.tup_graph.specs.Lists.{Lists};

    ghost Value = { Lists };

    ghost view = { λ p. p.lists.items };

    ghost invariant = { λ p. length p.lists.items ≡ 256 };
}

impl PrintLists {
    /// No numbers.
    pub(crate) fn new(alloc: Global) -> Result<PrintLists, AllocError> {
        Ok(PrintLists {
            lists: empty_lists(alloc)?,
        })
    }

    /// Adds the number of a rule beside the prints of the paths that it names.
    pub(crate) fn add_rule(&mut self, number: u32, rule: &Rule) -> Result<(), AllocError>
        ensures { OnOk result (Adds number (IsNamedBy rule.now) self.old self.new) }
    {
        self.add_paths(number, rule.inputs.as_slice())?;
        self.add_paths(number, rule.order.as_slice())?;
        self.add_paths(number, rule.outputs.as_slice())
    }

    /// Adds the number of a rule beside the prints of the paths that the record of its run asks or wrote.
    pub(crate) fn add_run(&mut self, number: u32, run: &RunRecord) -> Result<(), AllocError>
        ensures { OnOk result (Adds number (IsToldBy run.now) self.old self.new) }
    {
        self.add_told(number, run.asks.as_slice())?;
        self.add_told(number, run.writes.as_slice())
    }

    /// The numbers beside a print, in ascending order.
    pub(crate) fn beside(&self, alloc: Global, print: u32) -> Result<Vec<u32>, AllocError>
        ensures all { IfOk result (λ numbers. (number : ℕ)
            → StandsBeside self.now print number → Contains numbers.items number) }
        ensures ascending { IfOk result (λ numbers. IsStrictlySortedBy nat_cmp numbers.items) }
    {
        let list = self.lists[print as usize % LISTS].as_slice();
        listed(alloc, &numbers_in(alloc, list, print)?)
    }

    /// Adds a number beside the prints of some paths.
    fn add_paths(&mut self, number: u32, paths: &[Path]) -> Result<(), AllocError>
        ensures { OnOk result (Adds number (Contains paths.now) self.old self.new) }
    {
        for path in paths {
            self.add(number, path)?;
        }
        Ok(())
    }

    /// Adds a number beside the prints of the paths of which something is told.
    fn add_told<T>(&mut self, number: u32, told: &[(Path, T)]) -> Result<(), AllocError>
        ensures { OnOk result (Adds number (IsIn told.now) self.old self.new) }
    {
        for (path, _) in told {
            self.add(number, path)?;
        }
        Ok(())
    }

    /// Adds a number beside the print of a path.
    fn add(&mut self, number: u32, path: &Path) -> Result<(), AllocError>
        ensures { OnOk result (Adds number (λ other. other ≡ path.now) self.old self.new) }
    {
        let print = print_of(path);
        self.lists[print as usize % LISTS].push((print, number))?;
        Ok(())
    }
}

/// The print of a path: 32 bits of a hash of its names.
pub(crate) fn print_of(path: &Path) -> u32
    ensures { result ≡ print_of_names path.now }
{
    let mut hasher = FoldHasher::default();
    for name in path.names() {
        hasher.write(name.as_bytes());
    }
    (hasher.finish() % 0x1_0000_0000) as u32
}

/// So many empty lists.
fn empty_lists(alloc: Global) -> Result<Vec<Items<(u32, u32)>>, AllocError>
    ensures { IfOk result (λ lists. lists.items ≡ replicate 256 []) }
{
    let mut lists = Vec::with_capacity(alloc, LISTS)?;
    for _ in 0..LISTS {
        lists.push(Items::new(alloc))?;
    }
    Ok(lists)
}

/// The numbers beside a print in a list.
fn numbers_in(alloc: Global, list: &[(u32, u32)], print: u32) -> Result<BTreeSet<u32>, AllocError>
    ensures { IfOk result (λ numbers. (number : ℕ)
        → Contains list.now (print, number) → contains nat_cmp numbers number ≡ true) }
{
    let mut numbers = BTreeSet::new(alloc);
    for (other, number) in list {
        if *other == print {
            numbers.insert(*number)?;
        }
    }
    Ok(numbers)
}

/// The numbers of a set, in ascending order.
fn listed(alloc: Global, numbers: &BTreeSet<u32>) -> Result<Vec<u32>, AllocError>
    ensures list { IfOk result (λ list. list.items ≡ numbers.now.keys) }
    ensures ascending { IfOk result (λ list. IsStrictlySortedBy nat_cmp list.items) }
{
    let mut list = Vec::with_capacity(alloc, numbers.len())?;
    for number in numbers {
        list.push(*number)?;
    }
    Ok(list)
}
