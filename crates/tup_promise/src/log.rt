//! What an update did.
ghost use Rattle.tup_promise.specs.Unopened.{IsEmptyLog};

use std::alloc::Global;
use tup_access::Verdict;
use tup_path::{Items, Paths, Text};
use tup_rule::RuleName;

/// What an update did, in the order in which it did it.
#[derive(Drop)]
pub struct Log {
    /// The folders whose Tupfile was read.
    pub read: Paths,
    /// The files that no rule makes any more and that were removed.
    pub removed: Paths,
    /// The rules that were begun.
    pub ran: Items<RuleName>,
    /// Those of them whose command came to a verdict.
    pub ended: Items<EndedRule>,
    /// How these begins and ends follow each other, an end that `ended` leaves out for want of memory included.
    pub steps: Items<Step>,
}

/// What was next, of all that a log says of its rules.
#[derive(Clone, Copy)]
pub enum Step {
    /// The next rule of `ran` was begun.
    Begin,
    /// The command of the next rule of `ended` came to its verdict.
    End,
}

/// A rule whose command came to a verdict.
#[derive(Drop)]
pub struct EndedRule {
    pub rule: RuleName,
    /// What is printed for it.
    pub label: Text,
    pub verdict: Verdict,
}

impl Log {
    /// The log of an update that did nothing yet. It takes no memory.
    pub fn new(alloc: Global) -> Log
        ensures { IsEmptyLog result }
    {
        Log {
            read: Paths::new(alloc),
            removed: Paths::new(alloc),
            ran: Items::new(alloc),
            ended: Items::new(alloc),
            steps: Items::new(alloc),
        }
    }
}
