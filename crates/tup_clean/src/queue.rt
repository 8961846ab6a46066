//! Which rules are ready, and what the others wait for.
ghost use Rattle.std.specs.Prelude.{◌≡◌, ℕ, Bool, List, false, IfOk, OnOk, Some, [], length, nat_lt, replicate};
ghost use Rattle.tup_rule.specs.declared.rule.Rule.{Rule as RuleValue};
ghost use Rattle.tup_clean.specs.Clean.{is_good as is_good_verdict};
ghost use Rattle.tup_clean.specs.Readers.{AreReaders};
ghost use Rattle.tup_clean.specs.Queue.{IsQueue, IsWhole, IsNext, CanRelease, AreWaiting, IsReleased, AreBelow, IsNoted, Takes, Adds, Notes};

use std::alloc::{AllocError, Global};
use std::collections::BTreeSet;
use tup_access::Verdict;
use tup_path::Items;
use tup_rule::{Makers, Rule, makers, producers_of};

/// The rules of a build that were not taken yet, with what they wait for.
#[derive(Drop)]
pub struct Queue {
    /// For each rule, how many makers of what it declares aren't Good, one counted as often as it is declared.
    waits: Vec<usize>,
    /// For each rule, the rules that declare what it makes, one as often as it declares such a path.
    readers: Vec<Items<usize>>,
    /// The rules that wait for none and were not taken.
    ready: BTreeSet<usize>,
}

impl Queue {
    /// The queue of all rules, none of them Good.
    pub fn new(alloc: Global, rules: &[Rule]) -> Result<Queue, AllocError>
        ensures { IfOk result (IsWhole rules.now) }
    {
        let makers = makers(alloc, rules)?;
        let mut queue = Queue {
            waits: Vec::new(alloc),
            readers: no_readers(alloc, rules.len())?,
            ready: BTreeSet::new(alloc),
        };
        for rule in rules {
            queue.add(alloc, &makers, rule)?;
        }
        Ok(queue)
    }

    /// Adds the next rule.
    fn add(&mut self, alloc: Global, makers: &Makers, rule: &Rule) -> Result<(), AllocError>
        requires { Takes makers.now rule.now self.old }
        ensures { OnOk result (Adds makers.now rule.now self.old self.new) }
    {
        let at = self.waits.len();
        let producers = producers_of(alloc, makers, rule)?;
        note_reader(&mut self.readers, &producers, at)?;
        if producers.is_empty() {
            self.ready.insert(at)?;
        }
        self.waits.push(producers.len())?;
        Ok(())
    }

    /// Takes the first rule that is ready; it takes no memory.
    pub fn next(&mut self) -> Option<usize>
        ensures { (rules : List RuleValue) (left good : ℕ → Bool) → IsQueue rules left good self.old
            → IsNext rules left good result self.new }
    {
        self.ready.pop_first()
    }

    /// Notes the verdict of a rule: where it is Good, its readers wait for it no longer.
    pub fn note(&mut self, at: usize, verdict: &Verdict) -> Result<(), AllocError>
        requires { CanRelease at self.old }
        ensures { OnOk result (Notes at (is_good_verdict (Some verdict.now)) self.old self.new) }
    {
        if is_good(verdict) {
            release(
                self.readers[at].as_slice(),
                &mut self.waits,
                &mut self.ready,
            )?;
        }
        Ok(())
    }
}

/// For each rule, the rules that declare what it makes, one as often as it declares such a path.
pub fn readers(alloc: Global, rules: &[Rule]) -> Result<Vec<Items<usize>>, AllocError>
    ensures { IfOk result (λ readers. AreReaders rules.now readers.items) }
{
    Ok(Queue::new(alloc, rules)?.readers)
}

fn is_good(verdict: &Verdict) -> bool
    ensures { result ≡ is_good_verdict (Some verdict.now) }
{
    matches!(verdict, Verdict::Good)
}

/// An empty list for each rule.
fn no_readers(alloc: Global, count: usize) -> Result<Vec<Items<usize>>, AllocError>
    ensures { IfOk result (λ readers. readers.items ≡ replicate count []) }
{
    let mut readers = Vec::new(alloc);
    for _ in 0..count {
        readers.push(Items::new(alloc))?;
    }
    Ok(readers)
}

/// Notes a rule with each of its producers.
fn note_reader(
    readers: &mut [Items<usize>],
    producers: &[usize],
    reader: usize,
) -> Result<(), AllocError>
    requires { AreBelow producers.now (length readers.old) }
    ensures { OnOk result (IsNoted reader producers.now readers.old readers.new) }
{
    for producer in producers {
        readers[*producer].push(reader)?;
    }
    Ok(())
}

/// Lets each of these wait for one less. One that waits for none then is ready.
fn release(
    readers: &[usize],
    waits: &mut [usize],
    ready: &mut BTreeSet<usize>,
) -> Result<(), AllocError>
    requires { AreWaiting readers.now waits.old }
    ensures { OnOk result (IsReleased readers.now waits.old waits.new ready.old ready.new) }
{
    for reader in readers {
        waits[*reader] -= 1;
        if waits[*reader] == 0 {
            ready.insert(*reader)?;
        }
    }
    Ok(())
}
