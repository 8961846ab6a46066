//! What is new, as a row says it.
ghost use Rattle.std.specs.Prelude.{◌≡◌, ◌↔◌, IsTrue, map};
ghost use Rattle.std.specs.List.{IsDistinct};
ghost use Rattle.std.specs.declared.cmp.Ordering.TheVariants.{Greater};
ghost use Rattle.tup_path.specs.Order.{by_names, same_path};
ghost use Rattle.tup_rule_diff.specs.Edits.{dir_of};
ghost use Rattle.tup_rule_diff.specs.Order.{AreByFolder};

use crate::record::record_of;
use std::alloc::Global;
use std::cmp::Ordering;
use tup_path::Items;
use tup_record::Record;
use tup_rows::{RowFault, Words};
use tup_rule::{Rule, Rules};
use tup_rule_diff::Refreshed;

/// The readings and rules that pairs of words spell as records; a Create record stands for a folder that is gone.
pub fn news(alloc: Global, said: &Words, pairs: &[Vec<u8>]) -> (Refreshed, Rules) {
    let mut fresh = Refreshed {
        readings: Items::new(alloc),
        gone: Items::new(alloc),
    };
    let mut rules = Items::new(alloc);
    for pair in pairs.chunks(2) {
        take(alloc, said, &mut fresh, &mut rules, pair);
    }
    (fresh, rules)
}

/// Whether there is one reading at most.
pub fn is_one(fresh: &Refreshed) -> bool
    ensures { IsTrue result → IsDistinct same_path (map dir_of fresh.now.readings) }
{
    fresh.readings.len() < 2
}

/// Whether rules are in the order of their folders.
pub fn are_by_folder(rules: &[Rule]) -> bool
    ensures { IsTrue result → AreByFolder rules.now }
{
    for at in 1..rules.len() {
        if is_behind(&rules[at - 1], &rules[at]) {
            return false;
        }
    }
    true
}

/// Whether the folder of a rule comes behind that of another.
fn is_behind(rule: &Rule, other: &Rule) -> bool
    ensures { IsTrue result ↔ (by_names rule.now.dir other.now.dir ≡ Greater) }
{
    match rule.dir.cmp(&other.dir) {
        Ordering::Greater => true,
        _ => false,
    }
}

fn take(alloc: Global, said: &Words, fresh: &mut Refreshed, rules: &mut Rules, pair: &[Vec<u8>]) {
    match record(alloc, said, pair) {
        Some(Record::Reading { dir, reading }) => said.list(&mut fresh.readings, (dir, reading)),
        Some(Record::Create { dir }) => said.list(&mut fresh.gone, dir),
        Some(Record::Rule { rule, .. }) => said.list(rules, rule),
        other => {
            said.fail(RowFault::OtherKind);
            drop(other);
        }
    }
}

fn record(alloc: Global, said: &Words, pair: &[Vec<u8>]) -> Option<Record> {
    match pair {
        [key, value] => record_of(alloc, said, key, value),
        _ => None,
    }
}
