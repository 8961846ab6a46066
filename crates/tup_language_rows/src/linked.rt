//! Rules as words.
use std::alloc::Global;
use tup_link::{RuleNames, What};
use tup_project::ProjectFault;
use tup_rows::Words;
use tup_rule::{GroupRef, Rule, Rules};

/// The rules, one after another, or why there are none.
pub(crate) fn linked(alloc: Global, found: &Result<Rules, ProjectFault>) -> Words {
    match found {
        Ok(rules) => all(alloc, rules.as_slice()),
        Err(fault) => refused(alloc, fault),
    }
}

/// Each rule with its folder, its command and its files.
fn all(alloc: Global, rules: &[Rule]) -> Words {
    let mut words = Words::new(alloc);
    for rule in rules {
        add_rule(alloc, &mut words, rule);
    }
    words
}

/// Adds a rule.
fn add_rule(alloc: Global, words: &mut Words, rule: &Rule) {
    words.put(alloc, b"rule");
    words.show(alloc, &rule.dir);
    words.show(alloc, &rule.text);
    words.show_all(alloc, rule.inputs.as_slice());
    words.put(alloc, b"|");
    words.show_all(alloc, rule.order.as_slice());
    words.put(alloc, b"->");
    words.show_all(alloc, rule.outputs.as_slice());
}

/// A refusal with its cause.
fn refused(alloc: Global, fault: &ProjectFault) -> Words {
    let mut words = Words::refusal(alloc, fault);
    match fault {
        ProjectFault::CircularDirs(dirs) => words.show_all(alloc, dirs.as_slice()),
        ProjectFault::CircularCommands(names) => add_names(alloc, &mut words, names),
        ProjectFault::NoSuchGroup(group) => add_group(alloc, &mut words, group),
        ProjectFault::TooMany { what, number } => add_limit(alloc, &mut words, *what, *number),
        ProjectFault::Parse(_) | ProjectFault::Memory => {}
    }
    words
}

/// Adds names of rules.
fn add_names(alloc: Global, words: &mut Words, names: &RuleNames) {
    for name in names.as_slice() {
        words.show(alloc, &name.dir);
        words.show(alloc, &name.text);
    }
}

/// Adds a group.
fn add_group(alloc: Global, words: &mut Words, group: &GroupRef) {
    words.show(alloc, &group.dir);
    words.show(alloc, &group.name);
}

/// Adds what has a limit, and how many there would be.
fn add_limit(alloc: Global, words: &mut Words, what: What, number: u64) {
    match what {
        What::Commands => words.put(alloc, b"commands"),
        What::Links => words.put(alloc, b"links"),
    }
    words.show(alloc, &number);
}
