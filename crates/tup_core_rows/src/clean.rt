//! The calls of `clean.rows`.
ghost use Rattle.std.specs.Prelude.{◌<◌, ◌+◌, ◌^◌, IsTrue, IfOk};
ghost use Rattle.std.specs.FinMap as finite;
ghost use Rattle.tup_path.specs.Order.{by_names};

use crate::access::add_files;
use crate::answer::verdict_word;
use crate::broken::Broken;
use crate::values::{content, path};
use std::alloc::Global;
use std::fs::Files as SystemFiles;
use std::io;
use tup_clean::{CleanFault, Cleaned, clean_build};
use tup_mini::Mini;
use tup_path::{Files, Items, Path};
use tup_rows::{Answers, RowFault, Words, try_file};
use tup_rule::{Rule, Rules};
use tup_runner::Runner;

pub(crate) fn try_rows<R: SystemFiles + Print>(rt: &R, alloc: Global) -> io::Result<()> {
    try_file(rt, alloc, "clean.rows", &mut Clean)
}

/// Knows the calls of tup_clean.
#[derive(Drop)]
struct Clean;

impl Answers for Clean {
    fn answer(&mut self, alloc: Global, call: &str, said: &Words) -> Result<Words, RowFault> {
        match call {
            "build" => build(alloc, rules(alloc, said).as_slice()),
            "stopped" => stopped(alloc, rules(alloc, said).as_slice()),
            _ => Err(RowFault::NoSuchCall),
        }
    }
}

fn build(alloc: Global, rules: &[Rule]) -> Result<Words, RowFault> {
    match clean_build(alloc, rules, &sources(alloc)?, &mut Mini::new(alloc)) {
        Ok(cleaned) => Ok(left(alloc, &cleaned)),
        Err(_) => Err(RowFault::Memory),
    }
}

/// Why there is no build where the runner fails, and how often it did.
fn stopped(alloc: Global, rules: &[Rule]) -> Result<Words, RowFault> {
    let mut runner = Broken { faults: 0 };
    let end: &[u8] = match clean_build(alloc, rules, &sources(alloc)?, &mut runner) {
        Ok(_) => b"built",
        Err(CleanFault::Run) => b"run",
        Err(CleanFault::Memory) => return Err(RowFault::Memory),
    };
    let mut words = Words::word(alloc, end);
    words.show(alloc, &runner.faults());
    Ok(words)
}

/// The source that all rows begin with.
fn sources(alloc: Global) -> Result<Files, RowFault>
    ensures { IfOk result (λ files. IsTrue (finite.is_sorted by_names files)) }
{
    let mut files = Items::new(alloc);
    files.push((path(alloc, "a")?, content(alloc, b"x")?))?;
    Ok(files)
}

/// Four words for each rule.
fn rules(alloc: Global, said: &Words) -> Rules {
    let mut rules = Items::new(alloc);
    for at in 0..said.len() / 4 {
        said.list(&mut rules, rule(alloc, said, 4 * at));
    }
    rules
}

/// The rule whose words begin at a place.
fn rule(alloc: Global, said: &Words, at: usize) -> Rule
    requires { at + 3 < 2 ^ 64 }
{
    Rule {
        dir: Path::top(alloc),
        text: said.text_at(alloc, at),
        display: None,
        compare: false,
        inputs: said.paths_at(alloc, at + 1),
        order: said.paths_at(alloc, at + 2),
        outputs: said.paths_at(alloc, at + 3),
    }
}

/// The verdict of each rule, and each file with its content.
fn left(alloc: Global, cleaned: &Cleaned) -> Words {
    let mut words = Words::new(alloc);
    for verdict in cleaned.verdicts.as_slice() {
        words.put(
            alloc,
            match verdict {
                Some(verdict) => verdict_word(verdict),
                None => b"-",
            },
        );
    }
    add_files(alloc, &mut words, cleaned.tree.as_slice());
    words
}
