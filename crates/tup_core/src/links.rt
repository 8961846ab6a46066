//! Who reads what the reached rules make, found without a look at all other rules.
ghost use Rattle.std.specs.Prelude.{◌≡◌, ◌∷◌, ◌&&◌, ◌<◌, [], ℕ, Bool, List, true, Some, not, IfOk, OnOk, IsTrue, is_some, length, replicate};
ghost use Rattle.std.specs.BTreeMap.{get};
ghost use Rattle.std.specs.BTreeSet.{contains};
ghost use Rattle.tup_path.specs.Name.{Names};
ghost use Rattle.tup_path.specs.Order.{by_names};
ghost use Rattle.tup_rule.specs.Makers.{producers_in};
ghost use Rattle.tup_clean.specs.Queue.{count_of, AreBelow, IsNoted};
ghost use Rattle.tup_core.specs.Sound.{AreNamersOf, IsMadeBy};
ghost use Rattle.tup_core.specs.Links.{HasMaker, IsIn, IsReachOf, AreRules, AreLinks, AreListed, AreMade, AreNear, AreUp, HasMakersIn, AddsMakerIn};
ghost use Rattle.tup_core.specs.Waiting.{flag};

use crate::start::is_up;
use crate::waiting::Places;
use std::alloc::{AllocError, Global};
use std::collections::{BTreeMap, BTreeSet};
use tup_access::add_paths;
use tup_clean::readers;
use tup_path::{Items, Path};
use tup_rule::{Makers, Rule, producers_of};

/// The readers of all rules; or, where reached rules alone read what reached ones make, the readers of those.
pub(crate) fn links(
    alloc: Global,
    rules: &[Rule],
    reach: &[u32],
    near: &[u32],
    reached: &[bool],
) -> Result<Vec<Places>, AllocError>
    requires reach { IsReachOf rules.now reached.now reach.now }
    requires near { AreNamersOf rules.now (IsMadeBy rules.now reach.now) near.now }
    requires reached { length reached.now ≡ length rules.now }
    ensures { IfOk result (λ lists. AreLinks rules.now reached.now lists.items) }
{
    let lists = near_readers(alloc, rules, reach, near)?;
    if are_up(&lists, reached) {
        return Ok(lists);
    }
    readers(alloc, rules)
}

/// The readers of the reached rules, and of no others but those that make an output of a reached one before it. `near` are
/// the rules that declare or make such an output, and maybe others.
fn near_readers(
    alloc: Global,
    rules: &[Rule],
    reach: &[u32],
    near: &[u32],
) -> Result<Vec<Places>, AllocError>
    requires reach { AreRules rules.now reach.now }
    requires near { AreNamersOf rules.now (IsMadeBy rules.now reach.now) near.now }
    ensures { IfOk result (λ lists. (flags : List Bool) → IsReachOf rules.now flags reach.now
        → AreNear rules.now flags lists.items) }
{
    let made = made_by(alloc, rules, reach)?;
    let makers = makers_of(alloc, rules, near, &made)?;
    readers_by(alloc, rules, near, &makers)
}

/// The outputs of the rules with some numbers.
fn made_by(alloc: Global, rules: &[Rule], reach: &[u32]) -> Result<BTreeSet<Path>, AllocError>
    requires { AreRules rules.now reach.now }
    ensures { IfOk result (AreMade rules.now reach.now) }
{
    let mut made = BTreeSet::new(alloc);
    for at in reach {
        add_paths(&mut made, rules[*at as usize].outputs.as_slice())?;
    }
    Ok(made)
}

/// The makers of some paths, which are all among the rules with these numbers.
fn makers_of(
    alloc: Global,
    rules: &[Rule],
    near: &[u32],
    made: &BTreeSet<Path>,
) -> Result<Makers, AllocError>
    requires { AreNamersOf rules.now (IsIn made.now) near.now }
    ensures { IfOk result (HasMakersIn made.now rules.now) }
{
    let mut makers = BTreeMap::new(alloc);
    for number in near {
        let at = *number as usize;
        add_made(&mut makers, made, rules[at].outputs.as_slice(), at)?;
    }
    Ok(makers)
}

/// Notes a rule as the maker of those of its outputs that are asked for, save of those that have one.
fn add_made(
    makers: &mut Makers,
    made: &BTreeSet<Path>,
    outputs: &[Path],
    at: usize,
) -> Result<(), AllocError>
    ensures { OnOk result (AddsMakerIn made.now outputs.now at makers.old makers.new) }
{
    for output in outputs {
        add_one(makers, made, output, at)?;
    }
    Ok(())
}

/// Notes a rule as the maker of an output, if that is asked for and has none.
fn add_one(
    makers: &mut Makers,
    made: &BTreeSet<Path>,
    output: &Path,
    at: usize,
) -> Result<(), AllocError>
    ensures { OnOk result (AddsMakerIn made.now (output.now ∷ []) at makers.old makers.new) }
{
    if is_new(makers, made, output) {
        makers.insert(output.clone()?, at)?;
    }
    Ok(())
}

/// Whether the maker of a path is asked for, and isn't known.
fn is_new(makers: &Makers, made: &BTreeSet<Path>, path: &Path) -> bool
    ensures { result ≡ (contains by_names made.now path.now
        && not (is_some (get by_names makers.now path.now))) }
{
    made.contains(path) && !makers.contains_key(path)
}

/// For each rule, the rules that declare what it makes by a map, which are all among those with these numbers.
fn readers_by(
    alloc: Global,
    rules: &[Rule],
    near: &[u32],
    makers: &Makers,
) -> Result<Vec<Places>, AllocError>
    requires near { AreNamersOf rules.now (HasMaker makers.now) near.now }
    requires below { (path : Names) (at : ℕ) → get by_names makers.now path ≡ Some at
        → at < length rules.now }
    ensures { IfOk result (λ lists. AreListed rules.now makers.now (length rules.now) lists.items) }
{
    let mut lists = no_readers(alloc, rules.len())?;
    note_rules(alloc, rules, near, makers, &mut lists)?;
    Ok(lists)
}

/// An empty list for each rule.
fn no_readers(alloc: Global, count: usize) -> Result<Vec<Places>, AllocError>
    ensures { IfOk result (λ lists. lists.items ≡ replicate count []) }
{
    let mut lists = Vec::with_capacity(alloc, count)?;
    for _ in 0..count {
        lists.push(Items::new(alloc))?;
    }
    Ok(lists)
}

/// Notes each rule with those that make by a map what it declares; rules beyond these numbers declare nothing of it.
fn note_rules(
    alloc: Global,
    rules: &[Rule],
    near: &[u32],
    makers: &Makers,
    lists: &mut [Places],
) -> Result<(), AllocError>
    requires near { AreNamersOf rules.now (HasMaker makers.now) near.now }
    requires below { (path : Names) (at : ℕ) → get by_names makers.now path ≡ Some at
        → at < length lists.old }
    requires none { AreListed rules.now makers.now 0 lists.old }
    ensures { OnOk result (AreListed rules.now makers.now (length rules.now) lists.new) }
{
    for number in near {
        let at = *number as usize;
        note_rule(alloc, makers, &rules[at], at, lists)?;
    }
    Ok(())
}

/// Notes a rule with those that make by a map what it declares.
fn note_rule(
    alloc: Global,
    makers: &Makers,
    rule: &Rule,
    at: usize,
    lists: &mut [Places],
) -> Result<(), AllocError>
    requires { AreBelow (producers_in makers.now rule.now) (length lists.old) }
    ensures { OnOk result (IsNoted at (producers_in makers.now rule.now) lists.old lists.new) }
{
    let producers = producers_of(alloc, makers, rule)?;
    note_each(&producers, at, lists)
}

/// Notes a rule with each of some others.
fn note_each(producers: &[usize], reader: usize, lists: &mut [Places]) -> Result<(), AllocError>
    requires { AreBelow producers.now (length lists.old) }
    ensures { OnOk result (IsNoted reader producers.now lists.old lists.new) }
{
    for producer in producers {
        lists[*producer].push(reader)?;
    }
    Ok(())
}

/// Whether the flag of each rule in some lists is up.
fn are_up(lists: &[Places], flags: &[bool]) -> bool
    ensures { IsTrue result → AreUp lists.now flags.now }
{
    for list in lists {
        if !are_all_up(list.as_slice(), flags) {
            return false;
        }
    }
    true
}

/// Whether the flag of each of some rules is up.
fn are_all_up(places: &[usize], flags: &[bool]) -> bool
    ensures { IsTrue result → (at : ℕ) → 0 < count_of at places.now → flag flags.now at ≡ true }
{
    for place in places {
        if !is_up(flags, *place) {
            return false;
        }
    }
    true
}
