//! The files of a site beside a clean build of its sources.
ghost use Rattle.std.specs.Prelude.{◌≡◌, ℕ, IsTrue, IfOk, IfErr};
ghost use Rattle.std.specs.FinMap as finite;
ghost use Rattle.std.specs.Option.{option_copied};
ghost use Rattle.std.specs.Result.{result_err};
ghost use Rattle.tup_path.specs.Order.{by_names};
ghost use Rattle.tup_site.specs.Cause.{CountsFaults, OnlyLarge};
ghost use Rattle.tup_site.specs.Crash.{GoesOn, NoStep};
ghost use Rattle.tup_clean.specs.Clean.{clean};
ghost use Rattle.tup_clean.specs.Ran.{commands};
ghost use Rattle.tup_compare.specs.Compared as specs;
ghost use Rattle.tup_compare.specs.Compared.{HasCompared, HasBuilt, IsGoodBuild, FindsNotGood, RunsToCompare, RunsBuildOf, compared_at};
ghost use Rattle.tup_compare.specs.Found.{NamesALargeFile};
ghost use Rattle.tup_compare.specs.Holding.{HoldsOn, Lists};
ghost use Rattle.tup_compare.specs.Opened.{JustOpens, NoDamage};
ghost use Rattle.tup_promise.specs.Cause.{HasCountedCause, HasRunCause};

use crate::found::{Found, contents};
use crate::opening::opened;
use std::alloc::{AllocError, Global};
use tup_access::Verdict;
use tup_clean::{CleanFault, Cleaned, clean_build};
use tup_path::{Bytes, Files, Path, Paths};
use tup_promise::Stop;
use tup_rule::{Rule, RuleName};
use tup_runner::Runner;
use tup_site::{Site, SiteFailed};

/// How the files of a site compare with a clean build of its sources.
#[derive(Drop)]
pub enum Compared {
    /// They are the same.
    Same,
    /// They differ at this path, and at none before it.
    Differs(Path),
}

/// Compares the files of a site with a clean build of its sources, whose commands the runner runs
/// beside them. The files stay as they are, and what the store lists.
///
/// A rule that isn't Good is a `Bad` stop: the first in the order of the rules.
pub fn compare_site<S: Site, R: Runner>(
    alloc: Global,
    site: &mut S,
    runner: &mut R,
) -> Result<Compared, Stop>
    ensures compared { IsTrue S.tells → IsTrue R.tells
        → HasCompared R.next (S.world site.old) result }
    ensures holds { IsTrue S.tells → HoldsOn (S.world site.old) (S.world site.new) }
    ensures known { IsTrue S.tells → S.known site.new ≡ S.known site.old }
    // Of the store nothing but its end was written, where no gate stood.
    ensures opens { IsTrue S.tells → let old = S.world site.old in let new = S.world site.new in
        JustOpens old.store new.store (result_err result) }
    ensures crash { IsTrue S.tells → GoesOn S.moment S.left_since site.old site.new HoldsOn }
    ensures ran { IsTrue S.tells → IsTrue R.tells → IsTrue R.tells_ran
        → RunsToCompare R.next (S.world site.old) (R.ran runner.old) (R.ran runner.new)
        (result_err result) }
    ensures counted_cause { HasCountedCause (S.faults site.old) (S.faults site.new)
        (result_err result) }
    ensures run_cause { HasRunCause (R.faults runner.old) (R.faults runner.new)
        (result_err result) }
{
    let owned = opened(alloc, site)?;
    compare_beside(alloc, site, owned, runner)
}

/// The same, for a site whose store lists these paths.
fn compare_beside<S: Site, R: Runner>(
    alloc: Global,
    site: &mut S,
    owned: Paths,
    runner: &mut R,
) -> Result<Compared, Stop>
    requires { IsTrue S.tells → Lists (S.world site.old).store owned }
    ensures sound { IfErr result NoDamage }
    ensures compared { IsTrue S.tells → IsTrue R.tells
        → HasCompared R.next (S.world site.old) result }
    ensures same { IsTrue S.tells → S.world site.new ≡ S.world site.old }
    ensures known { IsTrue S.tells → S.known site.new ≡ S.known site.old }
    ensures crash { IsTrue S.tells → GoesOn S.moment S.left_since site.old site.new NoStep }
    ensures ran { IsTrue S.tells → IsTrue R.tells → IsTrue R.tells_ran
        → RunsToCompare R.next (S.world site.old) (R.ran runner.old) (R.ran runner.new)
        (result_err result) }
    ensures counted_cause { HasCountedCause (S.faults site.old) (S.faults site.new)
        (result_err result) }
    ensures run_cause { HasRunCause (R.faults runner.old) (R.faults runner.new)
        (result_err result) }
{
    let built = clean_files(alloc, site, owned, runner)?;
    let files = all_files(alloc, site)?;
    Ok(comparison(files.as_slice(), built.as_slice())?)
}

/// The files that a clean build of the sources leaves, whose rules are all Good.
fn clean_files<S: Site, R: Runner>(
    alloc: Global,
    site: &mut S,
    owned: Paths,
    runner: &mut R,
) -> Result<Files, Stop>
    requires { IsTrue S.tells → Lists (S.world site.old).store owned }
    ensures sound { IfErr result NoDamage }
    ensures clean { IsTrue S.tells → IsTrue R.tells
        → HasBuilt R.next (S.world site.old) result }
    ensures same { IsTrue S.tells → S.world site.new ≡ S.world site.old }
    ensures known { IsTrue S.tells → S.known site.new ≡ S.known site.old }
    ensures crash { IsTrue S.tells → GoesOn S.moment S.left_since site.old site.new NoStep }
    ensures ran { IsTrue S.tells → IsTrue R.tells → IsTrue R.tells_ran
        → RunsToCompare R.next (S.world site.old) (R.ran runner.old) (R.ran runner.new)
        (result_err result) }
    ensures counted_cause { HasCountedCause (S.faults site.old) (S.faults site.new)
        (result_err result) }
    ensures run_cause { HasRunCause (R.faults runner.old) (R.faults runner.new)
        (result_err result) }
{
    let found = Found::read(alloc, site, owned)?;
    let rules = found.rules(alloc)?;
    good_build(alloc, runner, rules.as_slice(), &found.sources)
}

/// The files of a clean build whose rules are all Good.
fn good_build<R: Runner>(
    alloc: Global,
    runner: &mut R,
    rules: &[Rule],
    sources: &Files,
) -> Result<Files, Stop>
    requires { IsTrue (finite.is_sorted by_names sources.now) }
    ensures sound { IfErr result NoDamage }
    ensures built { IsTrue R.tells
        → IsGoodBuild rules.now (clean R.next rules.now (finite.from_sorted sources.now)) result }
    ensures ran { IsTrue R.tells → IsTrue R.tells_ran
        → RunsBuildOf (commands R.next rules.now (finite.from_sorted sources.now))
        (R.ran runner.old) (R.ran runner.new) (result_err result) }
    ensures counted { (count : ℕ) → HasCountedCause count count (result_err result) }
    ensures run_cause { HasRunCause (R.faults runner.old) (R.faults runner.new)
        (result_err result) }
{
    match clean_build(alloc, rules, sources, runner) {
        Ok(Cleaned { tree, verdicts }) => {
            match first_not_good(alloc, rules, verdicts.as_slice())? {
                Some((name, verdict)) => Err(Stop::Bad(name, verdict)),
                None => Ok(tree),
            }
        }
        Err(CleanFault::Run) => Err(Stop::Run),
        Err(CleanFault::Memory) => Err(Stop::Outside(SiteFailed::Memory)),
    }
}

/// The first rule that has a verdict which isn't Good, with it.
fn first_not_good(
    alloc: Global,
    rules: &[Rule],
    verdicts: &[Option<Verdict>],
) -> Result<Option<(RuleName, Verdict)>, AllocError>
    ensures { IfOk result (FindsNotGood rules.now verdicts.now) }
{
    for (at, rule) in rules.iter().enumerate() {
        let bad = match verdicts.get(at) {
            Some(verdict) => not_good(alloc, rule, verdict)?,
            None => None,
        };
        if bad.is_some() {
            return Ok(bad);
        }
    }
    Ok(None)
}

/// A rule with its verdict, where it has one that isn't Good.
fn not_good(
    alloc: Global,
    rule: &Rule,
    verdict: &Option<Verdict>,
) -> Result<Option<(RuleName, Verdict)>, AllocError>
    ensures { IfOk result (λ bad. bad ≡ specs.bad_verdict rule.now verdict.now) }
{
    let verdict = match verdict {
        None | Some(Verdict::Good) => return Ok(None),
        Some(verdict) => verdict.clone()?,
    };
    match rule.name(alloc) {
        Ok(name) => Ok(Some((name, verdict))),
        Err(_) => Err(AllocError),
    }
}

/// All files of a site with their contents, in the order of paths.
fn all_files<S: Site>(alloc: Global, site: &mut S) -> Result<Files, SiteFailed>
    ensures files { IsTrue S.tells
        → IfOk result (λ files. files ≡ finite.entries (S.world site.old).tree) }
    ensures same { IsTrue S.tells → S.world site.new ≡ S.world site.old }
    ensures known { IsTrue S.tells → S.known site.new ≡ S.known site.old }
    ensures crash { IsTrue S.tells → GoesOn S.moment S.left_since site.old site.new NoStep }
    ensures large { IsTrue S.tells → NamesALargeFile (S.world site.new).tree result }
    ensures only_large { OnlyLarge result }
    ensures counted { CountsFaults (S.faults site.old) (S.faults site.new) result }
{
    let paths = site.list(alloc)?;
    contents(alloc, site, paths.as_slice())
}

/// How two lists of files compare, which stand in the order of their paths.
fn comparison(one: &[(Path, Bytes)], other: &[(Path, Bytes)]) -> Result<Compared, AllocError>
    ensures { IfOk result (λ compared. compared
        ≡ compared_at (specs.difference one.now other.now)) }
{
    match difference(one, other) {
        Some(path) => Ok(Compared::Differs(path.clone()?)),
        None => Ok(Compared::Same),
    }
}

/// The path at which two lists of files first differ, which stand in the order of their paths.
fn difference<'f>(one: &'f [(Path, Bytes)], other: &'f [(Path, Bytes)]) -> Option<&'f Path>
    ensures { option_copied result ≡ specs.difference one.now other.now }
{
    let mut left = other;
    for here in one {
        let Some((there, others)) = left.split_first() else {
            return Some(&here.0);
        };
        if !same(here, there) {
            return Some(first(&here.0, &there.0));
        }
        left = others;
    }
    match left.first() {
        Some(there) => Some(&there.0),
        None => None,
    }
}

/// Whether two files have one path and one content.
fn same(one: &(Path, Bytes), other: &(Path, Bytes)) -> bool
    ensures { result ≡ specs.same_file one.now other.now }
{
    one.0 == other.0 && one.1 == other.1
}

/// Of two paths the one that comes first.
fn first<'f>(one: &'f Path, other: &'f Path) -> &'f Path
    ensures { result.now ≡ specs.first_of one.now other.now }
{
    if other < one { other } else { one }
}
