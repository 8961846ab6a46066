//! The run of one command over the files of a build.
ghost use Rattle.std.specs.Prelude.{◌≡◌, None, IsTrue, IfOk};
ghost use Rattle.tup_access.specs.Generated.{IsGenerated};
ghost use Rattle.tup_access.specs.Judge.{IsJudged};
ghost use Rattle.tup_access.specs.Verdict.{verdict as verdict_of};
ghost use Rattle.tup_clean.specs.Ran.{RunsOne, CountsFaults, command_of};

use crate::fault::CleanFault;
use crate::tree::FileTree;
use crate::view::{FileView, Sight};
use std::alloc::Global;
use std::collections::BTreeSet;
use tup_access::{Inputs, Verdict, judge};
use tup_path::{Files, Items, Path};
use tup_rule::Rule;
use tup_runner::{RunFailed, Runner, perform};

/// The verdict on a rule over some files, and the files that its command leaves.
pub(crate) fn run<R: Runner>(
    alloc: Global,
    runner: &mut R,
    rules: &[Rule],
    generated: &BTreeSet<Path>,
    rule: &Rule,
    tree: &FileTree,
) -> Result<(Verdict, Files), CleanFault>
    requires { IsGenerated rules.now generated.now }
    ensures judged { IsTrue R.tells → IfOk result (λ ran. IsJudged ran.0 ran.1
        (verdict_of R.next rules.now rule.now tree.now)) }
    ensures ran { IsTrue R.tells_ran
        → RunsOne (command_of rule.now) (R.ran runner.old) (R.ran runner.new) result }
    ensures cause { CountsFaults (R.faults runner.old) (R.faults runner.new) result }
{
    let inputs = Inputs::of(alloc, rule)?;
    let mut view = FileView {
        sight: Sight {
            rules,
            generated,
            rule,
            inputs: &inputs,
            tree,
        },
        asked: 0,
        denied: None,
    };
    run_in(alloc, runner, &mut view)
}

/// The same, through a view that was asked nothing yet.
fn run_in<R: Runner>(
    alloc: Global,
    runner: &mut R,
    view: &mut FileView<'_>,
) -> Result<(Verdict, Files), CleanFault>
    requires unasked { view.old.asked ≡ 0 }
    requires undenied { view.old.denied ≡ None }
    ensures judged { IsTrue R.tells → IfOk result (λ ran. IsJudged ran.0 ran.1 (verdict_of R.next
        view.old.sight.rules.now view.old.sight.rule.now view.old.sight.tree.now)) }
    ensures ran { IsTrue R.tells_ran → RunsOne (command_of view.old.sight.rule.now)
        (R.ran runner.old) (R.ran runner.new) result }
    ensures cause { CountsFaults (R.faults runner.old) (R.faults runner.new) result }
{
    let rule = view.sight.rule;
    match perform(alloc, runner, &rule.dir, &rule.text, view) {
        Ok(report) => Ok(judge(alloc, rule, report.ended())?),
        Err(RunFailed::Denied) => {
            let (_, verdict) = view.denied.take().unwrap();
            Ok((verdict, Items::new(alloc)))
        }
        Err(RunFailed::View) => unreachable!(), // the files are at hand
        Err(RunFailed::Fault) => Err(CleanFault::Run),
        Err(RunFailed::Memory) => Err(CleanFault::Memory),
    }
}
