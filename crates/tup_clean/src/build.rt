//! The clean build of some sources.
ghost use Rattle.std.specs.Prelude.{◌≡◌, None, IsTrue, IfOk, OnOk, length, replicate};
ghost use Rattle.std.specs.FinMap as finite;
ghost use Rattle.tup_path.specs.Order.{by_names};
ghost use Rattle.tup_clean.specs.Cleaned.{IsCleaned, build, builds_all};
ghost use Rattle.tup_clean.specs.Ran.{RunsAll, CountsFaults, commands, commands_of};
ghost use Rattle.tup_clean.specs.Taken.{takes_on};

use crate::Cleaned;
use crate::fault::CleanFault;
use crate::made::generated;
use crate::queue::Queue;
use crate::running::run;
use crate::tree::FileTree;
use std::alloc::{AllocError, Global};
use tup_access::Verdict;
use tup_path::{Files, Items};
use tup_rule::Rule;
use tup_runner::Runner;

/// The clean build of some sources, which stand in the order of their paths: what the commands of the
/// rules leave where they are run with no history, each as soon as all its declared producers are Good.
///
/// `Run` is a failure of the runner, whose count rose. It and `Memory` leave nothing but what the runner ran.
pub fn clean_build<R: Runner>(
    alloc: Global,
    rules: &[Rule],
    sources: &Files,
    runner: &mut R,
) -> Result<Cleaned, CleanFault>
    requires { IsTrue (finite.is_sorted by_names sources.now) }
    ensures cleaned { IsTrue R.tells → IfOk result (IsCleaned R.next rules.now sources.now) }
    ensures ran { IsTrue R.tells → IsTrue R.tells_ran
        → RunsAll (commands R.next rules.now (finite.from_sorted sources.now))
        (R.ran runner.old) (R.ran runner.new) result }
    ensures cause { CountsFaults (R.faults runner.old) (R.faults runner.new) result }
{
    let mut tree = FileTree::new(alloc, sources)?;
    let mut verdicts = no_verdicts(alloc, rules.len())?;
    build_on(alloc, rules, runner, &mut tree, &mut verdicts)?;
    Ok(Cleaned {
        tree: tree.into_files(alloc)?,
        verdicts: Items::from_vec(verdicts),
    })
}

fn no_verdicts(alloc: Global, count: usize) -> Result<Vec<Option<Verdict>>, AllocError>
    ensures { IfOk result (λ verdicts. verdicts.items ≡ replicate count None) }
{
    let mut verdicts = Vec::new(alloc);
    for _ in 0..count {
        verdicts.push(None)?;
    }
    Ok(verdicts)
}

/// Takes the first rule that is ready, again and again, until there is none.
fn build_on<R: Runner>(
    alloc: Global,
    rules: &[Rule],
    runner: &mut R,
    tree: &mut FileTree,
    verdicts: &mut [Option<Verdict>],
) -> Result<(), CleanFault>
    requires { verdicts.old ≡ replicate (length rules.now) None }
    ensures built { IsTrue R.tells → OnOk result (build tree.new verdicts.new
        ≡ builds_all R.next rules.now (build tree.old verdicts.old)) }
    ensures ran { IsTrue R.tells → IsTrue R.tells_ran
        → let all = takes_on (length rules.now) R.next rules.now (build tree.old verdicts.old) in
        RunsAll (commands_of rules.now all)
        (R.ran runner.old) (R.ran runner.new) result }
    ensures cause { CountsFaults (R.faults runner.old) (R.faults runner.new) result }
{
    let generated = generated(alloc, rules)?;
    let mut queue = Queue::new(alloc, rules)?;
    for _ in 0..rules.len() {
        let Some(at) = queue.next() else {
            return Ok(());
        };
        let (verdict, files) = run(alloc, runner, rules, &generated, &rules[at], tree)?;
        tree.put_all(files)?;
        queue.note(at, &verdict)?;
        verdicts[at] = Some(verdict);
    }
    Ok(())
}
