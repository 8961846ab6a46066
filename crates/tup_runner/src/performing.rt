//! One command, run and reported.
ghost use Rattle.std.specs.Prelude.{◌≡◌, None, Err, IsTrue, IfOk, IfErr};
ghost use Rattle.tup_runner.specs.Report.{Reports};
ghost use Rattle.tup_runner.specs.Run.{RunsAs, Appends, CountsFaults};

use crate::fault::RunFailed;
use crate::ghost_asks::GhostAsks;
use crate::recording::{Recording, into_asks};
use crate::report::Report;
use crate::runner::Runner;
use crate::view::View;
use std::alloc::Global;
use std::marker::PhantomData;
use tup_path::{Path, Text};

/// Runs a command in a folder through a view, which has refused nothing yet, and reports what it asked and how it ended.
///
/// Its refusals are those of `Runner::run`. Where they find no memory before the run, the command isn't run.
pub fn perform<R: Runner, V: View>(
    alloc: Global,
    runner: &mut R,
    dir: &Path,
    text: &Text,
    view: &mut V,
) -> Result<Report<R>, RunFailed>
    requires { V.refusal view.old ≡ None }
    ensures reports { IfOk result (Reports dir.now text.now
        (λ asks. V.came view.old asks view.new) (V.refusal view.new)) }
    ensures refuses { IfErr result (λ failed.
        RunsAs R.tells (R.next dir.now text.now) (λ asks. V.came view.old asks view.new)
        (V.refusal view.new) (Err failed)) }
    ensures ran { IsTrue R.tells_ran
        → Appends (dir.now, text.now) (R.ran runner.old) (R.ran runner.new) result }
    ensures cause { CountsFaults (R.faults runner.old) (R.faults runner.new) result }
    ensures same { V.same view.old view.new }
{
    let report_dir = dir.clone()?;
    let report_text = text.clone()?;
    let mut recording = Recording {
        view,
        asks: GhostAsks::new(alloc),
    };
    let outcome = runner.run(alloc, dir, text, &mut recording);
    let asks = into_asks(recording);
    Ok(Report {
        dir: report_dir,
        text: report_text,
        asks,
        ended: outcome?,
        of: PhantomData,
    })
}
