//! The runner for the small commands.
ghost use Rattle.std.specs.Prelude.{◌≡◌, [], None, true};
ghost use Rattle.tup_runner.specs.Run.{RunsAs, NeverFaults};
ghost use Rattle.tup_mini.specs.Means.{runs_next};

use crate::doing;
use crate::kept::Kept;
use crate::step::MiniStep;
use crate::steps::steps;
use crate::stopped::Stopped;
use std::alloc::Global;
use tup_path::{Items, Path, Text};
use tup_runner::{Ended, RunFailed, Runner, View};

/// The runner that comes with the program. It keeps the list of what it ran, and never answers
/// `Fault`.
#[derive(Drop)]
pub struct Mini {
    ran: Items<(Path, Text)>,
}

impl Mini {
    /// A runner that has run nothing; it takes no memory.
    pub fn new(alloc: Global) -> Mini
        ensures { result.ran ≡ [] }
    {
        Mini {
            ran: Items::new(alloc),
        }
    }
}

impl Runner for Mini {
    ghost use Rattle.std.specs.Prelude.{true};
    ghost use Rattle.tup_mini.specs.Means.{mini_next};

    ghost tells = { true };

    ghost next = { mini_next };

    ghost tells_ran = { true };

    ghost ran = { λ mini. mini.ran };

    ghost faults = { λ _. 0 };

    fn run<V: View>(
        &mut self,
        alloc: Global,
        dir: &Path,
        text: &Text,
        view: &mut V,
    ) -> Result<Ended, RunFailed> {
        self.ran.push((dir.clone()?, text.clone()?))?;
        let steps = steps(alloc, text)?;
        follow(alloc, dir, &steps, view)
    }

    fn faults(&self) -> u64 {
        0
    }
}

/// Does the steps of a command to its end.
fn follow<V: View>(
    alloc: Global,
    dir: &Path,
    steps: &[MiniStep],
    view: &mut V,
) -> Result<Ended, RunFailed>
    requires { V.refusal view.old ≡ None }
    ensures means { RunsAs true (runs_next dir.now steps.now)
        (λ asks. V.came view.old asks view.new) (V.refusal view.new) result }
    ensures never { NeverFaults result }
    ensures same { V.same view.old view.new }
{
    let mut kept = Kept::new(alloc, dir)?;
    match doing::run(alloc, &mut kept, steps, view) {
        Ok(()) => Ok(kept.ended(0)),
        Err(Stopped::Status(status)) => Ok(kept.ended(status)),
        Err(Stopped::Failed(failed)) => Err(failed),
    }
}
