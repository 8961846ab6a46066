//! A runner that fails.
ghost use Rattle.std.specs.Prelude.{◌≡◌};

use std::alloc::Global;
use tup_mini::Mini;
use tup_path::{Path, Text};
use tup_runner::{Ended, RunFailed, Runner, View};

/// Runs the small commands, but fails at the run of one number.
#[derive(Drop)]
pub(crate) struct Failing {
    mini: Mini,
    /// How many runs pass before the one that fails; none fails after it.
    passing: Option<u64>,
    faults: u64,
}

impl Failing {
    /// A runner that fails at the run of this number, counted from 1; none has the number 0.
    pub(crate) fn new(alloc: Global, fails: u64) -> Failing {
        Failing {
            mini: Mini::new(alloc),
            passing: fails.checked_sub(1),
            faults: 0,
        }
    }

    /// Whether this run fails, which is counted down.
    fn fails(&mut self) -> bool
        ensures { self.new.faults ≡ self.old.faults }
    {
        let passing = self.passing;
        self.passing = match passing {
            Some(left) => left.checked_sub(1),
            None => None,
        };
        passing == Some(0)
    }
}

impl Runner for Failing {
    ghost use Rattle.std.specs.Prelude.{[], false};
    ghost use Rattle.tup_runner.specs.declared.step.Step.TheVariants.{End};

    ghost tells = { false };

    ghost next = { λ dir text asked. End (record { status = 0; writes = [] }) };

    ghost tells_ran = { false };

    ghost ran = { λ _. [] };

    ghost faults = { λ failing. failing.faults };

    fn run<V: View>(
        &mut self,
        alloc: Global,
        dir: &Path,
        text: &Text,
        view: &mut V,
    ) -> Result<Ended, RunFailed> {
        if self.fails() {
            self.faults = self.faults.saturating_add(1);
            return Err(RunFailed::Fault);
        }
        self.mini.run(alloc, dir, text, view)
    }

    fn faults(&self) -> u64 {
        self.faults
    }
}
