//! A runner that fails.
use std::alloc::Global;
use tup_path::{Path, Text};
use tup_runner::{Ended, RunFailed, Runner, View};

/// Runs nothing, and counts how often it was asked to.
#[derive(Drop)]
pub(crate) struct Broken {
    pub faults: u64,
}

impl Runner for Broken {
    ghost use Rattle.std.specs.Prelude.{[], false};
    ghost use Rattle.tup_runner.specs.declared.step.Step.TheVariants.{End};

    ghost tells = { false };

    ghost next = { λ dir text asked. End (record { status = 0; writes = [] }) };

    ghost tells_ran = { false };

    ghost ran = { λ _. [] };

    ghost faults = { λ broken. broken.faults };

    fn run<V: View>(
        &mut self,
        _alloc: Global,
        _dir: &Path,
        _text: &Text,
        _view: &mut V,
    ) -> Result<Ended, RunFailed> {
        self.faults = self.faults.saturating_add(1);
        Err(RunFailed::Fault)
    }

    fn faults(&self) -> u64 {
        self.faults
    }
}
