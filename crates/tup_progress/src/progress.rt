//! A runner that shows what it runs.
ghost use Rattle.std.specs.Prelude.{◌≡◌};

use crate::lines::{CLEAR, failed, failed_below, over, own, own_cut};
use crate::screen::{Around, Screen};
use crate::started::{Count, Started};
use std::alloc::{AllocError, Global};
use tup_path::{Path, Text};
use tup_runner::{Ended, RunFailed, Runner, View};

/// How commands are shown.
#[derive(Clone, Copy, Debug, PartialEq, Eq)]
pub enum Manner {
    /// Not at all.
    Silent,
    /// Each in a line that the next is written over. One that failed has a line more, below what it printed.
    Over,
    /// Each in a line of its own; one that failed has a line more. What one printed, where that was kept, is below its line,
    /// which is shown once more.
    Listed,
}

/// A runner that means what another means, and shows each command before that runs it. Beside it others may show theirs.
#[derive(Drop)]
pub struct Progress<'a, R: Runner, S: Screen> {
    runner: R,
    teller: Teller<'a, S>,
}

impl<'a, R: Runner, S: Screen> Progress<'a, R, S> {
    /// A runner that counts its commands with those of the others.
    pub fn new(runner: R, screen: S, manner: Manner, started: &'a Started) -> Progress<'a, R, S>
        ensures { result.runner ≡ runner }
    {
        Progress {
            runner,
            teller: Teller {
                screen,
                manner,
                started,
            },
        }
    }

    /// Gives the runner back.
    pub fn into_runner(self) -> R
        ensures { result ≡ self.entry.runner }
    {
        self.runner
    }
}

impl<R: Runner, S: Screen> Runner for Progress<'_, R, S> {
    ghost tells = { R.tells };

    ghost next = { R.next };

    ghost tells_ran = { R.tells_ran };

    ghost ran = { λ progress. R.ran progress.runner };

    ghost faults = { λ progress. R.faults progress.runner };

    fn run<V: View>(
        &mut self,
        alloc: Global,
        dir: &Path,
        text: &Text,
        view: &mut V,
    ) -> Result<Ended, RunFailed> {
        let count = self.teller.start(alloc, dir, text);
        let ended = self.runner.run(alloc, dir, text, view);
        self.teller.end(alloc, count, dir, text, status_of(&ended));
        ended
    }

    fn faults(&self) -> u64 {
        self.runner.faults()
    }
}

/// What shows commands.
#[derive(Drop)]
struct Teller<'a, S: Screen> {
    screen: S,
    manner: Manner,
    started: &'a Started,
}

impl<S: Screen> Teller<'_, S> {
    /// Shows a command that is to be run, and counts it.
    fn start(&mut self, alloc: Global, dir: &Path, text: &Text) -> Count {
        let count = self.started.begin();
        match self.manner {
            Manner::Silent => {}
            Manner::Over => self.show(&over(alloc, count, dir, text)),
            Manner::Listed => self.show(&own(alloc, count, dir, text)),
        }
        count
    }

    /// Shows what a command printed, where that was kept, and that it failed, where its status isn't 0.
    fn end(&mut self, alloc: Global, count: Count, dir: &Path, text: &Text, status: u8) {
        self.started.end();
        if self.screen.keeps() {
            self.tell_kept(alloc, count, dir, text, status);
        } else if status != 0 {
            self.tell_failed(alloc, dir, text, status);
        }
    }

    /// Shows a command that ended with this status, in one piece: others may show theirs meanwhile.
    fn tell_failed(&mut self, alloc: Global, dir: &Path, text: &Text, status: u8) {
        match self.manner {
            Manner::Silent => {}
            Manner::Over => self.show(&failed_below(alloc, dir, text, status)),
            Manner::Listed => self.show(&failed(alloc, dir, text, status)),
        }
    }

    /// Shows what a command printed below its line, and the line of its failure below that.
    fn tell_kept(&mut self, alloc: Global, count: Count, dir: &Path, text: &Text, status: u8) {
        let above = self.above(alloc, count, dir, text);
        let below = self.below(alloc, dir, text, status);
        let around = Around {
            clear: self.clear(),
            above: shown(&above),
            below: shown(&below),
        };
        self.screen.show_kept(&around);
    }

    /// What takes away the line that may be there.
    fn clear(&self) -> &'static str {
        match self.manner {
            Manner::Over => CLEAR,
            Manner::Silent | Manner::Listed => "",
        }
    }

    /// The line of a command above what it printed.
    fn above(
        &self,
        alloc: Global,
        count: Count,
        dir: &Path,
        text: &Text,
    ) -> Result<String, AllocError> {
        match self.manner {
            Manner::Silent => Ok(String::new(alloc)),
            Manner::Over => own_cut(alloc, count, dir, text),
            Manner::Listed => own(alloc, count, dir, text),
        }
    }

    /// The line below it of a command that ended with this status.
    fn below(
        &self,
        alloc: Global,
        dir: &Path,
        text: &Text,
        status: u8,
    ) -> Result<String, AllocError> {
        if status == 0 || self.manner == Manner::Silent {
            Ok(String::new(alloc))
        } else {
            failed(alloc, dir, text, status)
        }
    }

    /// Shows a line; nothing where there was no memory for it.
    fn show(&mut self, line: &Result<String, AllocError>) {
        if let Ok(line) = line {
            self.screen.show(line.as_str());
        }
    }
}

/// A line as it is shown: nothing where there was no memory for it.
fn shown(line: &Result<String, AllocError>) -> &str {
    match line {
        Ok(line) => line.as_str(),
        Err(_) => "",
    }
}

/// The status of a command that ended, and 0 of one that gave no run.
fn status_of(ended: &Result<Ended, RunFailed>) -> u8 {
    match ended {
        Ok(Ended { status, .. }) => *status,
        Err(_) => 0,
    }
}
