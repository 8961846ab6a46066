//! What came of a command.
ghost use Rattle.std.specs.Prelude.{◌≡◌, IsTrue};
ghost use Rattle.tup_runner.specs.Honest.{EndsAfter};

use crate::ghost_asks::GhostAsks;
use crate::runner::Runner;
use crate::step::Ended;
use std::marker::PhantomData;
use tup_path::{Path, Text};

/// What came of a command: how it ended, and what it asked, with the answers, for contracts alone. It is the runner's
/// meaning over these answers, and is made by `perform` alone.
#[derive(Drop)]
pub struct Report<R: Runner> {
    pub(crate) dir: Path,
    pub(crate) text: Text,
    pub(crate) asks: GhostAsks,
    pub(crate) ended: Ended,
    pub(crate) of: PhantomData<R>,
    ghost means: { IsTrue R.tells → EndsAfter (R.next dir text) asks ended },
}

impl<R: Runner> Report<R> {
    /// How it ended.
    pub fn ended(&self) -> &Ended
        ensures { result.now ≡ self.now.ended }
    {
        &self.ended
    }
}
