//! What a view was asked, for contracts alone.
ghost use Rattle.std.specs.Prelude.{◌≡◌, ◌++◌, ◌∷◌, [], OnOk, OnErr};

use crate::step::Answer;
use std::alloc::{AllocError, Global};
use std::marker::Model;
use std::snapshot::Snapshot;
use tup_path::Text;

/// What a view was asked, in order, each with its answer. Contracts see the list; a program keeps no text and no content of it.
#[derive(Drop)]
pub(crate) struct GhostAsks {
    asks: Vec<(Snapshot<Text>, Snapshot<Answer>)>,
}

impl Model for GhostAsks {
    ghost use Rattle.std.specs.Prelude.{map};
    ghost use Rattle.tup_runner.specs.Next.{Asks};
    ghost use Rattle.tup_runner.specs.Remembered.{remembered};

    ghost Value = { Asks };

    ghost view = { λ g. map remembered g.asks.items };
}

impl GhostAsks {
    /// Nothing was asked yet. It takes no memory.
    pub(crate) fn new(alloc: Global) -> GhostAsks
        ensures { result ≡ [] }
    {
        GhostAsks {
            asks: Vec::new(alloc),
        }
    }

    /// Adds an ask with its answer, which are only looked at.
    pub(crate) fn push(&mut self, text: &Text, answer: &Answer) -> Result<(), AllocError>
        ensures ok { OnOk result (self.new ≡ self.old ++ (text.now, answer.now) ∷ []) }
        ensures err { OnErr result (self.new ≡ self.old) }
    {
        Ok(self.asks.push((Snapshot::of(text), Snapshot::of(answer)))?)
    }
}
