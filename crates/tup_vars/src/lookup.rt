//! Who answers what tup.config sets.
ghost use Rattle.std.specs.Prelude.{◌≡◌, ℕ, Bool, List, Option, IsTrue, IfOk, is_err};

use std::alloc::Global;
use thiserror::Error;
use tup_path::Text;

/// The lookup can't answer, and keeps the cause to itself.
#[derive(Clone, Copy, Debug, PartialEq, Eq, Error)]
#[error("the lookup has stopped")]
pub struct Stopped;

/// Answers what tup.config sets a name to.
///
/// A lookup may tell what it answers to each name, which no call changes then; clauses on answers
/// stand where it tells. It answers `Stopped` exactly where it has stopped after the call.
pub trait Lookup: Drop {
    /// Whether the lookup tells what it answers.
    ghost tells: { Bool };

    /// What it answers to each name, `None` where the name isn't set.
    ghost answers: { Self → List ℕ → Option (List ℕ) };

    /// Whether it has stopped.
    ghost stopped: { Self → Bool };

    /// The text that a name is set to, or `None`.
    fn config(&mut self, alloc: Global, name: &Text) -> Result<Option<Text>, Stopped>
        ensures answer { IsTrue tells → IfOk result (λ answer. answer ≡ answers self.old name.now) }
        ensures same { IsTrue tells → answers self.new ≡ answers self.old }
        ensures stopped { is_err result ≡ stopped self.new };
}
