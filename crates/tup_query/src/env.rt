//! Who answers what a reading asks.
ghost use Rattle.std.specs.Prelude.{◌≡◌, ◌++◌, ◌∷◌, [], Bool, IsTrue, IfOk, List, Option, option_map};
ghost use Rattle.tup_rule.specs.declared.question.Question.{Question as QuestionValue};
ghost use Rattle.tup_rule.specs.declared.question.Told.{Told as ToldValue};
ghost use Rattle.tup_query.specs.Log.{fits, IsStop};

use std::alloc::Global;
use tup_rule::{Question, Told};
use tup_vars::Stopped;

/// Answers what a reading asks about the project, each question in its kind.
///
/// An environment may tell what it answers to each question, which no call changes then; clauses on
/// answers stand where it tells. It may list what it was asked. It answers `Stopped` exactly where it has stopped after the call, tells
/// something of the question at which it did, and keeps the cause.
pub trait Env: Drop {
    /// Whether the environment tells what it answers.
    ghost tells: { Bool };

    /// What it answers to each question.
    ghost answers: { Self → QuestionValue → ToldValue };

    /// Where it has stopped, a test that the question at which it did passes.
    ghost stopped: { Self → Option (QuestionValue → Bool) };

    /// What it was asked so far, in order, where it lists that.
    ghost asked: { Self → Option (List QuestionValue) };

    /// The answer to a question.
    fn answer(&mut self, alloc: Global, question: &Question) -> Result<Told, Stopped>
        ensures answer { IsTrue tells → IfOk result (λ told. told ≡ answers self.old question.now) }
        ensures kind { IfOk result (λ told. IsTrue (fits question.now told)) }
        ensures same { IsTrue tells → answers self.new ≡ answers self.old }
        ensures asked { asked self.new
            ≡ option_map (λ asked. asked ++ question.now ∷ []) (asked self.old) }
        ensures stopped { IsStop question.now (stopped self.new) result };
}
