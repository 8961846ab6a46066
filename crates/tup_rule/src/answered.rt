//! A question of a reading with what was told.
ghost use Rattle.std.specs.Prelude.{◌≡◌};
ghost use Rattle.tup_rule.specs.Question.{HasKindOf};

use crate::question::{Noted, Question};
use std::alloc::AllocError;
use std::marker::Model;

/// A question with what was told, which has the kind of the question. Contracts see the pair.
#[derive(Drop, PartialEq, Eq)]
pub struct Answered {
    question: Question,
    noted: Noted,
}

impl Model for Answered {
    ghost use Rattle.tup_rule.specs.Question.{HasKindOf};
    ghost use Rattle.tup_rule.specs.declared.question.Noted.{Noted as Kept};
    ghost use Rattle.tup_rule.specs.declared.question.Question.{Question as Asks};

    ghost Value = { Asks × Kept };

    ghost view = { λ one. (one.question, one.noted) };

    ghost inverse = { λ one. record { question = one.0; noted = one.1 } };

    ghost invariant = { λ one. HasKindOf one.question one.noted };
}

impl Answered {
    /// A question and what was told of it.
    pub fn new(question: Question, noted: Noted) -> Answered
        requires { HasKindOf question noted }
        ensures { result ≡ (question, noted) }
    {
        Answered { question, noted }
    }

    pub fn question(&self) -> &Question
        ensures { result.now ≡ self.now.0 }
    {
        &self.question
    }

    /// What was told.
    pub fn noted(&self) -> &Noted
        ensures { result.now ≡ self.now.1 }
    {
        &self.noted
    }

    /// A law: what was told has the kind of the question.
    pub fn has_kind(&self)
        ensures { HasKindOf self.now.0 self.now.1 }
    {
        let _question = &self.question;
    }
}

impl Clone for Answered {
    ghost is_clone = { λ one copy. copy ≡ one };

    fn clone(&self) -> Result<Answered, AllocError> {
        let question = self.question.clone()?;
        let noted = self.noted.clone()?;
        Ok(Answered { question, noted })
    }
}
