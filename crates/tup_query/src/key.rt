//! A question as the key of what was told to it.
ghost use Rattle.std.specs.Prelude.{◌≡◌};
ghost use Rattle.std.specs.Hash as fed;
ghost use Rattle.std.specs.Hash.{same_Alike};
ghost use Rattle.std.specs.Cmp.{decided, partial_equiv_from_equiv};
ghost use Rattle.tup_query.specs.Log.{same_question};
ghost use Rattle.tup_query.specs.Key.{writes_of, same_question-decides};

use std::hash::{Hash, Hasher};
use std::marker::Model;
use tup_rule::Question;

/// A question; two are equal where the same is asked.
#[derive(Drop)]
pub(crate) struct Key {
    pub(crate) question: Question,
}

impl Model for Key {
    ghost use Rattle.tup_rule.specs.declared.question.Question.{Question as Asked};

    ghost Value = { Asked };

    ghost view = { λ key. key.question };
}

impl PartialEq for Key {
    ghost eq = { same_question };

    ghost laws = { partial_equiv_from_equiv (decided same_question same_question-decides) };

    fn eq(&self, other: &Key) -> bool {
        match (&self.question, &other.question) {
            (Question::Content(one), Question::Content(other)) => one == other,
            (Question::Config(one), Question::Config(other)) => one == other,
            (Question::Names(one), Question::Names(other)) => one == other,
            (Question::Kind(one), Question::Kind(other)) => one == other,
            _ => false,
        }
    }
}

impl Eq for Key {
    ghost laws = { decided same_question same_question-decides };
}

impl Hash for Key {
    ghost hash_input = { writes_of };

    ghost respects_eq = { (same_Alike writes_of same_question-decides).fed };

    fn hash<H: Hasher>(&self, state: &mut H) {
        match &self.question {
            Question::Content(path) => path.hash(state),
            Question::Config(name) => name.hash(state),
            Question::Names(dir) => dir.hash(state),
            Question::Kind(path) => path.hash(state),
        }
    }
}
