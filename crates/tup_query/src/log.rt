//! What a reading asked, and what it was told.
ghost use Rattle.std.specs.Prelude.{◌≡◌, ◌++◌, ◌∷◌, [], true, None, IfOk, OnOk, OnErr, option_map};
ghost use Rattle.tup_query.specs.Log.{fits, told_before, noted_log};

use crate::key::Key;
use indexmap::IndexMap;
use std::alloc::{AllocError, Global};
use std::marker::Model;
use tup_rule::{Answered, Questions, Told};

/// Questions with what was told, in the order of first asking. Contracts see the list of them.
#[derive(Drop)]
pub struct Log {
    told: IndexMap<Key, Told>,
}

impl Model for Log {
    ghost use Rattle.std.specs.Prelude.{List};
    ghost use Rattle.tup_query.specs.Log.{AllOfKind};
    ghost use Rattle.tup_rule.specs.declared.question.Question.{Question};
    ghost use Rattle.tup_rule.specs.declared.question.Told.{Told as Answer};

    ghost Value = { List (Question × Answer) };

    ghost view = { λ log. log.told.entries };

    ghost invariant = { λ log. AllOfKind log.told.entries };
}

impl Log {
    /// Nothing was asked yet.
    pub fn new(alloc: Global) -> Log
        ensures { result ≡ [] }
    {
        Log {
            told: IndexMap::new(alloc),
        }
    }

    /// What was told to a question before.
    pub(crate) fn answer_to(&self, question: &Key) -> Option<&Told>
        ensures { option_map (λ told. told.now) result ≡ told_before self.now question.now }
    {
        self.told.get(question)
    }

    /// Adds a question that was not asked before, with what was told, which has its kind. After a
    /// refusal the log is as it was.
    pub(crate) fn add(&mut self, question: Key, told: Told) -> Result<(), AllocError>
        requires unasked { told_before self.old question ≡ None }
        requires kind { fits question told ≡ true }
        ensures added { OnOk result (self.new ≡ self.old ++ (question, told) ∷ []) }
        ensures kept { OnErr result (self.new ≡ self.old) }
    {
        self.told.insert(question, told)?;
        Ok(())
    }

    /// The log as it is kept: a content by its stamp.
    pub fn noted(self, alloc: Global) -> Result<Questions, AllocError>
        ensures { IfOk result (λ asked. asked ≡ noted_log self) }
    {
        let mut asked = Questions::new(alloc);
        for (key, told) in self.told {
            asked.push(Answered::new(key.question, told.noted()))?;
        }
        Ok(asked)
    }
}
