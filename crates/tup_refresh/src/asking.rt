//! Who answers what the reading of a folder asks, where contents are fetched first.
ghost use Rattle.std.specs.Prelude.{◌≡◌, IsTrue, IfOk, IfErr};
ghost use Rattle.tup_rule.specs.declared.question.Question.TheVariants as asks;
ghost use Rattle.tup_query.specs.Log.{fits};
ghost use Rattle.tup_refresh.specs.Asking.{answer_or_waiting, told_or_misfit, IsHalt};

use crate::fetched::Fetched;
use std::alloc::{AllocError, AllocFailed, Global};
use tup_path::Path;
use tup_query::Env;
use tup_readings::{Asked, Stop};
use tup_rule::{Question, Told};
use tup_vars::Stopped;

/// Why a question isn't answered.
#[derive(Drop)]
pub(crate) enum Halt {
    /// The content of this source wasn't fetched.
    Lacks(Path),
    /// The answer waits for the reading of this folder.
    Awaits(Path),
    /// There was no memory.
    Memory,
}

impl From<AllocError> for Halt {
    ghost use Rattle.std.specs.Prelude.{◌≡◌};
    ghost use Rattle.tup_refresh.specs.declared.asking.Halt.TheVariants.{Memory};

    ghost from_gives = { λ _ halt. halt ≡ Memory };

    fn from(_: AllocError) -> Halt {
        Halt::Memory
    }
}

impl<T: Drop> From<AllocFailed<T>> for Halt {
    ghost use Rattle.std.specs.Prelude.{◌≡◌};
    ghost use Rattle.tup_refresh.specs.declared.asking.Halt.TheVariants.{Memory};

    ghost from_gives = { λ _ halt. halt ≡ Memory };

    fn from(_: AllocFailed<T>) -> Halt {
        Halt::Memory
    }
}

/// Answers the reading of one folder: contents as they were fetched, the rest by the paths of the
/// sources and by the readings of other folders.
#[derive(Drop)]
pub(crate) struct Asking<'a, 'f> {
    pub asked: Asked<'a, 'f>,
    pub fetched: &'a Fetched,
    /// Why the last question wasn't answered.
    pub halt: Option<Halt>,
}

impl Asking<'_, '_> {
    /// What is told, where that is known and waits for no reading.
    fn told(&self, alloc: Global, question: &Question) -> Result<Told, Halt>
        ensures told { IfOk result (λ told. told ≡ told_or_misfit self.now.asked.sources.now
            self.now.asked.settings.now self.now.asked.readings.now self.now.asked.reader.now
            self.now.fetched.now question.now) }
        ensures fits { IfOk result (λ told. IsTrue (fits question.now told)) }
        ensures halts { IfErr result (IsHalt self.now.asked.sources.now
            self.now.asked.readings.now self.now.asked.reader.now self.now.fetched.now
            question.now) }
    {
        match question {
            Question::Content(path) => self.content(path),
            Question::Config(_) | Question::Names(_) | Question::Kind(_) => {
                self.other(alloc, question)
            }
        }
    }

    /// What a source holds, where that was asked for.
    fn content(&self, path: &Path) -> Result<Told, Halt>
        ensures told { IfOk result (λ told. told ≡ told_or_misfit self.now.asked.sources.now
            self.now.asked.settings.now self.now.asked.readings.now self.now.asked.reader.now
            self.now.fetched.now (asks.Content path.now)) }
        ensures fits { IfOk result (λ told. IsTrue (fits (asks.Content path.now) told)) }
        ensures halts { IfErr result (IsHalt self.now.asked.sources.now
            self.now.asked.readings.now self.now.asked.reader.now self.now.fetched.now
            (asks.Content path.now)) }
    {
        if self.fetched.missing.contains(path) {
            return Err(Halt::Lacks(path.clone()?));
        }
        match self.fetched.contents.get(path) {
            Some(content) => Ok(Told::Content(Some(content.clone()?))),
            None => Ok(Told::Content(None)),
        }
    }

    /// What is told of anything else.
    fn other(&self, alloc: Global, question: &Question) -> Result<Told, Halt>
        ensures told { IfOk result (λ told. told ≡ answer_or_waiting self.now.asked.sources.now
            self.now.asked.settings.now self.now.asked.readings.now self.now.asked.reader.now
            question.now) }
        ensures fits { IfOk result (λ told. IsTrue (fits question.now told)) }
        ensures halts { IfErr result (IsHalt self.now.asked.sources.now
            self.now.asked.readings.now self.now.asked.reader.now self.now.fetched.now
            question.now) }
    {
        match self.asked.told(alloc, question) {
            Ok(told) => Ok(told),
            Err(Stop::Awaits(next)) => Err(Halt::Awaits(next)),
            Err(Stop::Memory) => Err(Halt::Memory),
        }
    }
}

impl Env for Asking<'_, '_> {
    ghost use Rattle.std.specs.Prelude.{None, true};
    ghost use Rattle.tup_refresh.specs.Asking.{told_or_misfit, halted_at};

    ghost tells = { true };

    ghost answers = { λ asking. told_or_misfit asking.asked.sources.now asking.asked.settings.now
        asking.asked.readings.now asking.asked.reader.now asking.fetched.now };

    ghost stopped = { λ asking. halted_at asking.asked.sources.now asking.asked.readings.now
        asking.asked.reader.now asking.fetched.now asking.halt };

    ghost asked = { λ _. None };

    fn answer(&mut self, alloc: Global, question: &Question) -> Result<Told, Stopped> {
        match self.told(alloc, question) {
            Ok(told) => {
                self.halt = None;
                Ok(told)
            }
            Err(halt) => {
                self.halt = Some(halt);
                Err(Stopped)
            }
        }
    }
}
