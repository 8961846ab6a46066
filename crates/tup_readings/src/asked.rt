//! Who answers what the reading of a folder asks.
ghost use Rattle.std.specs.Prelude.{◌≡◌, IfOk, IfErr, None, if◌then◌else◌};
ghost use Rattle.std.specs.FinMap as finite;
ghost use Rattle.tup_readings.specs.Answers as specs;
ghost use Rattle.tup_rule.specs.declared.question.Kind.TheVariants.{File, Nothing};
ghost use Rattle.tup_rule.specs.declared.question.Question.TheVariants as asks;
ghost use Rattle.tup_rule.specs.declared.question.Told.TheVariants as told;
ghost use Rattle.tup_rule_line.specs.Making.{is_made};
ghost use Rattle.tup_vars.specs.Table.{look};
ghost use Rattle.tup_readings.specs.Asked.{IsWait};

use crate::done::Done;
use crate::parted::parted;
use crate::sources::Sources;
use std::alloc::{AllocError, AllocFailed, Global};
use std::collections::BTreeSet;
use thiserror::Error;
use tup_path::{Bytes, Path, Text, Texts};
use tup_query::Env;
use tup_rule::{Draft, Kind, Question, Told};
use tup_rule_line::add_made;
use tup_vars::{Config, Stopped};

/// Why a question isn't answered.
#[derive(Debug, Drop, Error)]
pub enum Stop {
    /// The answer waits for the reading of this folder.
    #[error("the folder {0} has to be read first")]
    Awaits(Path),
    /// There was no memory.
    #[error("no memory")]
    Memory,
}

impl From<AllocError> for Stop {
    ghost use Rattle.std.specs.Prelude.{◌≡◌};
    ghost use Rattle.tup_readings.specs.declared.asked.Stop.TheVariants.{Memory};

    ghost from_gives = { λ _ stop. stop ≡ Memory };

    fn from(_: AllocError) -> Stop {
        Stop::Memory
    }
}

impl<T: Drop> From<AllocFailed<T>> for Stop {
    ghost use Rattle.std.specs.Prelude.{◌≡◌};
    ghost use Rattle.tup_readings.specs.declared.asked.Stop.TheVariants.{Memory};

    ghost from_gives = { λ _ stop. stop ≡ Memory };

    fn from(_: AllocFailed<T>) -> Stop {
        Stop::Memory
    }
}

/// Answers the reading of one folder, by the sources and by the readings of other folders.
#[derive(Drop)]
pub struct Asked<'a, 'f> {
    pub sources: &'a Sources<'f>,
    pub settings: &'a Config,
    pub readings: &'a Done,
    pub reader: &'a Path,
    /// Why the last question wasn't answered.
    pub stop: Option<Stop>,
}

impl Asked<'_, '_> {
    /// What is told, where the answer waits for no reading.
    pub fn told(&self, alloc: Global, question: &Question) -> Result<Told, Stop>
        ensures told { IfOk result (λ told. told ≡ specs.answer self.now.sources.now
            self.now.settings.now self.now.readings.now self.now.reader.now question.now) }
        ensures ready { IfOk result (λ told. specs.awaited self.now.sources.now
            self.now.readings.now self.now.reader.now question.now ≡ None) }
        ensures waits { IfErr result (IsWait (specs.awaited self.now.sources.now
            self.now.readings.now self.now.reader.now question.now)) }
    {
        match question {
            Question::Content(path) => self.content(path),
            Question::Config(name) => self.setting(name),
            Question::Names(dir) => self.names(alloc, dir),
            Question::Kind(path) => self.kind(alloc, path),
        }
    }

    /// What a source holds.
    fn content(&self, path: &Path) -> Result<Told, Stop>
        ensures told { IfOk result (λ found. found
            ≡ told.Content (finite.get self.now.sources.now path.now)) }
        ensures memory { IfErr result (λ stop. stop ≡ Stop.Memory) }
    {
        match self.sources.content(path) {
            Some(content) => Ok(Told::Content(Some(content.clone()?))),
            None => Ok(Told::Content(None)),
        }
    }

    /// What tup.config sets a name to.
    fn setting(&self, name: &Text) -> Result<Told, Stop>
        ensures told { IfOk result (λ found. found
            ≡ told.Config (look self.now.settings.now name.now)) }
        ensures memory { IfErr result (λ stop. stop ≡ Stop.Memory) }
    {
        match self.settings.get(name) {
            Some(value) => Ok(Told::Config(Some(value.clone()?))),
            None => Ok(Told::Config(None)),
        }
    }

    /// The names of the files in a folder.
    fn names(&self, alloc: Global, dir: &Path) -> Result<Told, Stop>
        ensures told { IfOk result (λ found. found ≡ told.Names (specs.names_in self.now.sources.now
            self.now.readings.now self.now.reader.now dir.now)) }
        ensures ready { IfOk result (λ told. specs.awaited self.now.sources.now
            self.now.readings.now self.now.reader.now (asks.Names dir.now) ≡ None) }
        ensures waits { IfErr result (IsWait (specs.awaited self.now.sources.now
            self.now.readings.now self.now.reader.now (asks.Names dir.now))) }
    {
        let drafts = self.seen_drafts(alloc, dir)?;
        let mut names = self.sources.names(alloc, dir)?;
        add_made(&mut names, dir, drafts)?;
        Ok(Told::Names(listed(alloc, names)?))
    }

    /// What stands at a path.
    fn kind(&self, alloc: Global, path: &Path) -> Result<Told, Stop>
        ensures told { IfOk result (λ found. found ≡ told.Kind (specs.kind_at self.now.sources.now
            self.now.readings.now self.now.reader.now path.now)) }
        ensures ready { IfOk result (λ told. specs.awaited self.now.sources.now
            self.now.readings.now self.now.reader.now (asks.Kind path.now) ≡ None) }
        ensures waits { IfErr result (IsWait (specs.awaited self.now.sources.now
            self.now.readings.now self.now.reader.now (asks.Kind path.now))) }
    {
        if self.sources.content(path).is_some() {
            return Ok(Told::Kind(Kind::File));
        }
        if self.sources.is_folder(path) {
            return Ok(Told::Kind(Kind::Dir));
        }
        match parted(alloc, path)? {
            Some((dir, _)) => self.kind_in(alloc, &dir, path),
            None => Ok(Told::Kind(Kind::Nothing)),
        }
    }

    /// What stands at a path of a folder where no source is.
    fn kind_in(&self, alloc: Global, dir: &Path, path: &Path) -> Result<Told, Stop>
        ensures told { IfOk result (λ found. found ≡ told.Kind (specs.made_kind
            self.now.sources.now self.now.readings.now self.now.reader.now dir.now path.now)) }
        ensures ready { IfOk result (λ told. specs.awaited self.now.sources.now
            self.now.readings.now self.now.reader.now (asks.Names dir.now) ≡ None) }
        ensures waits { IfErr result (IsWait (specs.awaited self.now.sources.now
            self.now.readings.now self.now.reader.now (asks.Names dir.now))) }
    {
        match self.sources.home(alloc, dir)? {
            Some(home) => self.other_kind(home, path),
            None => Ok(Told::Kind(Kind::Nothing)),
        }
    }

    /// What the rules of another folder make at a path.
    fn other_kind(&self, home: &Path, path: &Path) -> Result<Told, Stop>
        ensures told { IfOk result (λ found. found ≡ told.Kind (if is_made (specs.other_drafts
            self.now.readings.now self.now.reader.now home.now) path.now then File else Nothing)) }
        ensures ready { IfOk result (λ told. specs.unread self.now.sources.now
            self.now.readings.now self.now.reader.now home.now ≡ None) }
        ensures waits { IfErr result (IsWait (specs.unread self.now.sources.now
            self.now.readings.now self.now.reader.now home.now)) }
    {
        self.other_drafts(home)?;
        Ok(Told::Kind(if self.other_makes(home, path) {
            Kind::File
        } else {
            Kind::Nothing
        }))
    }

    /// Whether the rules of another folder make a path. They are looked up, not walked.
    fn other_makes(&self, home: &Path, path: &Path) -> bool
        ensures { result ≡ is_made (specs.other_drafts self.now.readings.now self.now.reader.now
            home.now) path.now }
    {
        self.reader != home && self.readings.makes(home, path)
    }

    /// The rules that may make files in a folder: those of its home.
    fn seen_drafts(&self, alloc: Global, dir: &Path) -> Result<&[Draft], Stop>
        ensures seen { IfOk result (λ drafts. drafts.now ≡ specs.seen_drafts
            self.now.sources.now self.now.readings.now self.now.reader.now dir.now) }
        ensures ready { IfOk result (λ drafts. specs.awaited self.now.sources.now
            self.now.readings.now self.now.reader.now (asks.Names dir.now) ≡ None) }
        ensures waits { IfErr result (IsWait (specs.awaited self.now.sources.now
            self.now.readings.now self.now.reader.now (asks.Names dir.now))) }
    {
        match self.sources.home(alloc, dir)? {
            Some(home) => self.other_drafts(home),
            None => Ok(&[]),
        }
    }

    /// The rules of another folder's reading; of its own the reading knows itself.
    fn other_drafts(&self, home: &Path) -> Result<&[Draft], Stop>
        ensures seen { IfOk result (λ drafts. drafts.now
            ≡ specs.other_drafts self.now.readings.now self.now.reader.now home.now) }
        ensures ready { IfOk result (λ drafts. specs.unread self.now.sources.now
            self.now.readings.now self.now.reader.now home.now ≡ None) }
        ensures waits { IfErr result (IsWait (specs.unread self.now.sources.now
            self.now.readings.now self.now.reader.now home.now)) }
    {
        if self.reader == home {
            return Ok(&[]);
        }
        match self.readings.get(home) {
            Some(reading) => Ok(reading.drafts.as_slice()),
            None if self.sources.has_tupfile(home) => Err(Stop::Awaits(home.clone()?)),
            None => Ok(&[]),
        }
    }
}

impl Env for Asked<'_, '_> {
    ghost use Rattle.std.specs.Prelude.{None, true};
    ghost use Rattle.tup_readings.specs.Asked.{answer_or_misfit, stopped_at};

    ghost tells = { true };

    ghost answers = { λ asked. answer_or_misfit
        asked.sources.now asked.settings.now asked.readings.now asked.reader.now };

    ghost stopped = { λ asked. stopped_at
        asked.sources.now asked.readings.now asked.reader.now asked.stop };

    ghost asked = { λ _. None };

    fn answer(&mut self, alloc: Global, question: &Question) -> Result<Told, Stopped> {
        match self.told(alloc, question) {
            Ok(told) => {
                self.stop = None;
                Ok(told)
            }
            Err(stop) => {
                self.stop = Some(stop);
                Err(Stopped)
            }
        }
    }
}

/// Names as a list.
fn listed(alloc: Global, names: BTreeSet<Text>) -> Result<Texts, AllocError>
    ensures { IfOk result (λ list. list ≡ names.keys) }
{
    Ok(Texts::from_vec(names.into_iter().collect(alloc)?))
}
