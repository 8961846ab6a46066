//! Who answers a reading, and notes what it was asked last.
ghost use Rattle.std.specs.Prelude.{IsTrue, IfOk};
ghost use Rattle.tup_query.specs.Log.{fits};

use std::alloc::Global;
use tup_path::{Bytes, Path, Text, Texts};
use tup_query::Env;
use tup_readings::{Asked, Stop};
use tup_rule::{Kind, Question, Told};
use tup_site::Site;
use tup_vars::Stopped;

/// Answers the reading of one folder by its sources, whose contents it reads from a site.
#[derive(Drop)]
pub(crate) struct Noting<'a, 'f, S: Site> {
    pub by: Asked<'a, 'f>,
    pub site: &'a mut S,
    /// The paths at which something else is told to stand.
    pub passed: &'a [Path],
    /// What is told to stand there.
    pub instead: Kind,
    /// The path of which it was asked last what stands there, and what was told.
    pub last: Option<(Path, Kind)>,
}

impl<S: Site> Noting<'_, '_, S> {
    /// What is told.
    fn told(&mut self, alloc: Global, question: &Question) -> Result<Told, Stop>
        ensures kind { IfOk result (λ told. IsTrue (fits question.now told)) }
    {
        match question {
            Question::Kind(path) => Ok(Told::Kind(self.kind(alloc, question, path)?)),
            Question::Content(path) => Ok(Told::Content(self.content(alloc, question, path)?)),
            Question::Names(_) => Ok(Told::Names(self.names(alloc, question)?)),
            Question::Config(_) => Ok(Told::Config(self.setting(alloc, question)?)),
        }
    }

    /// What is told to stand at a path, which is noted.
    fn kind(&mut self, alloc: Global, question: &Question, path: &Path) -> Result<Kind, Stop> {
        let kind = self.kind_at(alloc, question, path)?;
        self.last = Some((path.clone()?, kind));
        Ok(kind)
    }

    /// What stands at a path, or is told to.
    fn kind_at(&self, alloc: Global, question: &Question, path: &Path) -> Result<Kind, Stop> {
        if self.passed.contains(path) {
            return Ok(self.instead);
        }
        match self.by.told(alloc, question)? {
            Told::Kind(kind) => Ok(kind),
            _ => Ok(Kind::Nothing),
        }
    }

    /// What a source holds.
    fn content(
        &mut self,
        alloc: Global,
        question: &Question,
        path: &Path,
    ) -> Result<Option<Bytes>, Stop> {
        match self.by.told(alloc, question)? {
            Told::Content(Some(_)) => self.read(alloc, path),
            _ => Ok(None),
        }
    }

    /// What the site has at a path.
    fn read(&mut self, alloc: Global, path: &Path) -> Result<Option<Bytes>, Stop> {
        match self.site.get(alloc, path) {
            Ok(content) => Ok(content),
            Err(_) => Err(Stop::Memory),
        }
    }

    /// The names of the files in a folder.
    fn names(&self, alloc: Global, question: &Question) -> Result<Texts, Stop> {
        match self.by.told(alloc, question)? {
            Told::Names(names) => Ok(names),
            _ => Ok(Texts::new(alloc)),
        }
    }

    /// What tup.config sets a name to.
    fn setting(&self, alloc: Global, question: &Question) -> Result<Option<Text>, Stop> {
        match self.by.told(alloc, question)? {
            Told::Config(value) => Ok(value),
            _ => Ok(None),
        }
    }
}

impl<S: Site> Env for Noting<'_, '_, S> {
    ghost use Rattle.std.specs.Prelude.{None, Some, false, true, if◌then◌else◌, is_some};
    ghost use Rattle.tup_rule.specs.declared.question.Told.TheVariants as told;

    ghost tells = { false };

    ghost answers = { λ _ _. told.Content None };

    ghost stopped = { λ noting. if is_some noting.by.stop then Some (λ _. true) else None };

    ghost asked = { λ _. None };

    fn answer(&mut self, alloc: Global, question: &Question) -> Result<Told, Stopped> {
        match self.told(alloc, question) {
            Ok(told) => {
                self.by.stop = None;
                Ok(told)
            }
            Err(stop) => {
                self.by.stop = Some(stop);
                Err(Stopped)
            }
        }
    }
}
