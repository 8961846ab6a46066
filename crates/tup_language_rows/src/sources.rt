//! Sources in memory, which answer what a reading asks.
ghost use Rattle.std.specs.Prelude.{◌≡◌, false, IfOk, IsTrue};
ghost use Rattle.tup_rule.specs.declared.question.Question.TheVariants as asked;
ghost use Rattle.tup_query.specs.Log.{fits};

use std::alloc::{AllocError, Global};
use std::collections::BTreeMap;
use tup_path::{Bytes, Path, Text, Texts};
use tup_query::Env;
use tup_rule::{Kind, Question, Told};
use tup_vars::Stopped;

/// Source files, what tup.config sets, and how many questions more are answered.
#[derive(Drop)]
pub(crate) struct Sources {
    files: BTreeMap<Path, Bytes>,
    settings: BTreeMap<Text, Text>,
    left: u64,
    stopped: bool,
}

impl Sources {
    /// Without a file or a setting; it answers everything.
    pub(crate) fn new(alloc: Global) -> Sources {
        Sources {
            files: BTreeMap::new(alloc),
            settings: BTreeMap::new(alloc),
            left: u64::MAX,
            stopped: false,
        }
    }

    /// Puts a file, in place of the one at its path.
    pub(crate) fn put(&mut self, path: Path, content: Bytes) -> Result<(), AllocError> {
        match self.files.insert(path, content) {
            Ok(_) => Ok(()),
            Err(_) => Err(AllocError),
        }
    }

    /// Sets a name.
    pub(crate) fn set(&mut self, name: Text, value: Text) -> Result<(), AllocError> {
        match self.settings.insert(name, value) {
            Ok(_) => Ok(()),
            Err(_) => Err(AllocError),
        }
    }

    /// Answers so many questions more, and then stops.
    pub(crate) fn answers(&mut self, count: u64) {
        self.left = count;
    }

    /// Goes on answering after a stop, as far as it may.
    pub(crate) fn go_on(&mut self)
        ensures { self.new.stopped ≡ false }
    {
        self.stopped = false;
    }

    /// What is told to a question.
    fn told(&self, alloc: Global, question: &Question) -> Result<Told, AllocError>
        ensures { IfOk result (λ told. IsTrue (fits question.now told)) }
    {
        match question {
            Question::Content(path) => self.content(path),
            Question::Config(name) => self.setting(name),
            Question::Names(dir) => self.names(alloc, dir),
            Question::Kind(path) => Ok(Told::Kind(self.kind(path))),
        }
    }

    /// What a file holds, if there is one.
    fn content(&self, path: &Path) -> Result<Told, AllocError>
        ensures { IfOk result (λ told. IsTrue (fits (asked.Content path.now) told)) }
    {
        match self.files.get(path) {
            Some(content) => Ok(Told::Content(Some(content.clone()?))),
            None => Ok(Told::Content(None)),
        }
    }

    /// What a name is set to, if it is.
    fn setting(&self, name: &Text) -> Result<Told, AllocError>
        ensures { IfOk result (λ told. IsTrue (fits (asked.Config name.now) told)) }
    {
        match self.settings.get(name) {
            Some(value) => Ok(Told::Config(Some(value.clone()?))),
            None => Ok(Told::Config(None)),
        }
    }

    /// Which files stand in a folder.
    fn names(&self, alloc: Global, dir: &Path) -> Result<Told, AllocError>
        ensures { IfOk result (λ told. IsTrue (fits (asked.Names dir.now) told)) }
    {
        Ok(Told::Names(self.names_in(alloc, dir)?))
    }

    /// The names of the files in a folder, in byte order.
    fn names_in(&self, alloc: Global, dir: &Path) -> Result<Texts, AllocError> {
        let mut names = Texts::new(alloc);
        for path in self.files.keys() {
            if let Some(name) = name_in(dir, path) {
                names.push(name.clone()?)?;
            }
        }
        Ok(names)
    }

    /// What stands at a path.
    fn kind(&self, path: &Path) -> Kind {
        if self.files.contains_key(path) {
            return Kind::File;
        }
        if self.files.keys().any(|other| other.is_below(path)) {
            return Kind::Dir;
        }
        Kind::Nothing
    }
}

/// The name of a file, if it stands in this folder.
fn name_in<'p>(dir: &Path, path: &'p Path) -> Option<&'p Text> {
    match path.names().split_last() {
        Some((name, folder)) if folder == dir.names() => Some(name),
        _ => None,
    }
}

impl Env for Sources {
    ghost use Rattle.std.specs.Prelude.{Some, None, true, false, if◌then◌else◌};
    ghost use Rattle.tup_rule.specs.declared.question.Kind.TheVariants.{Nothing};
    ghost use Rattle.tup_rule.specs.declared.question.Told.TheVariants as told;

    ghost tells = { false };

    ghost answers = { λ sources question. told.Kind Nothing };

    ghost stopped = { λ sources. if sources.stopped then Some (λ question. true) else None };

    ghost asked = { λ _. None };

    /// Answers a question, unless it has answered all that it was to.
    fn answer(&mut self, alloc: Global, question: &Question) -> Result<Told, Stopped> {
        if self.left == 0 {
            self.stopped = true;
            return Err(Stopped);
        }
        self.left -= 1;
        let told = self.told(alloc, question);
        self.stopped = told.is_err();
        match told {
            Ok(told) => Ok(told),
            Err(_) => Err(Stopped),
        }
    }
}
