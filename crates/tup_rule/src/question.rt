//! What the reading of a Tupfile asks about the project, and what it is told.
ghost use Rattle.std.specs.Prelude.{◌≡◌, IfOk};
ghost use Rattle.tup_rule.specs.Question.{noted};

use crate::answered::Answered;
use crate::draft::{Draft, Drafts};
use std::alloc::AllocError;
use tup_path::{Bytes, Items, Path, Shared, Text, Texts};
use tup_stamp::{Stamp, stamp_of};

/// What stands at a path.
#[derive(Clone, Copy, PartialEq, Eq)]
pub enum Kind {
    /// Neither a file nor a folder.
    Nothing,
    /// A file.
    File,
    /// A folder.
    Dir,
}

/// What a reading asks.
#[derive(Drop, PartialEq, Eq)]
pub enum Question {
    /// What the source file at this path holds.
    Content(Path),
    /// What tup.config sets this name to.
    Config(Text),
    /// Which files stand in this folder.
    Names(Path),
    /// What stands at this path.
    Kind(Path),
}

impl Clone for Question {
    ghost is_clone = { λ question copy. copy ≡ question };

    fn clone(&self) -> Result<Question, AllocError> {
        Ok(match self {
            Question::Content(path) => Question::Content(path.clone()?),
            Question::Config(name) => Question::Config(name.clone()?),
            Question::Names(dir) => Question::Names(dir.clone()?),
            Question::Kind(path) => Question::Kind(path.clone()?),
        })
    }
}

/// What a reading is told; each answer has the kind of its question.
#[derive(Drop)]
pub enum Told {
    /// What the file holds, or `None` where no source stands there.
    Content(Option<Bytes>),
    /// The value, or `None` where tup.config sets none.
    Config(Option<Text>),
    /// The names of the files in the folder, in byte order.
    Names(Texts),
    /// What stands at the path.
    Kind(Kind),
}

impl Clone for Told {
    ghost is_clone = { λ told copy. copy ≡ told };

    fn clone(&self) -> Result<Told, AllocError> {
        Ok(match self {
            Told::Content(content) => Told::Content(content.clone()?),
            Told::Config(value) => Told::Config(value.clone()?),
            Told::Names(names) => Told::Names(names.clone()?),
            Told::Kind(kind) => Told::Kind(*kind),
        })
    }
}

/// What a reading was told, as it is kept: a content by its stamp.
#[derive(Drop, PartialEq, Eq)]
pub enum Noted {
    /// The stamp of what the file held, or `None` where no source stood there.
    Content(Option<Stamp>),
    /// The value, or `None` where tup.config set none.
    Config(Option<Text>),
    /// The names of the files in the folder, in byte order.
    Names(Texts),
    /// What stood at the path.
    Kind(Kind),
}

impl Clone for Noted {
    ghost is_clone = { λ noted copy. copy ≡ noted };

    fn clone(&self) -> Result<Noted, AllocError> {
        Ok(match self {
            Noted::Content(stamp) => Noted::Content(*stamp),
            Noted::Config(value) => Noted::Config(value.clone()?),
            Noted::Names(names) => Noted::Names(names.clone()?),
            Noted::Kind(kind) => Noted::Kind(*kind),
        })
    }
}

impl Told {
    /// The answer as it is kept: a content by its stamp, all else as it is. It takes no memory.
    pub fn noted(self) -> Noted
        ensures { result ≡ noted self }
    {
        match self {
            Told::Content(content) => {
                Noted::Content(content.map(|bytes| stamp_of(bytes.as_slice())))
            }
            Told::Config(value) => Noted::Config(value),
            Told::Names(names) => Noted::Names(names),
            Told::Kind(kind) => Noted::Kind(kind),
        }
    }
}

/// Questions with what was told, in the order of their first asking.
pub type Questions = Items<Answered>;

/// What the reading of one folder's Tupfile leaves. A copy of it shares both lists.
#[derive(Drop, PartialEq, Eq)]
pub struct Reading {
    /// Its rules, in the order of their lines.
    pub drafts: Shared<Draft>,
    /// What it asked, each question once, and what it was told.
    pub asked: Shared<Answered>,
}

impl Reading {
    /// The reading that left these rules and asked this.
    pub fn new(drafts: Drafts, asked: Questions) -> Result<Reading, AllocError>
        ensures drafts { IfOk result (λ reading. reading.drafts ≡ drafts) }
        ensures asked { IfOk result (λ reading. reading.asked ≡ asked) }
    {
        let drafts = Shared::new(drafts)?;
        let asked = Shared::new(asked)?;
        Ok(Reading { drafts, asked })
    }
}

impl Clone for Reading {
    ghost is_clone = { λ reading copy. copy ≡ reading };

    fn clone(&self) -> Result<Reading, AllocError> {
        Ok(Reading {
            drafts: self.drafts.clone()?,
            asked: self.asked.clone()?,
        })
    }
}
