//! What a call says.
ghost use Rattle.std.specs.Prelude.{◌≡◌, ◌++◌, ◌∷◌, [], IfOk, OnOk, unwrap_or};
ghost use Rattle.tup_strace.specs.Said.{is_whole as whole_test, place_from as place_named, nothing_said, based, naming, wording, in_arguments, in_outcome, in_opened, with_token, said_of};

use crate::folders::Folders;
use crate::linked::led;
use std::alloc::{AllocError, Global};
use tup_path::{Bytes, Items};
use tup_trace::Token;

/// Where in a call a part stands.
#[derive(Clone, Copy)]
pub(crate) enum Stretch {
    Arguments,
    /// Right behind the sign that ends the arguments.
    Outcome,
    /// Right behind the number that the call gave.
    Opened,
    Over,
}

/// What a call says, as far as its parts were read.
#[derive(Drop)]
pub(crate) struct Said {
    pub(crate) stretch: Stretch,
    /// The places that its texts name, in their order; an empty one for an empty text.
    pub(crate) places: Items<Bytes>,
    /// The other words of its arguments, its flags among them.
    pub(crate) words: Items<Bytes>,
    /// The path of the descriptor before the next text.
    pub(crate) base: Option<Bytes>,
    /// The first word of its result.
    pub(crate) outcome: Option<Bytes>,
    /// The path of the descriptor that it gave.
    pub(crate) opened: Option<Bytes>,
    /// The word right behind its result: of a call that failed, the name of its error.
    pub(crate) fault: Option<Bytes>,
}

impl Said {
    /// What a call of a process with these parts says, where the processes work in these folders.
    pub(crate) fn of(
        alloc: Global,
        folders: &Folders,
        process: &Bytes,
        parts: &[Token],
    ) -> Result<Said, AllocError>
        ensures { IfOk result (λ said. said ≡ said_of folders.now process.now parts.now) }
    {
        let mut said = Said::nothing(alloc);
        for part in parts {
            said.read(alloc, folders, process, part)?;
        }
        Ok(said)
    }

    /// Nothing yet.
    fn nothing(alloc: Global) -> Said
        ensures { result ≡ nothing_said }
    {
        Said {
            stretch: Stretch::Arguments,
            places: Items::new(alloc),
            words: Items::new(alloc),
            base: None,
            outcome: None,
            opened: None,
            fault: None,
        }
    }

    /// Reads a part.
    fn read(
        &mut self,
        alloc: Global,
        folders: &Folders,
        process: &Bytes,
        part: &Token,
    ) -> Result<(), AllocError>
        ensures { OnOk result
            (self.new ≡ with_token folders.now process.now self.old part.now) }
    {
        match self.stretch {
            Stretch::Arguments => self.argument(alloc, folders, process, part),
            Stretch::Outcome => self.outcome(part),
            Stretch::Opened => self.opened(part),
            Stretch::Over => Ok(()),
        }
    }

    /// Reads a part of the arguments.
    fn argument(
        &mut self,
        alloc: Global,
        folders: &Folders,
        process: &Bytes,
        part: &Token,
    ) -> Result<(), AllocError>
        ensures { OnOk result
            (self.new ≡ in_arguments folders.now process.now self.old part.now) }
    {
        match part {
            Token::Word(word) => self.word(word),
            Token::Quoted(text) => self.name(alloc, folders, process, text.as_slice()),
            Token::Place(path) => self.start(path),
        }
    }

    /// Reads a word of the arguments, or the sign that ends them.
    fn word(&mut self, word: &Bytes) -> Result<(), AllocError>
        ensures { OnOk result (self.new ≡ wording self.old word.now) }
    {
        if word.as_slice() == b"=".as_slice() {
            self.stretch = Stretch::Outcome;
            return Ok(());
        }
        let word = word.clone()?;
        self.words.push(word)?;
        self.base = None;
        Ok(())
    }

    /// Reads a text that names a place.
    fn name(
        &mut self,
        alloc: Global,
        folders: &Folders,
        process: &Bytes,
        text: &[u8],
    ) -> Result<(), AllocError>
        ensures { OnOk result (self.new ≡ naming folders.now process.now self.old text.now) }
    {
        let place = match &self.base {
            Some(base) => place_from(alloc, base.as_slice(), text)?,
            None => place_from(alloc, folders.folder_of(process), text)?,
        };
        let place = led(alloc, folders, process, place)?;
        self.places.push(place)?;
        self.base = None;
        Ok(())
    }

    /// Reads the path of a descriptor.
    fn start(&mut self, path: &Bytes) -> Result<(), AllocError>
        ensures { OnOk result (self.new ≡ based self.old path.now) }
    {
        self.base = if is_whole(path.as_slice()) {
            Some(path.clone()?)
        } else {
            None
        };
        Ok(())
    }

    /// Reads what the call gave.
    fn outcome(&mut self, part: &Token) -> Result<(), AllocError>
        ensures { OnOk result (self.new ≡ in_outcome self.old part.now) }
    {
        match part {
            Token::Word(word) => {
                self.outcome = Some(word.clone()?);
                self.stretch = Stretch::Opened;
            }
            _ => self.stretch = Stretch::Over,
        }
        Ok(())
    }

    /// Reads the path of the descriptor that the call gave, or the name of its error.
    fn opened(&mut self, part: &Token) -> Result<(), AllocError>
        ensures { OnOk result (self.new ≡ in_opened self.old part.now) }
    {
        match part {
            Token::Place(path) => self.opened = Some(path.clone()?),
            Token::Word(word) => self.fault = Some(word.clone()?),
            Token::Quoted(_) => {}
        }
        self.stretch = Stretch::Over;
        Ok(())
    }
}

/// Whether a text begins at the root of the system.
fn is_whole(text: &[u8]) -> bool
    ensures { result ≡ whole_test text.now }
{
    match text {
        [first, ..] => *first == b'/',
        [] => false,
    }
}

/// The place that a text names from a folder; the empty text names none.
fn place_from(alloc: Global, folder: &[u8], text: &[u8]) -> Result<Bytes, AllocError>
    ensures { IfOk result (λ place. place ≡ place_named folder.now text.now) }
{
    let mut place = Vec::new(alloc);
    if !text.is_empty() && !is_whole(text) {
        place.extend_from_slice(folder)?;
        place.push(b'/')?;
    }
    place.extend_from_slice(text)?;
    Ok(Bytes::new(place))
}
