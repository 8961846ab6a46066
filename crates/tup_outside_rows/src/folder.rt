//! A real folder in which rows make and look at files without the site.
use std::alloc::{AllocError, Global};
use std::fs::File;
use std::io::ErrorKind;
use std::os::unix::fs::symlink;
use std::process::Command;
use std::{fs, io};
use tup_rows::{RowFault, Words};

/// A folder, by its place.
#[derive(Drop)]
pub(crate) struct Folder {
    pub(crate) rt: HostRuntime,
    pub(crate) place: String,
}

impl Folder {
    pub(crate) fn answer(&self, alloc: Global, call: &str, said: &Words) -> Words {
        match call {
            "make" => made(alloc, self.make(alloc, said.str_at(0))),
            "write" => made(alloc, self.write(alloc, said.str_at(0), said.word_at(1))),
            "link" => made(alloc, self.link(alloc, said.str_at(0), said.str_at(1))),
            "lengthen" => made(
                alloc,
                self.lengthen(alloc, said.str_at(0), said.number_at(1)),
            ),
            "shell" => made(alloc, self.shell(alloc, said.str_at(0))),
            "file" => holds(alloc, self.read(alloc, said.str_at(0))),
            "stands" => self.stands(alloc, said.str_at(0)),
            "end" => made(alloc, self.end()),
            _ => Words::none(alloc, RowFault::NoSuchCall),
        }
    }

    fn at(&self, alloc: Global, rest: &str) -> Result<String, AllocError> {
        let place = &self.place;
        format!(in alloc; "{place}/{rest}")
    }

    fn make(&self, alloc: Global, rest: &str) -> io::Result<()> {
        fs::create_dir_all(&self.rt, self.at(alloc, rest)?)
    }

    fn write(&self, alloc: Global, rest: &str, content: &[u8]) -> io::Result<()> {
        fs::write(&self.rt, self.at(alloc, rest)?, content)
    }

    fn link(&self, alloc: Global, rest: &str, to: &str) -> io::Result<()> {
        symlink(&self.rt, to, self.at(alloc, rest)?)
    }

    /// Gives a file a length, with zeros behind what it holds.
    fn lengthen(&self, alloc: Global, rest: &str, len: u64) -> io::Result<()> {
        File::create(&self.rt, self.at(alloc, rest)?)?.set_len(len)
    }

    /// Runs a line of shell in the folder, for what std can't make.
    fn shell(&self, alloc: Global, line: &str) -> io::Result<()> {
        let place = &self.place;
        let line = format!(in alloc; "cd '{place}' && {line}")?;
        if self.succeeds(alloc, &line)? {
            return Ok(());
        }
        Err(ErrorKind::Other.into())
    }

    fn succeeds(&self, alloc: Global, line: &str) -> io::Result<bool> {
        let mut shell = Command::new(alloc, "sh")?;
        self.runs(&mut shell, line)
    }

    fn runs(&self, shell: &mut Command, line: &str) -> io::Result<bool> {
        Ok(shell.arg("-c")?.arg(line)?.status(&self.rt)?.success())
    }

    fn read(&self, alloc: Global, rest: &str) -> io::Result<String> {
        fs::read_to_string(&self.rt, self.at(alloc, rest)?)
    }

    /// Whether anything stands there, a link too.
    fn stands(&self, alloc: Global, rest: &str) -> Words {
        match self.look(alloc, rest) {
            Ok(()) => Words::yes_or_no(alloc, true),
            Err(e) if e.kind() == ErrorKind::NotFound => Words::yes_or_no(alloc, false),
            Err(_) => Words::none(alloc, RowFault::OtherKind),
        }
    }

    fn look(&self, alloc: Global, rest: &str) -> io::Result<()> {
        fs::symlink_metadata(&self.rt, self.at(alloc, rest)?)?;
        Ok(())
    }

    /// Takes the folder away with all that is in it.
    fn end(&self) -> io::Result<()> {
        fs::remove_dir_all(&self.rt, self.place.as_str())
    }
}

/// What the row made, or that it can't be made here.
pub(crate) fn made(alloc: Global, answer: io::Result<()>) -> Words {
    match answer {
        Ok(()) => Words::done(alloc),
        Err(_) => Words::none(alloc, RowFault::OtherKind),
    }
}

/// What a file holds.
fn holds(alloc: Global, content: io::Result<String>) -> Words {
    match content {
        Ok(text) => Words::word(alloc, text.as_bytes()),
        Err(_) => Words::none(alloc, RowFault::OtherKind),
    }
}
