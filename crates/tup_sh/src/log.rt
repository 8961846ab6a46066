//! The lines of what a command asked for.
use std::alloc::Global;
use std::fs::File;
use std::rt::Files;
use tup_child::{Failure, Tree};
use tup_disk::Standing;
use tup_path::{Items, Path, Text};
use tup_proc::LogLine;
use tup_stamp::stamp_of;
use tup_strace::Account;

/// The lines of what a command asked for, as they are written.
#[derive(Drop)]
pub(crate) struct Asks<'a, R: Files<File = File> + Clone + Drop> {
    pub(crate) tree: &'a Tree<R>,
    pub(crate) dir: &'a Path,
    pub(crate) account: &'a Account,
    pub(crate) log: Items<LogLine>,
    /// The first path, from the top, of which the command was told something else than what is there now.
    pub(crate) changed: Option<Text>,
}

/// What a path is to the log.
#[derive(Clone, Copy)]
enum Line {
    /// It has none.
    Nothing,
    /// No file is there; a folder may be.
    Absent,
    /// What is there is read.
    Read,
    /// The command was told something else than what is there now.
    Changed,
}

impl<'a, R: Files<File = File> + Clone + Drop> Asks<'a, R> {
    pub(crate) fn of(
        alloc: Global,
        tree: &'a Tree<R>,
        dir: &'a Path,
        account: &'a Account,
    ) -> Asks<'a, R> {
        Asks {
            tree,
            dir,
            account,
            log: Items::new(alloc),
            changed: None,
        }
    }

    /// Adds all that was asked for.
    pub(crate) fn add_all(&mut self, alloc: Global) -> Result<(), Failure> {
        let account = self.account;
        for path in account.asks.as_slice() {
            self.add(alloc, path)?;
        }
        Ok(())
    }

    /// Adds an ask.
    fn add(&mut self, alloc: Global, path: &Path) -> Result<(), Failure> {
        match self.line(path)? {
            Line::Nothing => Ok(()),
            Line::Absent => self.add_absent(alloc, path),
            Line::Read => self.add_found(alloc, path),
            Line::Changed => self.note_changed(alloc, path),
        }
    }

    /// What the log says of a path. A folder is no file: so it is absent, and stays in the log as one that was asked for. What the
    /// command was told of a path that it wrote itself says nothing of before.
    fn line(&self, path: &Path) -> Result<Line, Failure> {
        let standing = self.tree.before(path)?;
        let is_told = !self.account.touched.contains(path);
        Ok(match standing {
            Standing::Folder if self.is_above(path) => Line::Nothing,
            Standing::Folder => Line::Absent,
            Standing::Nothing if self.is_made(path) => Line::Absent,
            Standing::Nothing if is_told && self.account.found.contains(path) => Line::Changed,
            Standing::Nothing => Line::Absent,
            _ if is_told && self.account.missed.contains(path) => Line::Changed,
            _ => Line::Read,
        })
    }

    /// Whether a path is the command's folder, or above it. Such a folder stands as long as the rule does: its Tupfile is in it.
    fn is_above(&self, path: &Path) -> bool {
        self.dir.names().starts_with(path.names())
    }

    /// Whether a path is an own output of the rule or a folder above one, which was made for the command.
    fn is_made(&self, path: &Path) -> bool {
        self.tree
            .own
            .iter()
            .any(|own| own.names().starts_with(path.names()))
    }

    /// Adds that no file is at a path.
    fn add_absent(&mut self, alloc: Global, path: &Path) -> Result<(), Failure> {
        let text = shown(alloc, path, self.dir)?;
        self.log.push(LogLine::Absent { text })?;
        Ok(())
    }

    /// Adds what is at a path: a link is a file that holds where it leads.
    fn add_found(&mut self, alloc: Global, path: &Path) -> Result<(), Failure> {
        let Some(bytes) = self.tree.found(path)? else {
            return self.add_absent(alloc, path);
        };
        let text = shown(alloc, path, self.dir)?;
        let stamp = stamp_of(bytes.as_slice());
        self.log.push(LogLine::Read { stamp, text })?;
        Ok(())
    }

    /// Notes a path of which the command was told something else, if it is the first.
    fn note_changed(&mut self, alloc: Global, path: &Path) -> Result<(), Failure> {
        if self.changed.is_some() {
            return Ok(());
        }
        match path.show(alloc) {
            Ok(text) => {
                self.changed = Some(text);
                Ok(())
            }
            Err(_) => Err(Failure::Memory),
        }
    }
}

/// A path as it is named from the command's folder.
pub(crate) fn shown(alloc: Global, path: &Path, dir: &Path) -> Result<Text, Failure> {
    match path.show_from(alloc, dir) {
        Ok(text) => Ok(text),
        Err(_) => Err(Failure::Memory),
    }
}
