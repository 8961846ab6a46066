//! What a command left in the stage.
use crate::entries::{Entry, Kind};
use crate::log::shown;
use crate::upper::{written, written_content};
use std::alloc::Global;
use std::collections::BTreeMap;
use std::fs;
use std::fs::{File, Metadata};
use std::os::unix::fs::PermissionsExt;
use std::rt::Files;
use tup_child::{Failure, Tree};
use tup_disk::{Operation, Standing, told};
use tup_path::{Items, Path, Text};
use tup_proc::LogLine;
use tup_site::MAX_DISK_FILE_BYTES;
use tup_strace::Account;

/// The bits of a mode by which others than its owner may read a file.
const OTHERS: u32 = 0o044;

/// What an entry is to the log.
#[derive(Clone, Copy)]
enum Verdict {
    Nothing,
    Written,
    Removed,
    /// A link, a pipe, a socket or a device, which no output can be.
    Strange,
}

/// A file that was written with more bytes than an output may have.
#[derive(Drop)]
pub(crate) struct Large {
    /// Its path from the top.
    pub(crate) text: Text,
    pub(crate) len: u64,
}

/// What standard error says of the writes of a command.
#[derive(Drop)]
pub(crate) struct Remarks {
    /// The texts of what no output can be.
    pub(crate) strange: Items<Text>,
    pub(crate) large: Vec<Large>,
    /// The texts of what only its owner may read, where others may read what the user makes.
    pub(crate) closed: Items<Text>,
}

impl Remarks {
    pub(crate) fn none(alloc: Global) -> Remarks {
        Remarks {
            strange: Items::new(alloc),
            large: Vec::new(alloc),
            closed: Items::new(alloc),
        }
    }

    /// Whether the command can't be a good one.
    pub(crate) fn are_faults(&self) -> bool {
        !self.strange.as_slice().is_empty() || !self.large.is_empty()
    }
}

/// The writes of a command, as they come to the log.
#[derive(Drop)]
pub(crate) struct Writes<'a, R: Files<File = File> + Clone + Drop> {
    pub(crate) tree: &'a Tree<R>,
    pub(crate) dir: &'a Path,
    pub(crate) log: &'a mut Items<LogLine>,
    /// How many files were written.
    pub(crate) count: u32,
    /// Whether others may read what the user makes.
    pub(crate) is_open: bool,
    pub(crate) remarks: &'a mut Remarks,
}

impl<R: Files<File = File> + Clone + Drop> Writes<'_, R> {
    /// Adds all that was written: what the trace shows, and then the rest.
    pub(crate) fn add_all(
        &mut self,
        alloc: Global,
        account: &Account,
        entries: &[Entry],
    ) -> Result<(), Failure> {
        self.add_touched(alloc, account, entries)?;
        self.add_others(alloc, account, entries)
    }

    /// Adds what was written, in the order of the trace.
    fn add_touched(
        &mut self,
        alloc: Global,
        account: &Account,
        entries: &[Entry],
    ) -> Result<(), Failure> {
        let kinds = kinds(alloc, entries)?;
        for path in account.touched.as_slice() {
            let kind = kinds.get(path).copied();
            self.add(alloc, path, kind, account.is_own(path))?;
        }
        Ok(())
    }

    /// Adds what was written and the trace doesn't show.
    fn add_others(
        &mut self,
        alloc: Global,
        account: &Account,
        entries: &[Entry],
    ) -> Result<(), Failure> {
        for entry in entries {
            if !account.touched.contains(&entry.path) {
                self.add(alloc, &entry.path, Some(entry.kind), false)?;
            }
        }
        Ok(())
    }

    /// Adds what is at a path.
    fn add(
        &mut self,
        alloc: Global,
        path: &Path,
        kind: Option<Kind>,
        sure: bool,
    ) -> Result<(), Failure> {
        match self.verdict(path, kind, sure)? {
            Verdict::Nothing => Ok(()),
            Verdict::Written => self.keep(alloc, path),
            Verdict::Removed => self.removed(alloc, path),
            Verdict::Strange => self.refuse(alloc, path),
        }
    }

    /// Notes what no output can be.
    fn refuse(&mut self, alloc: Global, path: &Path) -> Result<(), Failure> {
        self.remarks.strange.push(shown(alloc, path, self.dir)?)?;
        Ok(())
    }

    /// What is at a path: a file that isn't as it was before, or a source that is gone.
    fn verdict(&self, path: &Path, kind: Option<Kind>, sure: bool) -> Result<Verdict, Failure> {
        match kind {
            Some(Kind::File) if sure => Ok(Verdict::Written),
            Some(Kind::File) => self.changed(path),
            Some(Kind::Folder) | Some(Kind::Mark) => self.gone(path),
            Some(Kind::Strange) => Ok(Verdict::Strange),
            None if sure => self.gone(path),
            None => Ok(Verdict::Nothing),
        }
    }

    /// A removal, where a file or a link was.
    fn gone(&self, path: &Path) -> Result<Verdict, Failure> {
        match self.tree.before(path)? {
            Standing::File { .. } | Standing::Link | Standing::Other => Ok(Verdict::Removed),
            Standing::Nothing | Standing::Folder => Ok(Verdict::Nothing),
        }
    }

    /// A write, where the content isn't what it was.
    fn changed(&self, path: &Path) -> Result<Verdict, Failure> {
        if self.is_as_before(path)? {
            Ok(Verdict::Nothing)
        } else {
            Ok(Verdict::Written)
        }
    }

    /// Whether what was written at a path is what the file there held before.
    fn is_as_before(&self, path: &Path) -> Result<bool, Failure> {
        let Standing::File { .. } = self.tree.before(path)? else {
            return Ok(false);
        };
        let before = self.tree.source_content(path)?;
        Ok(before == written_content(self.tree, path)?)
    }

    /// Keeps what was written at a path.
    fn keep(&mut self, alloc: Global, path: &Path) -> Result<(), Failure> {
        let from = written(self.tree, path)?;
        self.measure(alloc, path, from.as_str())?;
        self.take(alloc, from.as_str())?;
        self.note(alloc, path)
    }

    /// Notes a file that is too large, and one that only its owner may read.
    fn measure(&mut self, alloc: Global, path: &Path, place: &str) -> Result<(), Failure> {
        let found = told(
            alloc,
            Operation::Look,
            place,
            fs::metadata(&self.tree.rt, place),
        )?;
        let len = found.len();
        if len > MAX_DISK_FILE_BYTES {
            let text = from_top(alloc, path)?;
            self.remarks.large.push(Large { text, len })?;
        }
        if self.is_open && !is_open(&found) {
            self.remarks.closed.push(from_top(alloc, path)?)?;
        }
        Ok(())
    }

    /// Takes what stands at a place as the next file.
    fn take(&self, alloc: Global, from: &str) -> Result<(), Failure> {
        let to = self.next(alloc)?;
        let renamed = fs::rename(&self.tree.rt, from, to.as_str());
        Ok(told(alloc, Operation::Rename, from, renamed)?)
    }

    /// Keeps that a source was removed, as an empty file.
    fn removed(&mut self, alloc: Global, path: &Path) -> Result<(), Failure> {
        let to = self.next(alloc)?;
        let written = fs::write(&self.tree.rt, to.as_str(), b"".as_slice());
        told(alloc, Operation::Write, to.as_str(), written)?;
        self.note(alloc, path)
    }

    /// The place of the next file.
    fn next(&self, alloc: Global) -> Result<String, Failure> {
        let count = self.count;
        let name = format!(in alloc; "w{count}")?;
        self.tree.staged(name.as_str())
    }

    /// Adds the line of the next file.
    fn note(&mut self, alloc: Global, path: &Path) -> Result<(), Failure> {
        let text = shown(alloc, path, self.dir)?;
        let file = self.number()?;
        self.log.push(LogLine::Wrote { file, text })?;
        Ok(())
    }

    /// Counts a file, and gives its number.
    fn number(&mut self) -> Result<u32, Failure> {
        let file = self.count;
        match file.checked_add(1) {
            Some(count) => {
                self.count = count;
                Ok(file)
            }
            None => Err(Failure::Because("too many files")),
        }
    }
}

/// Whether others than its owner may read a file.
pub(crate) fn is_open(found: &Metadata) -> bool {
    found.permissions().mode() & OTHERS != 0
}

/// A path from the top.
fn from_top(alloc: Global, path: &Path) -> Result<Text, Failure> {
    match path.show(alloc) {
        Ok(text) => Ok(text),
        Err(_) => Err(Failure::Memory),
    }
}

/// The kind of what stands at each path.
fn kinds(alloc: Global, entries: &[Entry]) -> Result<BTreeMap<Path, Kind>, Failure> {
    let mut kinds = BTreeMap::new(alloc);
    for entry in entries {
        kinds.insert(entry.path.clone()?, entry.kind)?;
    }
    Ok(kinds)
}
