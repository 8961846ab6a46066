//! Where a line stands.
ghost use Rattle.std.specs.Prelude.{◌≡◌, IfOk};
ghost use Rattle.tup_query.specs.Spot.{cwd, fault_at, folder_of, spot};
ghost use Rattle.tup_query.specs.Went.{IsRefusal};

use crate::fault::{ParseFault, ReadEnd};
use std::alloc::{AllocError, Global};
use std::marker::Model;
use tup_lex::ParseKind;
use tup_path::{Path, PathFault, Text};

/// A place in a file that is read for a folder.
#[derive(Drop)]
pub struct Spot<'s> {
    dir: &'s Path,
    file: &'s Path,
    line: u32,
}

impl<'s> Model for Spot<'s> {
    ghost use Rattle.tup_query.specs.Spot.{Spot as Place, spot};

    ghost Value = { Place };

    ghost view = { λ s. spot s.dir.now s.file.now s.line };
}

impl<'s> Spot<'s> {
    /// A line of a file that is read for a folder; lines are counted from 1.
    pub fn new(dir: &'s Path, file: &'s Path, line: u32) -> Spot<'s>
        ensures { result ≡ spot dir.now file.now line }
    {
        Spot { dir, file, line }
    }

    /// The folder that is read.
    pub fn dir(&self) -> &'s Path
        ensures { result.now ≡ self.now.dir }
    {
        self.dir
    }

    /// The file.
    pub fn file(&self) -> &'s Path
        ensures { result.now ≡ self.now.file }
    {
        self.file
    }

    /// The line, counted from 1.
    pub fn line(&self) -> u32
        ensures { result ≡ self.now.line }
    {
        self.line
    }

    /// The end with a fault of this kind here, or with want of memory for it.
    pub fn refuse(&self, kind: ParseKind) -> ReadEnd
        ensures { IsRefusal self.now kind result }
    {
        match fault_at(self, kind) {
            Ok(fault) => ReadEnd::Fault(fault),
            Err(_) => ReadEnd::Memory,
        }
    }

    /// The folder in which the file lies.
    pub fn folder(&self, alloc: Global) -> Result<Path, AllocError>
        ensures { IfOk result (λ folder. folder ≡ folder_of self.now.file) }
    {
        match self.file.parent(alloc) {
            Ok(Some(folder)) => Ok(folder),
            Ok(None) => Ok(Path::top(alloc)),
            Err(_) => Err(AllocError),
        }
    }

    /// What `$(TUP_CWD)` stands for.
    pub(crate) fn cwd(&self, alloc: Global) -> Result<Text, AllocError>
        ensures { IfOk result (λ way. way ≡ cwd self.now) }
    {
        match self.folder(alloc)?.show_from(alloc, self.dir) {
            Ok(way) => Ok(way),
            Err(_) => Err(AllocError),
        }
    }
}

/// A fault here.
fn fault_at(at: &Spot, kind: ParseKind) -> Result<ParseFault, AllocError>
    ensures { IfOk result (λ fault. fault ≡ fault_at at.now kind) }
{
    Ok(ParseFault {
        dir: at.dir.clone()?,
        file: at.file.clone()?,
        line: at.line,
        kind,
    })
}
