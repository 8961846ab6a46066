//! The folders in which the processes of a command work.
ghost use Rattle.std.specs.Prelude.{◌≡◌, IfOk, OnOk};
ghost use Rattle.tup_strace.specs.Folders as specs;

use crate::acts::copied;
use crate::by_process::ByProcess;
use std::alloc::{AllocError, Global};
use tup_path::Bytes;

/// In which folder each process of a command works: in that of the one that made it, until it enters another. Threads share
/// the folder of their process.
#[derive(Drop)]
pub(crate) struct Folders {
    /// Where the command began.
    pub(crate) dir: Bytes,
    /// The process whose folder another one has, or itself.
    pub(crate) owners: ByProcess,
    /// The process that made another.
    pub(crate) parents: ByProcess,
    /// The folder of each process that did something.
    pub(crate) entered: ByProcess,
}

impl Folders {
    /// The folders of a command that begins in one, and of whose processes none is known.
    pub(crate) fn new(alloc: Global, dir: &[u8]) -> Result<Folders, AllocError>
        ensures { IfOk result (λ folders. folders ≡ specs.none_entered dir.now) }
    {
        Ok(Folders {
            dir: copied(alloc, dir)?,
            owners: ByProcess::new(alloc),
            parents: ByProcess::new(alloc),
            entered: ByProcess::new(alloc),
        })
    }

    /// A process made a child, which shares its folder or not.
    pub(crate) fn bear(
        &mut self,
        parent: &Bytes,
        child: &Bytes,
        shares: bool,
    ) -> Result<(), AllocError>
        ensures { OnOk result
            (self.new ≡ specs.with_child self.old parent.now child.now shares) }
    {
        let owner = if shares {
            self.owner_of(parent).clone()?
        } else {
            child.clone()?
        };
        self.owners.insert(child, owner)?;
        let parent = parent.clone()?;
        self.parents.insert(child, parent)
    }

    /// The process whose folder a process has.
    fn owner_of<'a>(&'a self, process: &'a Bytes) -> &'a Bytes
        ensures { result.now ≡ specs.owner_of self.now process.now }
    {
        match self.owners.get(process) {
            Some(owner) => owner,
            None => process,
        }
    }

    /// Whether a process is known to have done something.
    pub(crate) fn is_known(&self, process: &Bytes) -> bool
        ensures { result ≡ specs.is_known self.now process.now }
    {
        self.entered.contains(self.owner_of(process))
    }

    /// The folder of a process.
    pub(crate) fn folder_of(&self, process: &Bytes) -> &[u8]
        ensures { result.now ≡ specs.folder_of self.now process.now }
    {
        let owner = self.owner_of(process);
        match self.entered.get(owner) {
            Some(folder) => folder.as_slice(),
            None => self.inherited(owner),
        }
    }

    /// The folder in which a process begins: that of the one that made it.
    fn inherited(&self, process: &Bytes) -> &[u8]
        ensures { result.now ≡ specs.inherited self.now process.now }
    {
        match self.parents.get(process) {
            Some(parent) => self.last(self.owner_of(parent)),
            None => self.dir.as_slice(),
        }
    }

    /// The folder that a process entered last, or else that in which the command began.
    fn last(&self, process: &Bytes) -> &[u8]
        ensures { result.now ≡ specs.last_of self.now process.now }
    {
        match self.entered.get(process) {
            Some(folder) => folder.as_slice(),
            None => self.dir.as_slice(),
        }
    }

    /// A process enters a folder.
    pub(crate) fn enter(&mut self, process: &Bytes, path: Bytes) -> Result<(), AllocError>
        ensures { OnOk result (self.new ≡ specs.with_folder self.old process.now path) }
    {
        let owner = self.owner_of(process).clone()?;
        self.entered.insert(&owner, path)
    }

    /// A process did something: where no folder is known of it, it works in that of the other.
    pub(crate) fn settle(
        &mut self,
        alloc: Global,
        process: &Bytes,
        other: &Bytes,
    ) -> Result<(), AllocError>
        ensures { OnOk result (self.new ≡ specs.settled self.old process.now other.now) }
    {
        if self.is_known(process) {
            return Ok(());
        }
        let path = copied(alloc, self.folder_of(other))?;
        self.enter(process, path)
    }
}
