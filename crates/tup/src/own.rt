//! What is in the program's own folder of a project beside the store: the options of this checkout, and what keeps others away.
//!
//! Each place is looked at before it is opened, and no link in it is followed: so nothing that is there can hang the program,
//! or have it read or write anything elsewhere.
use crate::top::Top;
use std::alloc::{AllocError, Global};
use std::fs;
use std::fs::File;
use std::io::Write;
use tup_disk::{Disk, Operation, Refused, Standing};
use tup_fs::Syncs;

/// What keeps a Git repository from having any of the program's own files.
const ALL_IGNORED: &str = "*\n";

/// The program's own folder of a project, and the places in it.
#[derive(Drop)]
pub(crate) struct Own {
    disk: Disk<HostRuntime>,
    folder: String,
    pub(crate) store: String,
    pub(crate) options: String,
    /// New options, till they are durable and come to their place.
    aside: String,
    ignored: String,
}

impl Own {
    /// Those of a project. Nothing is touched yet.
    pub(crate) fn of(
        rt: HostRuntime,
        alloc: Global,
        top: &Top,
        syncs: Syncs,
    ) -> Result<Own, AllocError> {
        Ok(Own {
            disk: Disk::new(rt, alloc, top.root.as_str(), syncs)?,
            folder: top.place(alloc, ".tup")?,
            store: top.place(alloc, ".tup/db")?,
            options: top.place(alloc, ".tup/options")?,
            aside: top.place(alloc, ".tup/options.new")?,
            ignored: top.place(alloc, ".tup/.gitignore")?,
        })
    }

    /// Whether the project has begun.
    pub(crate) fn has_store(&self) -> Result<bool, Refused> {
        self.has_file(self.store.as_str())
    }

    /// Whether it has options of this checkout.
    pub(crate) fn has_options(&self) -> Result<bool, Refused> {
        self.has_file(self.options.as_str())
    }

    /// Whether a regular file is at a place in the folder. Anything else there, or in the folder's place, is a failure.
    fn has_file(&self, place: &str) -> Result<bool, Refused> {
        if !self.stands()? {
            return Ok(false);
        }
        match self.disk.standing(place)? {
            Standing::Nothing => Ok(false),
            Standing::File { .. } => Ok(true),
            Standing::Folder | Standing::Link | Standing::Other => Err(self.disk.in_the_way(place)),
        }
    }

    /// Whether the folder is there.
    fn stands(&self) -> Result<bool, Refused> {
        let folder = self.folder.as_str();
        match self.disk.standing(folder)? {
            Standing::Nothing => Ok(false),
            Standing::Folder => Ok(true),
            Standing::File { .. } | Standing::Link | Standing::Other => {
                Err(self.disk.in_the_way(folder))
            }
        }
    }

    /// Makes the folder where there is none, and keeps what is in it out of a Git repository.
    pub(crate) fn make(&self) -> Result<(), Refused> {
        self.disk.make_unless_there(self.folder.as_str())?;
        match self.disk.standing(self.ignored.as_str())? {
            Standing::Nothing => drop(self.new_file(self.ignored.as_str(), ALL_IGNORED)?),
            _ => {}
        }
        Ok(())
    }

    /// Has the options of this checkout be a text. Whatever stops this, the file has either the options of before or these.
    pub(crate) fn write_options(&self, text: &str) -> Result<(), Refused> {
        self.make()?;
        self.has_options()?;
        let (options, aside) = (self.options.as_str(), self.aside.as_str());
        self.disk.clear(aside)?;
        let file = self.new_file(aside, text)?;
        self.disk.sync_bytes(&file, aside)?;
        let renamed = fs::rename(&self.disk.rt, aside, options);
        self.disk.at(Operation::Rename, options, renamed)?;
        self.disk.sync(self.folder.as_str())
    }

    /// Makes a file that holds a text.
    fn new_file(&self, place: &str, text: &str) -> Result<File, Refused> {
        let made = File::create_new(&self.disk.rt, place);
        let mut file = self.disk.at(Operation::Make, place, made)?;
        let written = file.write_all(text.as_bytes());
        self.disk.at(Operation::Write, place, written)?;
        Ok(file)
    }
}
