//! The program's own folder, in which nothing is a file of the tree.
ghost use Rattle.std.specs.Prelude.{IfOk, IfErr};
ghost use Rattle.tup_db.specs.Cause.{IsUncleared, IsUnswept};
ghost use Rattle.tup_db.specs.Own.{IsOwnBelow};

use std::alloc::{AllocError, Global};
use std::fs::File;
use std::rt::Files;
use tup_disk::{Disk, Refused, Standing};

/// The places of the folder and of what stands in it.
#[derive(Drop)]
pub struct Own {
    pub folder: String,
    pub store: String,
    /// A new store, till it is made durable and comes to its place.
    pub aside: String,
    /// What says that an epoch is open.
    pub epoch: String,
    /// The same, till it is made durable and comes to its place.
    pub epoch_aside: String,
}

impl Own {
    /// The places below a folder.
    pub fn new(alloc: Global, root: &str) -> Result<Own, AllocError>
        ensures { IfOk result (IsOwnBelow root.now) }
    {
        Ok(Own {
            folder: format!(in alloc; "{root}/.tup")?,
            store: format!(in alloc; "{root}/.tup/db")?,
            aside: format!(in alloc; "{root}/.tup/db.new")?,
            epoch: format!(in alloc; "{root}/.tup/epoch")?,
            epoch_aside: format!(in alloc; "{root}/.tup/epoch.new")?,
        })
    }

    /// Removes the store, and the epoch's file, that a run which died was making. They are looked for first: a file system that may
    /// only be read refuses a removal also where nothing stands.
    pub fn sweep<R: Files<File = File> + Clone + Drop>(&self, disk: &Disk<R>) -> Result<(), Refused>
        ensures cause { IfErr result (IsUnswept self.now) }
    {
        match disk.standing(self.folder.as_str())? {
            Standing::Nothing => Ok(()),
            Standing::Folder => {
                clear(disk, self.aside.as_str())?;
                clear(disk, self.epoch_aside.as_str())
            }
            _ => Err(disk.in_the_way(self.folder.as_str())),
        }
    }
}

// Removes what stands at a place, if anything does.
fn clear<R: Files<File = File> + Clone + Drop>(disk: &Disk<R>, place: &str) -> Result<(), Refused>
    ensures cause { IfErr result (IsUncleared place.now) }
{
    match disk.standing(place)? {
        Standing::Nothing => Ok(()),
        _ => disk.clear(place),
    }
}
