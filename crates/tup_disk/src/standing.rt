//! What stands at a place.
ghost use Rattle.std.specs.Prelude.{◌≡◌, ◌⊎◌, ◌↔◌, ◌-◌, false, take, length, IsTrue, IfOk, IfErr, IsOk, OnOk, string_bytes};
ghost use Rattle.std.specs.BTreeSet.{IsEmpty, contains_text};
ghost use Rattle.tup_disk.specs.Marked.{IsMarked};
ghost use Rattle.tup_disk.specs.Place.{places_to};
ghost use Rattle.tup_disk.specs.Told.{IsNamed, IsBarred, IsBarredAbove, IsUnmade, IsUnopened, IsUnsynced, SaysAbsence};
ghost use Rattle.tup_disk.specs.declared.disk.Syncs.TheVariants.{Skipped};
ghost use Rattle.tup_disk.specs.declared.failure.Refused.TheVariants.{Memory};
ghost use Rattle.tup_disk.specs.declared.standing.Standing.TheVariants.{Folder};

use crate::disk::{Disk, Syncs};
use crate::failure::{Operation, Refused, told};
use crate::stat::{Inode, Stat, stat_of};
use std::alloc::Global;
use std::collections::BTreeSet;
use std::fs::{File, Metadata};
use std::io::ErrorKind;
use std::os::unix::fs::MetadataExt;
use std::rt::Files;
use std::{fs, io};
use tup_path::Path;

/// The bits of a mode by which its owner, its group and all others may run a file.
const RUN_BITS: u32 = 0o111;

/// What stands at a place. A link is one, wherever it leads.
#[derive(Clone, Copy, PartialEq, Eq)]
pub enum Standing {
    Nothing,
    /// A regular file of so many bytes, which has so many names. `runs` says whether anybody may run it.
    File {
        len: u64,
        names: u64,
        runs: bool,
        stat: Stat,
    },
    Folder,
    /// A link, whether anything stands where it leads or not.
    Link,
    /// A pipe, a socket or a device.
    Other,
}

/// The folders that were seen to stand at their places.
#[derive(Drop)]
pub struct Seen {
    pub(crate) folders: BTreeSet<String>,
    /// The folder that was last seen to stand with all above it: files are mostly asked for folder by folder.
    last: Option<Path>,
}

impl Seen {
    /// No folder was seen yet.
    pub fn new(alloc: Global) -> Seen
        ensures { IsEmpty result.folders }
    {
        Seen {
            folders: BTreeSet::new(alloc),
            last: None,
        }
    }

    // Whether a path is in the folder that was last seen.
    fn is_last(&self, path: &Path) -> bool {
        let Some(last) = &self.last else {
            return false;
        };
        match path.names().split_last() {
            Some((_, above)) => above == last.names(),
            None => false,
        }
    }
}

impl<R: Files<File = File> + Clone + Drop> Disk<R> {
    /// What stands at a place of these files.
    pub fn standing(&self, place: &str) -> Result<Standing, Refused>
        ensures cause { IfErr result (IsBarred Operation.Look place.now) }
    {
        standing_at(&self.rt, self.alloc, place)
    }

    /// Opens the file that was listed at a place, and tells what is seen of it before it is read. `None` where it isn't there
    /// any more.
    pub fn open_listed(&self, place: &str, inode: Inode) -> Result<Option<(File, Stat)>, Refused>
        ensures cause { IfErr result (IsUnopened place.now) }
    {
        let file = match File::open(&self.rt, place) {
            Err(e) if is_absence(e.kind()) => return Ok(None),
            opened => self.at(Operation::Open, place, opened)?,
        };
        let found = self.at(Operation::Look, place, file.metadata())?;
        let stat = stat_of(&found);
        if found.is_file() && stat.inode == inode {
            Ok(Some((file, stat)))
        } else {
            Ok(None)
        }
    }

    /// Where the link at a place leads. `None` where that isn't UTF-8, or nothing stands there any more.
    pub fn target(&self, place: &str) -> Result<Option<String>, Refused>
        ensures cause { IfErr result (λ refused.
            (refused ≡ Memory) ⊎ IsBarred Operation.Look place.now refused) }
    {
        let runtime = (self.rt.clone()?, self.alloc);
        match fs::read_link(&runtime, place) {
            Err(e) if is_absence(e.kind()) => Ok(None),
            found => Ok(Some(self.at(Operation::Look, place, found)?.into_string())),
        }
    }

    /// What stands above a path: a folder if all is, or else the first that is none. A folder that
    /// was seen isn't looked at again.
    pub fn standing_above(&self, seen: &mut Seen, path: &Path) -> Result<Standing, Refused>
        ensures cause { IfErr result (λ refused. (refused ≡ Memory)
            ⊎ IsBarredAbove (places_to (string_bytes self.now.root)
            (take (length path.now - 1) path.now)) refused) }
    {
        if seen.is_last(path) {
            return Ok(Standing::Folder);
        }
        let standing = self.look_above(seen, path)?;
        if standing == Standing::Folder {
            self.remember(seen, path)?;
        }
        Ok(standing)
    }

    // All above a path stands.
    fn remember(&self, seen: &mut Seen, path: &Path) -> Result<(), Refused>
        ensures cause { IfErr result (λ refused. refused ≡ Memory) }
    {
        match path.parent(self.alloc) {
            Ok(folder) => seen.last = folder,
            Err(_) => return Err(Refused::Memory),
        }
        Ok(())
    }

    // The same, one folder after another from the top down.
    fn look_above(&self, seen: &mut Seen, path: &Path) -> Result<Standing, Refused>
        ensures cause { IfErr result (λ refused. (refused ≡ Memory)
            ⊎ IsBarredAbove (places_to (string_bytes self.now.root)
            (take (length path.now - 1) path.now)) refused) }
    {
        for folder in self.folders_above(path)? {
            let standing = self.standing_of_folder(seen, folder)?;
            if standing != Standing::Folder {
                return Ok(standing);
            }
        }
        Ok(Standing::Folder)
    }

    // What stands where a folder is wanted. One that is there is marked.
    fn standing_of_folder(&self, seen: &mut Seen, folder: String) -> Result<Standing, Refused>
        ensures marks { IfOk result
            (λ standing. standing ≡ Folder → IsMarked seen.new.folders (string_bytes folder)) }
        ensures cause { IfErr result (λ refused. (refused ≡ Memory)
            ⊎ IsBarred Operation.Look (string_bytes folder) refused) }
    {
        if seen.folders.contains(&folder) {
            return Ok(Standing::Folder);
        }
        let standing = self.standing(folder.as_str())?;
        if standing == Standing::Folder {
            seen.folders.insert(folder)?;
        }
        Ok(standing)
    }

    /// Makes a folder unless it was seen or stands there, and marks it. All else that stands there
    /// is a failure.
    pub fn make_folder(&self, seen: &mut Seen, folder: &String) -> Result<(), Refused>
        ensures marks { OnOk result (IsMarked seen.new.folders (string_bytes folder.now)) }
        ensures cause { IfErr result (λ refused. (refused ≡ Memory)
            ⊎ IsUnmade (string_bytes folder.now) refused) }
    {
        if seen.folders.contains(folder) {
            return Ok(());
        }
        self.make_unless_there(folder.as_str())?;
        seen.folders.insert(folder.clone()?)?;
        Ok(())
    }

    /// Makes a folder unless one stands there.
    pub fn make_unless_there(&self, folder: &str) -> Result<(), Refused>
        ensures cause { IfErr result (IsUnmade folder.now) }
    {
        match self.standing(folder)? {
            Standing::Folder => Ok(()),
            Standing::Nothing => self.at(Operation::Make, folder, fs::create_dir(&self.rt, folder)),
            _ => Err(self.in_the_way(folder)),
        }
    }

    /// Removes a folder, which has to be empty. It isn't marked any more, whatever the answer.
    pub fn remove_folder(&self, seen: &mut Seen, folder: &String) -> io::Result<()>
        ensures { contains_text seen.new.folders (string_bytes folder.now) ≡ false }
    {
        seen.last = None;
        seen.folders.remove(folder);
        fs::remove_dir(&self.rt, folder.as_str())
    }

    /// Removes a file.
    pub fn remove(&self, place: &str) -> Result<(), Refused>
        ensures cause { IfErr result (IsNamed Operation.Remove place.now) }
    {
        self.at(Operation::Remove, place, fs::remove_file(&self.rt, place))
    }

    /// Removes a file unless there is none.
    pub fn clear(&self, place: &str) -> Result<(), Refused>
        ensures cause { IfErr result (IsBarred Operation.Remove place.now) }
    {
        match fs::remove_file(&self.rt, place) {
            Err(e) if is_absence(e.kind()) => Ok(()),
            done => self.at(Operation::Remove, place, done),
        }
    }

    /// Makes a file or a folder durable. What went again needs no more than its folder.
    pub fn sync(&self, place: &str) -> Result<(), Refused>
        ensures cause { IfErr result (IsUnsynced place.now) }
        ensures skipped { self.now.syncs ≡ Skipped → IsOk result }
    {
        if self.syncs == Syncs::Skipped {
            return Ok(());
        }
        match File::open(&self.rt, place) {
            Ok(file) => self.at(Operation::Sync, place, file.sync_all()),
            Err(e) if is_absence(e.kind()) => Ok(()),
            Err(e) => Err(self.refused(Operation::Open, place, e)),
        }
    }

    /// Makes the bytes of an open file durable.
    pub fn sync_bytes(&self, file: &File, place: &str) -> Result<(), Refused>
        ensures cause { IfErr result (IsNamed Operation.Sync place.now) }
        ensures skipped { self.now.syncs ≡ Skipped → IsOk result }
    {
        if self.syncs == Syncs::Skipped {
            return Ok(());
        }
        self.at(Operation::Sync, place, file.sync_data())
    }
}

/// What stands at a place; no link is followed at its end. Where a name is longer than a name may be nothing stands.
pub fn standing_at<R: Files>(rt: &R, alloc: Global, place: &str) -> Result<Standing, Refused>
    ensures cause { IfErr result (IsBarred Operation.Look place.now) }
{
    match look(rt, place) {
        Err(e) if is_absence(e.kind()) => Ok(Standing::Nothing),
        found => told(alloc, Operation::Look, place, found),
    }
}

/// What stands at a place; it is a failure that nothing does.
pub(crate) fn look<R: Files>(rt: &R, place: &str) -> io::Result<Standing> {
    Ok(kind_of(&fs::symlink_metadata(rt, place)?))
}

fn kind_of(found: &Metadata) -> Standing {
    if found.is_file() {
        Standing::File {
            len: found.len(),
            names: found.nlink(),
            runs: found.mode() & RUN_BITS != 0,
            stat: stat_of(found),
        }
    } else if found.is_dir() {
        Standing::Folder
    } else if found.is_symlink() {
        Standing::Link
    } else {
        Standing::Other
    }
}

/// Whether an error says that nothing stands at the place, as where its name is longer than a name
/// may be.
fn is_absence(kind: ErrorKind) -> bool
    ensures { IsTrue result ↔ SaysAbsence kind }
{
    matches!(
        kind,
        ErrorKind::NotFound | ErrorKind::NotADirectory | ErrorKind::InvalidFilename
    )
}
