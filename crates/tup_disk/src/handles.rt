//! The program's own folder in the top folder of a project, and the folder of stages in it, looked at and held open.
//!
//! All that stands in the folder of stages is removed in the end. So neither may be a link, or another user's, and nothing may be
//! mounted in the latter; and what is removed is named through the open folder, whatever its own name leads to by then.
ghost use Rattle.std.specs.Prelude.{◌≡◌, ◌⊎◌, IfErr, IfOk, string_bytes};
ghost use Rattle.tup_disk.specs.Told.{HasNoMounts, HasNoOwn, HasNoStages, HasNoStagesAt, IsNamed, IsOwn, IsUnheld};
ghost use Rattle.tup_disk.specs.declared.failure.Refused.TheVariants.{Memory};

use crate::failure::{Failure, Operation, Refused, told};
use crate::mount_list::mounts;
use std::alloc::{AllocError, Global};
use std::fs::{File, Metadata};
use std::io::ErrorKind;
use std::os::fd::AsRawFd;
use std::os::unix::fs::MetadataExt;
use std::rt::Files;
use std::{fs, io};

/// What stands where a folder is wanted.
const NO_FOLDER: &str = "a folder has to stand here, and no link to one";
/// Whose it is.
const FOREIGN: &str = "it belongs to another user";
/// What is mounted there.
const MOUNTED: &str = "a file system is mounted here or below: tup would remove what is in it";
/// What came between.
const CHANGED: &str = "it was changed while tup looked at it";

/// A folder that was looked at and is held open.
#[derive(Drop)]
pub struct Held {
    file: File,
    /// Its name in messages.
    place: String,
    /// The device that it lies on.
    device: u64,
}

impl Held {
    /// A path of the open folder, whatever its name leads to by now.
    pub fn through(&self, alloc: Global) -> Result<String, AllocError> {
        let number = self.file.as_raw_fd();
        format!(in alloc; "/proc/self/fd/{number}")
    }

    /// The path of what has this name in the open folder.
    pub fn inside(&self, alloc: Global, name: &str) -> Result<String, AllocError> {
        let number = self.file.as_raw_fd();
        format!(in alloc; "/proc/self/fd/{number}/{name}")
    }
}

/// The program's own folder of the project in a top folder. `None` where there is none.
pub fn own_folder<R: Files<File = File>>(
    rt: &R,
    alloc: Global,
    root: &str,
) -> Result<Option<Held>, Refused>
    ensures cause { IfErr result (HasNoOwn root.now) }
{
    let top = told(alloc, Operation::Look, root, fs::metadata(rt, root))?;
    let place = format!(in alloc; "{root}/.tup")?;
    match fs::symlink_metadata(rt, place.as_str()) {
        Err(e) if e.kind() == ErrorKind::NotFound => Ok(None),
        found => {
            let found = told(alloc, Operation::Look, place.as_str(), found)?;
            check_owner(alloc, place.as_str(), &found, top.uid())?;
            Ok(Some(open(rt, alloc, place.as_str(), place.as_str(), &found)?))
        }
    }
}

/// The folder of stages of the project in a top folder, in the program's own one. It is made where it isn't there yet.
pub fn stages<R: Files<File = File> + Clone + Drop>(
    rt: &R,
    alloc: Global,
    root: &str,
    own: &Held,
) -> Result<Held, Refused>
    ensures cause { IfErr result (HasNoStages root.now) }
{
    let top = told(alloc, Operation::Look, root, fs::metadata(rt, root))?;
    let place = format!(in alloc; "{root}/.tup/stage")?;
    stages_at(rt, alloc, place.as_str(), own, top.uid())
}

/// The folder of stages, which is named as a place, in the program's own one. The top folder belongs to this owner.
fn stages_at<R: Files<File = File> + Clone + Drop>(
    rt: &R,
    alloc: Global,
    place: &str,
    own: &Held,
    owner: u32,
) -> Result<Held, Refused>
    ensures cause { IfErr result (HasNoStagesAt place.now) }
{
    let way = own.inside(alloc, "stage")?;
    let found = made(rt, alloc, way.as_str(), place)?;
    check_owner(alloc, place, &found, owner)?;
    if found.dev() != own.device {
        return Err(refused(alloc, place, MOUNTED));
    }
    let held = open(rt, alloc, way.as_str(), place, &found)?;
    check_mounts(rt, alloc, &held)?;
    Ok(held)
}

/// The folder at a place, held open.
pub fn held_at<R: Files<File = File>>(rt: &R, alloc: Global, place: &str) -> Result<Held, Refused>
    ensures cause { IfErr result (IsUnheld place.now) }
{
    let found = told(
        alloc,
        Operation::Look,
        place,
        fs::symlink_metadata(rt, place),
    )?;
    open(rt, alloc, place, place, &found)
}

/// What stands where a folder is wanted. Where nothing does the folder is made.
fn made<R: Files<File = File>>(
    rt: &R,
    alloc: Global,
    way: &str,
    place: &str,
) -> Result<Metadata, Refused>
    ensures cause { IfErr result (λ refused. IsNamed Operation.Make place.now refused
        ⊎ IsNamed Operation.Look place.now refused) }
{
    match fs::symlink_metadata(rt, way) {
        Err(e) if e.kind() == ErrorKind::NotFound => {
            told(alloc, Operation::Make, place, fs::create_dir(rt, way))?;
            told(alloc, Operation::Look, place, fs::symlink_metadata(rt, way))
        }
        found => told(alloc, Operation::Look, place, found),
    }
}

/// Opens the folder that was found by a way, which is named as a place.
fn open<R: Files<File = File>>(
    rt: &R,
    alloc: Global,
    way: &str,
    place: &str,
    found: &Metadata,
) -> Result<Held, Refused>
    ensures place { IfOk result (λ held. string_bytes held.place ≡ place.now) }
    ensures cause { IfErr result (IsUnheld place.now) }
{
    if !found.is_dir() {
        return Err(refused(alloc, place, NO_FOLDER));
    }
    let file = told(alloc, Operation::Open, place, opened(rt, way))?;
    let now = told(alloc, Operation::Look, place, file.metadata())?;
    if (now.dev(), now.ino()) != (found.dev(), found.ino()) {
        return Err(refused(alloc, place, CHANGED));
    }
    Ok(Held {
        file,
        place: String::from_str(alloc, place)?,
        device: now.dev(),
    })
}

/// Opens a folder under a number that no standard stream has.
fn opened<R: Files<File = File>>(rt: &R, way: &str) -> io::Result<File> {
    File::open(rt, way)?.try_clone()
}

/// Refuses what belongs neither to the user nor to whoever owns the top folder, whose Tupfiles say what is run.
fn check_owner(alloc: Global, place: &str, found: &Metadata, owner: u32) -> Result<(), Refused>
    ensures cause { IfErr result (IsOwn Operation.Look place.now) }
{
    if found.uid() == owner || found.uid() == libc::geteuid() {
        Ok(())
    } else {
        Err(refused(alloc, place, FOREIGN))
    }
}

/// Refuses a folder in which something is mounted.
fn check_mounts<R: Files<File = File> + Clone + Drop>(
    rt: &R,
    alloc: Global,
    held: &Held,
) -> Result<(), Refused>
    ensures cause { IfErr result (λ refused. HasNoMounts refused
        ⊎ IsNamed Operation.Look (string_bytes held.now.place) refused) }
{
    let way = held.through(alloc)?;
    let place = held.place.as_str();
    let runtime = (rt.clone()?, alloc);
    let path = told(
        alloc,
        Operation::Look,
        place,
        fs::read_link(&runtime, way.as_str()),
    )?;
    let path = path.into_string();
    for mount in mounts(rt, alloc)? {
        if mount.is_in(path.as_str()) {
            return Err(refused(alloc, place, MOUNTED));
        }
    }
    Ok(())
}

/// The refusal of what stands at a place.
fn refused(alloc: Global, place: &str, why: &'static str) -> Refused
    ensures { IsOwn Operation.Look place.now result }
{
    Refused::Failed(Failure::new(alloc, Operation::Look, place, io::Error::other(why)))
}
