//! The file `.tup/stamps`. All that goes wrong with it is passed over: then files are read.
use crate::note_file::Head;
use crate::notes::{Quiet, Since};
use std::alloc::AllocError;
use std::fs::{File, Metadata, OpenOptions};
use std::io::{Read, Write};
use std::os::unix::fs::{MetadataExt, OpenOptionsExt};
use std::rt::Files;
use std::{fs, io};
use tup_disk::Disk;

/// The bits of a mode by which others than the owner may write.
const OTHERS_WRITE: u32 = 0o022;

/// Which files' stamps are noted, if any are.
pub(crate) fn quiet<R: Files<File = File> + Clone + Drop>(
    disk: &Disk<R>,
    since: Since,
) -> Option<Quiet> {
    let device = disk.timed_device()?;
    let boot = disk.boot()?;
    Some(Quiet {
        head: Head {
            boot,
            device,
            began: since.began,
        },
        latest: since.latest,
    })
}

/// What the file holds, if nobody but this process's user may have written it.
pub(crate) fn read<R: Files<File = File> + Clone + Drop>(disk: &Disk<R>) -> Option<Vec<u8>> {
    let place = place(disk, "stamps").ok()?;
    let seen = fs::symlink_metadata(&disk.rt, place.as_str()).ok()?;
    if !is_own(&seen, disk.user()?) {
        return None;
    }
    let mut bytes = Vec::with_capacity(disk.alloc, usize::try_from(seen.len()).ok()?).ok()?;
    let mut file = File::open(&disk.rt, place.as_str()).ok()?;
    file.read_to_end(&mut bytes).ok()?;
    Some(bytes)
}

/// Whether a file is a user's alone, by all its names.
fn is_own(seen: &Metadata, user: u32) -> bool {
    let is_closed = seen.mode() & OTHERS_WRITE == 0;
    seen.is_file() && seen.nlink() == 1 && seen.uid() == user && is_closed
}

/// Has the file hold these bytes. They come to its place once they are written.
pub(crate) fn write<R: Files<File = File> + Clone + Drop>(
    disk: &Disk<R>,
    bytes: &[u8],
) -> io::Result<()> {
    let aside = place(disk, "stamps.new")?;
    let _ = fs::remove_file(&disk.rt, aside.as_str());
    let mut file = OpenOptions::new()
        .write(true)
        .create_new(true)
        .mode(0o644)
        .open(&disk.rt, aside.as_str())?;
    file.write_all(bytes)?;
    fs::rename(&disk.rt, aside.as_str(), place(disk, "stamps")?.as_str())
}

/// The place of a file in the program's own folder.
pub(crate) fn place<R: Files<File = File> + Clone + Drop>(
    disk: &Disk<R>,
    name: &str,
) -> Result<String, AllocError> {
    let root = disk.root();
    Ok(format!(in disk.alloc; "{root}/.tup/{name}")?)
}
