//! The folders in which files are removed, noted in `.tup/emptied` before that. So the next call takes a folder that was left empty, if
//! it couldn't be removed or the call was cut off. All that goes wrong with the file is passed over: then such a folder stays.
use crate::note_disk::place;
use std::alloc::Global;
use std::collections::BTreeSet;
use std::fs::{File, OpenOptions};
use std::io::{ErrorKind, Read, Write};
use std::os::unix::fs::OpenOptionsExt;
use std::rt::Files;
use std::{fs, str};
use tup_disk::{Disk, Operation, Refused, Standing};
use tup_path::{Path, PathFault};

/// The name of the file.
const NAME: &str = "emptied";

/// The folders that this call noted.
#[derive(Drop)]
pub(crate) struct Emptied {
    noted: BTreeSet<Path>,
}

impl Emptied {
    /// None is noted yet.
    pub fn none(alloc: Global) -> Emptied {
        Emptied {
            noted: BTreeSet::new(alloc),
        }
    }

    /// Notes the folder of a file that is to be removed, unless that is the top.
    pub fn note<R: Files<File = File> + Clone + Drop>(
        &mut self,
        disk: &Disk<R>,
        file: &Path,
    ) -> Result<(), Refused> {
        let Ok(folder) = file.parent(disk.alloc) else {
            return Err(Refused::Memory);
        };
        match folder {
            Some(folder) => self.note_folder(disk, &folder),
            None => Ok(()),
        }
    }

    /// Notes a folder, once.
    fn note_folder<R: Files<File = File> + Clone + Drop>(
        &mut self,
        disk: &Disk<R>,
        folder: &Path,
    ) -> Result<(), Refused> {
        if folder.depth() == 0 || self.noted.contains(folder) {
            return Ok(());
        }
        drop(add(disk, folder));
        self.noted.insert(folder.clone()?)?;
        Ok(())
    }
}

/// Removes the folders that are noted, as far as they are empty, and then the file, if all could be done.
pub(crate) fn take<R: Files<File = File> + Clone + Drop>(disk: &Disk<R>) -> Result<(), Refused> {
    let Some(list) = read(disk)? else {
        return Ok(());
    };
    let mut are_done = true;
    for line in str::from_utf8(list.as_slice()).unwrap_or("").lines() {
        match Path::from_top(disk.alloc, line) {
            Ok(folder) => are_done = remove(disk, &folder)? && are_done,
            Err(PathFault::Memory) => return Err(Refused::Memory),
            Err(_) => {}
        }
    }
    if are_done {
        drop(fs::remove_file(&disk.rt, place(disk, NAME)?.as_str()));
    }
    Ok(())
}

/// Removes a folder and those above it, from the lowest up, as long as they are empty. Says whether that could be done.
fn remove<R: Files<File = File> + Clone + Drop>(
    disk: &Disk<R>,
    folder: &Path,
) -> Result<bool, Refused> {
    let places = standing(disk, folder)?;
    for place in places.iter().rev() {
        if let Err(e) = fs::remove_dir(&disk.rt, place.as_str()) {
            return Ok(e.kind() == ErrorKind::DirectoryNotEmpty);
        }
    }
    Ok(true)
}

/// The places of the folders down to this one that stand, each in the one before. No link is one.
fn standing<R: Files<File = File> + Clone + Drop>(
    disk: &Disk<R>,
    folder: &Path,
) -> Result<Vec<String>, Refused> {
    let mut places = disk.folders_above(folder)?;
    places.push(disk.place(folder.names())?)?;
    let mut found = Vec::new(disk.alloc);
    for place in places {
        if disk.standing(place.as_str())? != Standing::Folder {
            return Ok(found);
        }
        found.push(place)?;
    }
    Ok(found)
}

/// What the file holds, if there is one.
fn read<R: Files<File = File> + Clone + Drop>(disk: &Disk<R>) -> Result<Option<Vec<u8>>, Refused> {
    let place = place(disk, NAME)?;
    match disk.standing(place.as_str())? {
        Standing::File { .. } => read_all(disk, place.as_str()),
        _ => Ok(None),
    }
}

/// What the file at a place holds, if it can be read.
fn read_all<R: Files<File = File> + Clone + Drop>(
    disk: &Disk<R>,
    place: &str,
) -> Result<Option<Vec<u8>>, Refused> {
    let mut bytes = Vec::new(disk.alloc);
    let mut file = disk.open(place)?;
    if file.read_to_end(&mut bytes).is_err() {
        return Ok(None);
    }
    Ok(Some(bytes))
}

/// Adds a line with a folder to the file, unless something else stands there.
fn add<R: Files<File = File> + Clone + Drop>(disk: &Disk<R>, folder: &Path) -> Result<(), Refused> {
    let place = place(disk, NAME)?;
    let Ok(shown) = folder.show(disk.alloc) else {
        return Err(Refused::Memory);
    };
    let line = format!(in disk.alloc; "{shown}\n")?;
    match disk.standing(place.as_str())? {
        Standing::Nothing => append(disk, place.as_str(), line.as_str()),
        Standing::File { .. } => append(disk, place.as_str(), line.as_str()),
        _ => Ok(()),
    }
}

/// Adds a text to the file at a place, which is made if it isn't there.
fn append<R: Files<File = File> + Clone + Drop>(
    disk: &Disk<R>,
    place: &str,
    text: &str,
) -> Result<(), Refused> {
    let opened = OpenOptions::new()
        .append(true)
        .create(true)
        .mode(0o644)
        .open(&disk.rt, place);
    let mut file = disk.at(Operation::Open, place, opened)?;
    disk.at(Operation::Write, place, file.write_all(text.as_bytes()))
}
