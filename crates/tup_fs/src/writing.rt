//! One file, written as a whole or removed. All memory is taken before the tree changes.
ghost use Rattle.std.specs.Prelude.{◌≡◌, ◌<◌, length, OnOk, string_bytes};
ghost use Rattle.tup_disk.specs.Place.{place_of};
ghost use Rattle.tup_disk.specs.Sum as specs;
ghost use Rattle.tup_fs.specs.Answers.{known_at};
ghost use Rattle.tup_fs.specs.declared.answers.Known.TheVariants.{Absent, Sum};
ghost use Rattle.tup_fs.specs.Program.{mode_for};

use crate::answers::Known;
use crate::program::is_program;
use crate::reading::{Found, read};
use crate::tree::Tree;
use std::fs::{File, OpenOptions};
use std::io::{ErrorKind, Write};
use std::os::unix::fs::OpenOptionsExt;
use std::rt::Files;
use std::{fs, io};
use tup_disk::{Disk, Operation, Refused, Standing, sum};
use tup_path::Path;

impl Tree {
    /// Has a file hold this content. One that does, has no other name, and may be run just where it
    /// is a program stays; else what stands at its place goes, and the file is made anew.
    pub fn put<R: Files<File = File> + Clone + Drop>(
        &mut self,
        disk: &Disk<R>,
        path: &Path,
        content: &[u8],
    ) -> Result<(), Refused>
        ensures { OnOk result (known_at self.new.answers
            (place_of (string_bytes disk.now.root) path.now) ≡ Sum (specs.sum content.now)) }
    {
        let place = disk.place(path.names())?;
        self.answers.learn(place.clone()?, Known::Unknown)?;
        self.write(disk, path, &place, content)?;
        self.answers.learn(place, Known::Sum(sum(content)))
    }

    fn write<R: Files<File = File> + Clone + Drop>(
        &mut self,
        disk: &Disk<R>,
        path: &Path,
        place: &String,
        content: &[u8],
    ) -> Result<(), Refused> {
        self.make_folders(disk, path)?;
        match disk.standing(place.as_str())? {
            Standing::Nothing => make(disk, place.as_str(), content),
            Standing::File {
                len,
                names,
                runs,
                ..
            } => {
                self.check_spelling(disk, path, place.as_str())?;
                let is_alike = len == content.len() as u64 && runs == is_program(content);
                let may_stay = names == 1 && is_alike;
                replace(disk, place.as_str(), may_stay, content)
            }
            Standing::Folder => {
                self.remove_folder(disk, place)?;
                make(disk, place.as_str(), content)
            }
            Standing::Link | Standing::Other => Err(disk.in_the_way(place.as_str())),
        }
    }

    fn make_folders<R: Files<File = File> + Clone + Drop>(
        &mut self,
        disk: &Disk<R>,
        path: &Path,
    ) -> Result<(), Refused> {
        for folder in disk.folders_above(path)? {
            disk.make_folder(&mut self.seen, &folder)?;
        }
        Ok(())
    }

    fn remove_folder<R: Files<File = File> + Clone + Drop>(
        &mut self,
        disk: &Disk<R>,
        place: &String,
    ) -> Result<(), Refused> {
        let done = disk.remove_folder(&mut self.seen, place);
        disk.at(Operation::Remove, place.as_str(), done)
    }

    /// Where the file system doesn't tell case apart, a file of another spelling isn't ours.
    pub fn check_spelling<R: Files<File = File> + Clone + Drop>(
        &mut self,
        disk: &Disk<R>,
        path: &Path,
        place: &str,
    ) -> Result<(), Refused> {
        if self.ignores_case(disk)? && !is_spelled(disk, path)? {
            let error = io::Error::other("a file of another spelling stands here");
            return Err(disk.refused(Operation::Look, place, error));
        }
        Ok(())
    }

    // Whether the file system may not tell case apart. Till the own folder is there, by which it
    // is asked, that is so.
    fn ignores_case<R: Files<File = File> + Clone + Drop>(
        &mut self,
        disk: &Disk<R>,
    ) -> Result<bool, Refused> {
        if let Some(ignores) = self.ignores_case {
            return Ok(ignores);
        }
        if !has_folder(disk, ".tup")? {
            return Ok(true);
        }
        let ignores = has_folder(disk, ".TUP")?;
        self.ignores_case = Some(ignores);
        Ok(ignores)
    }

    /// Removes a file, and the folders that it leaves empty.
    pub fn remove<R: Files<File = File> + Clone + Drop>(
        &mut self,
        disk: &Disk<R>,
        path: &Path,
    ) -> Result<(), Refused>
        ensures { OnOk result (known_at self.new.answers
            (place_of (string_bytes disk.now.root) path.now) ≡ Absent) }
    {
        let place = disk.place(path.names())?;
        self.answers.learn(place.clone()?, Known::Unknown)?;
        self.clear(disk, path, place.as_str())?;
        self.answers.learn(place, Known::Absent)
    }

    fn clear<R: Files<File = File> + Clone + Drop>(
        &mut self,
        disk: &Disk<R>,
        path: &Path,
        place: &str,
    ) -> Result<(), Refused> {
        if disk.standing_above(&mut self.seen, path)? != Standing::Folder {
            return Ok(());
        }
        match disk.standing(place)? {
            Standing::File { .. } => self.remove_file(disk, path, place),
            // Not a file of ours: what somebody put there stays.
            Standing::Link | Standing::Other => Err(disk.in_the_way(place)),
            Standing::Nothing | Standing::Folder => Ok(()),
        }
    }

    fn remove_file<R: Files<File = File> + Clone + Drop>(
        &mut self,
        disk: &Disk<R>,
        path: &Path,
        place: &str,
    ) -> Result<(), Refused> {
        let folders = disk.folders_above(path)?;
        self.check_spelling(disk, path, place)?;
        self.emptied.note(disk, path)?;
        disk.remove(place)?;
        self.remove_empty(disk, &folders);
        Ok(())
    }

    // From the lowest up, as long as they are empty.
    fn remove_empty<R: Files<File = File> + Clone + Drop>(
        &mut self,
        disk: &Disk<R>,
        folders: &[String],
    ) {
        for folder in folders.iter().rev() {
            if disk.remove_folder(&mut self.seen, folder).is_err() {
                break;
            }
        }
    }
}

// Whether each folder on the way has just the name that comes next.
fn is_spelled<R: Files<File = File> + Clone + Drop>(
    disk: &Disk<R>,
    path: &Path,
) -> Result<bool, Refused> {
    for depth in 0..path.depth() {
        if !has_name(disk, path, depth)? {
            return Ok(false);
        }
    }
    Ok(true)
}

// Whether the folder so many names down has just the name that comes next.
fn has_name<R: Files<File = File> + Clone + Drop>(
    disk: &Disk<R>,
    path: &Path,
    depth: usize,
) -> Result<bool, Refused>
    requires { depth < length path.now }
{
    let folder = disk.place(&path.names()[..depth])?;
    let names = disk.names_in(folder.as_str())?;
    Ok(names.contains(&path.names()[depth]))
}

// Whether a folder stands under a name in the top.
fn has_folder<R: Files<File = File> + Clone + Drop>(
    disk: &Disk<R>,
    name: &str,
) -> Result<bool, Refused> {
    let root = disk.root();
    let place = format!(in disk.alloc; "{root}/{name}")?;
    Ok(disk.standing(place.as_str())? == Standing::Folder)
}

// A file that has the content stays, if it may. Else it isn't written over: it may have other names.
fn replace<R: Files<File = File> + Clone + Drop>(
    disk: &Disk<R>,
    place: &str,
    may_stay: bool,
    content: &[u8],
) -> Result<(), Refused> {
    if may_stay && holds(disk, place, content)? {
        return Ok(());
    }
    disk.remove(place)?;
    make(disk, place, content)
}

// Whether a file of as many bytes holds just these. One that may not be read has to be made anew.
fn holds<R: Files<File = File> + Clone + Drop>(
    disk: &Disk<R>,
    place: &str,
    content: &[u8],
) -> Result<bool, Refused> {
    let file = match File::open(&disk.rt, place) {
        Err(e) if e.kind() == ErrorKind::PermissionDenied => return Ok(false),
        opened => disk.at(Operation::Open, place, opened)?,
    };
    match read(disk, file, place, content.len() as u64)? {
        Found::Content(bytes) => Ok(bytes.as_slice() == content),
        Found::Nothing | Found::TooLarge(_) => Ok(false),
    }
}

// Makes a file, which may be run if it is a program, as far as the user's mask allows. One that
// doesn't come whole is taken away again.
fn make<R: Files<File = File> + Clone + Drop>(
    disk: &Disk<R>,
    place: &str,
    content: &[u8],
) -> Result<(), Refused> {
    let mut file = create(disk, place, mode_of(content))?;
    let done = file.write_all(content);
    if done.is_err() {
        let _ = fs::remove_file(&disk.rt, place);
    }
    disk.at(Operation::Write, place, done)
}

fn create<R: Files<File = File> + Clone + Drop>(
    disk: &Disk<R>,
    place: &str,
    mode: u32,
) -> Result<File, Refused> {
    let created = OpenOptions::new()
        .write(true)
        .create_new(true)
        .mode(mode)
        .open(&disk.rt, place);
    disk.at(Operation::Make, place, created)
}

// The mode that a file of this content has before the user's mask takes bits away.
fn mode_of(content: &[u8]) -> u32
    ensures { result ≡ mode_for content.now }
{
    if is_program(content) { 0o777 } else { 0o666 }
}
