//! All files below the folder.
ghost use Rattle.std.specs.Prelude.{◌≡◌, ◌⊎◌, IfOk, IfErr, string_bytes};
ghost use Rattle.std.specs.List.Sorted.{IsSorted};
ghost use Rattle.tup_disk.specs.Place.{place_of};
ghost use Rattle.tup_disk.specs.Told.{IsNamed, IsUnlisted};
ghost use Rattle.tup_disk.specs.declared.failure.Refused.TheVariants.{Memory};
ghost use Rattle.tup_path.specs.Order.{by_names};

use crate::disk::Disk;
use crate::failure::{Operation, Refused};
use crate::standing::{Seen, Standing, look};
use crate::stat::Stat;
use std::alloc::{AllocError, Global};
use std::collections::VecDeque;
use std::fs::File;
use std::io::{ErrorKind, Read};
use std::rt::Files;
use tup_path::{MAX_DEPTH, Path, PathFault, Text};

/// How many bytes of names are read from a folder at a time; a name has at most 255.
const READ_AT_ONCE: usize = 8192;

/// All files below the folder.
#[derive(Drop)]
pub struct Listing {
    /// Their paths, in order.
    pub paths: Vec<Path>,
    /// Where each was found.
    pub places: Vec<Listed>,
}

/// A file that was listed.
#[derive(Drop)]
pub struct Listed {
    pub place: String,
    /// What was seen of the file; of a link that isn't told.
    pub stat: Option<Stat>,
}

/// The files that were found, with their places, and the folders that are to be looked into.
#[derive(Drop)]
struct Found {
    files: Vec<Path>,
    places: Vec<Listed>,
    folders: VecDeque<Path>,
}

impl Found {
    fn add(&mut self, path: Path, place: String, stat: Option<Stat>) -> Result<(), Refused>
        ensures cause { IfErr result (λ refused. refused ≡ Memory) }
    {
        self.files.push(path)?;
        self.places.push(Listed { place, stat })?;
        Ok(())
    }
}

impl<R: Files<File = File> + Clone + Drop> Disk<R> {
    /// The regular files and the links below the top whose names are all visible, in the order of paths. No link is
    /// followed.
    pub fn files(&self, seen: &mut Seen) -> Result<Listing, Refused>
        ensures sorted { IfOk result (λ listing. IsSorted by_names listing.paths.items) }
        ensures cause { IfErr result (λ refused. (refused ≡ Memory)
            ⊎ IsUnlisted (string_bytes self.now.root) refused) }
    {
        let found = self.walk(seen)?;
        let mut files = found.files;
        files.sort()?;
        Ok(Listing {
            paths: files,
            places: found.places,
        })
    }

    // From the top down, those of one depth after those above. So the files of each depth come in the order of paths, and
    // sorting all of them takes few comparisons.
    fn walk(&self, seen: &mut Seen) -> Result<Found, Refused>
        ensures cause { IfErr result (λ refused. (refused ≡ Memory)
            ⊎ IsUnlisted (string_bytes self.now.root) refused) }
    {
        let mut found = Found {
            files: Vec::new(self.alloc),
            places: Vec::new(self.alloc),
            folders: VecDeque::new(self.alloc),
        };
        found.folders.push_back(Path::top(self.alloc))?;
        for _ in 0..u64::MAX {
            let Some(folder) = found.folders.pop_front() else {
                break;
            };
            self.look_in(seen, &folder, &mut found)?;
        }
        Ok(found)
    }

    // Sorts in what stands in a folder, in the order of names. The folder is seen now.
    fn look_in(&self, seen: &mut Seen, folder: &Path, found: &mut Found) -> Result<(), Refused>
        ensures cause { IfErr result (λ refused. (refused ≡ Memory)
            ⊎ IsUnlisted (string_bytes self.now.root) refused) }
    {
        let place = self.place(folder.names())?;
        let mut names = self.names_in(place.as_str())?;
        names.sort()?;
        for name in names {
            self.sort_in(folder, &name, found)?;
        }
        seen.folders.insert(place)?;
        Ok(())
    }

    // Sorts in what stands in a folder under a name, if that is visible and not too deep.
    fn sort_in(&self, folder: &Path, name: &Text, found: &mut Found) -> Result<(), Refused>
        ensures cause { IfErr result (λ refused. (refused ≡ Memory)
            ⊎ IsUnlisted (string_bytes self.now.root) refused) }
    {
        match folder.join(self.alloc, name) {
            Ok(path) => self.sort(path, name, found),
            Err(PathFault::Memory) => Err(Refused::Memory),
            Err(_) => Ok(()),
        }
    }

    fn sort(&self, path: Path, name: &Text, found: &mut Found) -> Result<(), Refused>
        ensures cause { IfErr result (λ refused. (refused ≡ Memory)
            ⊎ IsNamed Operation.Look (place_of (string_bytes self.now.root) path) refused) }
    {
        let place = self.place(path.names())?;
        match self.found_at(place.as_str())? {
            Standing::File { stat, .. } => found.add(path, place, Some(stat))?,
            Standing::Folder if path.depth() < MAX_DEPTH => found.folders.push_back(path)?,
            Standing::Link | Standing::Other if is_read_by_name(name) => {
                return Err(self.in_the_way(place.as_str()));
            }
            Standing::Link => self.add_link(path, place, found)?,
            _ => {}
        }
        Ok(())
    }

    // A link is found where it can be told where it leads.
    fn add_link(&self, path: Path, place: String, found: &mut Found) -> Result<(), Refused>
        ensures cause { IfErr result (λ refused. (refused ≡ Memory)
            ⊎ IsNamed Operation.Look (string_bytes place) refused) }
    {
        if self.target(place.as_str())?.is_some() {
            found.add(path, place, None)?;
        }
        Ok(())
    }

    // What stands where a name was found. What went meanwhile is passed over; where the place is too
    // long for the system, that is a failure, as something stands there.
    fn found_at(&self, place: &str) -> Result<Standing, Refused>
        ensures cause { IfErr result (IsNamed Operation.Look place.now) }
    {
        match look(&self.rt, place) {
            Err(e) if e.kind() == ErrorKind::NotFound => Ok(Standing::Nothing),
            found => self.at(Operation::Look, place, found),
        }
    }

    /// The names in a folder. One that isn't a text is passed over, and so is one that begins with a dot, as `.` and `..`.
    pub fn names_in(&self, folder: &str) -> Result<Vec<Text>, Refused>
        ensures cause { IfErr result (λ refused. (refused ≡ Memory)
            ⊎ IsNamed Operation.List folder.now refused) }
    {
        let mut open = self.open_folder(folder)?;
        let mut bytes = buffer(self.alloc)?;
        let mut names = Vec::new(self.alloc);
        for _ in 0..u64::MAX {
            if !self.read_names(folder, &mut open, &mut bytes, &mut names)? {
                break;
            }
        }
        Ok(names)
    }

    // Adds the next names of an open folder, and tells whether there were any.
    fn read_names(
        &self,
        folder: &str,
        open: &mut R::Dir,
        bytes: &mut [u8],
        names: &mut Vec<Text>,
    ) -> Result<bool, Refused>
        ensures cause { IfErr result (λ refused. (refused ≡ Memory)
            ⊎ IsNamed Operation.List folder.now refused) }
    {
        let len = self.at(Operation::List, folder, open.read(bytes))?;
        self.add_names(&bytes[..len], names)?;
        Ok(len > 0)
    }

    // Opens a folder, to read its names. With the slash that may be the top folder by a link.
    fn open_folder(&self, folder: &str) -> Result<R::Dir, Refused>
        ensures cause { IfErr result (λ refused. (refused ≡ Memory)
            ⊎ IsNamed Operation.List folder.now refused) }
    {
        let place = format!(in self.alloc; "{folder}/")?;
        self.at(Operation::List, folder, self.rt.open_dir(place.as_str()))
    }

    // Adds names as a folder is read: with a zero byte behind each.
    fn add_names(&self, bytes: &[u8], names: &mut Vec<Text>) -> Result<(), Refused>
        ensures cause { IfErr result (λ refused. refused ≡ Memory) }
    {
        for name in bytes.split(|byte| *byte == 0) {
            if !is_passed_over(name) {
                self.add_name(name, names)?;
            }
        }
        Ok(())
    }

    fn add_name(&self, name: &[u8], names: &mut Vec<Text>) -> Result<(), Refused>
        ensures cause { IfErr result (λ refused. refused ≡ Memory) }
    {
        if let Some(name) = Text::from_utf8(self.alloc, name)? {
            names.push(name)?;
        }
        Ok(())
    }
}

// What the names of a folder are read into.
fn buffer(alloc: Global) -> Result<Vec<u8>, AllocError> {
    vec![in alloc; 0u8; READ_AT_ONCE]
}

// Whether a name begins with a dot, or is none: what is behind the last zero byte.
fn is_passed_over(name: &[u8]) -> bool {
    matches!(name.first(), None | Some(b'.'))
}

// Whether a file of this name says what is to be built: it isn't passed over in silence.
fn is_read_by_name(name: &Text) -> bool {
    matches!(name.as_str(), "Tupfile" | "Tuprules.tup" | "tup.config")
}
