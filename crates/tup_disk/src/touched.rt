//! What isn't durable yet.
ghost use Rattle.std.specs.Prelude.{◌≡◌, ◌⊎◌, ◌↔◌, false, IfErr, OnOk, OnErr, IsErr, IsTrue, map, string_bytes};
ghost use Rattle.std.specs.BTreeSet.{IsEmpty};
ghost use Rattle.tup_disk.specs.Marked.{IsMarked, AllMarked, StayMarked, places_above};
ghost use Rattle.tup_disk.specs.Place.{place_of};
ghost use Rattle.tup_disk.specs.Told.{IsOwn, IsUnsyncedAmong};
ghost use Rattle.tup_disk.specs.declared.failure.Operation.TheVariants as operation;
ghost use Rattle.tup_disk.specs.declared.failure.Refused.TheVariants.{Memory};

use crate::disk::Disk;
use crate::failure::Refused;
use std::alloc::Global;
use std::collections::BTreeSet;
use std::fs::File;
use std::rt::Files;
use tup_path::Path;

/// The places that a settle makes durable: of the files that were put since the last one, and of
/// the folders in which names came or went.
#[derive(Drop)]
pub struct Touched {
    pub(crate) places: BTreeSet<String>,
    pub(crate) is_lost: bool,
}

impl Touched {
    /// Nothing is touched, and nothing is lost.
    pub fn new(alloc: Global) -> Touched
        ensures places { IsEmpty result.places }
        ensures lost { result.is_lost ≡ false }
    {
        Touched {
            places: BTreeSet::new(alloc),
            is_lost: false,
        }
    }

    /// Whether a place is marked.
    pub fn has(&self, place: &String) -> bool
        ensures { IsTrue result ↔ IsMarked self.now.places (string_bytes place.now) }
    {
        self.places.contains(place)
    }

    /// Marks the folders above a path, the top among them: also those that a run which died has
    /// made or emptied.
    pub fn add<R: Files<File = File> + Clone + Drop>(
        &mut self,
        disk: &Disk<R>,
        path: &Path,
    ) -> Result<(), Refused>
        ensures touched { OnOk result
            (AllMarked self.new.places (places_above (string_bytes disk.now.root) path.now)) }
        ensures keeps { StayMarked self.old.places self.new.places }
        ensures lost { self.new.is_lost ≡ self.old.is_lost }
        ensures cause { IfErr result (λ refused. refused ≡ Memory) }
    {
        let top = String::from_str(disk.alloc, disk.root())?;
        let folders = disk.folders_above(path)?;
        mark_all(&mut self.places, folders.as_slice())?;
        mark(&mut self.places, &top)
    }

    /// Marks a file, and the folders above it: also one that a run which died has written.
    pub fn add_file<R: Files<File = File> + Clone + Drop>(
        &mut self,
        disk: &Disk<R>,
        path: &Path,
    ) -> Result<(), Refused>
        ensures touched { OnOk result
            (AllMarked self.new.places (places_above (string_bytes disk.now.root) path.now)) }
        ensures file { OnOk result
            (IsMarked self.new.places (place_of (string_bytes disk.now.root) path.now)) }
        ensures keeps { StayMarked self.old.places self.new.places }
        ensures lost { self.new.is_lost ≡ self.old.is_lost }
        ensures cause { IfErr result (λ refused. refused ≡ Memory) }
    {
        let place = disk.place(path.names())?;
        mark(&mut self.places, &place)?;
        self.add(disk, path)
    }

    /// Makes durable what was touched. The system tells a lost write but once: so after a failure
    /// none of it settles any more.
    pub fn settle<R: Files<File = File> + Clone + Drop>(
        &mut self,
        disk: &Disk<R>,
    ) -> Result<(), Refused>
        ensures settled { OnOk result (IsEmpty self.new.places) }
        ensures kept { OnErr result (self.new.places ≡ self.old.places) }
        ensures lost { OnErr result (IsTrue self.new.is_lost) }
        ensures none_lost { OnOk result (self.new.is_lost ≡ false) }
        ensures for_good { IsTrue self.old.is_lost → IsErr result }
        ensures cause { IfErr result (λ refused.
            (IsTrue self.old.is_lost
            × IsOwn operation.Sync (string_bytes disk.now.root) refused)
            ⊎ IsUnsyncedAmong self.old.places refused) }
    {
        if self.is_lost {
            return Err(disk.lost(disk.root()));
        }
        self.is_lost = true;
        self.sync(disk)?;
        self.places.clear();
        self.is_lost = false;
        Ok(())
    }

    fn sync<R: Files<File = File> + Clone + Drop>(&self, disk: &Disk<R>) -> Result<(), Refused>
        ensures cause { IfErr result (IsUnsyncedAmong self.now.places) }
    {
        for place in self.places.iter() {
            disk.sync(place.as_str())?;
        }
        Ok(())
    }
}

fn mark_all(marked: &mut BTreeSet<String>, folders: &[String]) -> Result<(), Refused>
    ensures marked { OnOk result (AllMarked marked.new (map string_bytes folders.now)) }
    ensures keeps { StayMarked marked.old marked.new }
    ensures cause { IfErr result (λ refused. refused ≡ Memory) }
{
    for folder in folders {
        mark(marked, folder)?;
    }
    Ok(())
}

fn mark(marked: &mut BTreeSet<String>, place: &String) -> Result<(), Refused>
    ensures marked { OnOk result (IsMarked marked.new (string_bytes place.now)) }
    ensures keeps { StayMarked marked.old marked.new }
    ensures cause { IfErr result (λ refused. refused ≡ Memory) }
{
    marked.insert(place.clone()?)?;
    Ok(())
}
