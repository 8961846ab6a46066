//! What was answered for the files, so that no later answer says anything else.
ghost use Rattle.std.specs.Prelude.{◌≡◌, ◌⊎◌, ◌↔◌, not, is_some, IfOk, IfErr, IsTrue, OnOk, OnErr, string_bytes};
ghost use Rattle.std.specs.HashMap.{get_by_text};
ghost use Rattle.tup_disk.specs.Told.{IsNamed};
ghost use Rattle.tup_disk.specs.declared.failure.Operation.TheVariants as operation;
ghost use Rattle.tup_disk.specs.declared.failure.Refused.TheVariants.{Memory};
ghost use Rattle.tup_fs.specs.Answers.{Follows, HasStamp, IsNext, Learns, StayKnown};
ghost use Rattle.tup_fs.specs.Answers as specs;
ghost use Rattle.tup_fs.specs.declared.answers.Known.TheVariants.{Noted, Unknown};

use crate::reading::Found;
use indexmap::IndexMap;
use std::alloc::Global;
use std::fs::File;
use std::io;
use std::rt::Files;
use tup_disk::{Disk, Inode, Listed, Operation, Refused, sum};
use tup_stamp::{Stamp, stamp_of};

/// What is said of a file that holds something else than it did.
const CHANGED: &str = "it was changed while tup ran";

/// What is known of a place.
#[derive(Clone, Copy)]
pub(crate) enum Known {
    /// Anything may be there.
    Unknown,
    /// No file is there.
    Absent,
    /// A file is there: this one, where it was listed and not read yet.
    File(Option<Inode>),
    /// A file is there, and its content has this sum.
    Sum(u64),
    /// A file is there, and its content has this stamp.
    Noted(Stamp),
}

/// What is known of all places, by what was listed, read, put and removed.
#[derive(Drop)]
pub(crate) struct Answers {
    places: IndexMap<String, Known>,
    /// The place behind the one that was last learned of: files are mostly asked for as they were listed, folder by folder.
    next: usize,
    is_listed: bool,
}

impl Answers {
    /// Nothing was answered yet.
    pub fn new(alloc: Global) -> Answers
        ensures { (place : _) → specs.known_at result place ≡ Unknown }
    {
        Answers {
            places: IndexMap::new(alloc),
            next: 0,
            is_listed: false,
        }
    }

    /// What is known of a place. Once the files were listed, none is at any other place.
    pub fn known_at(&self, place: &str) -> Known
        ensures { result ≡ specs.known_at self.now place.now }
    {
        match self.noted(place) {
            Some(known) => known,
            None if self.is_listed => Known::Absent,
            None => Known::Unknown,
        }
    }

    // What was noted of a place. Mostly that is the next one.
    fn noted(&self, place: &str) -> Option<Known>
        ensures { result ≡ get_by_text self.now.places place.now }
    {
        match self.places.get_index(self.next) {
            Some((next, known)) if next.as_str() == place => Some(*known),
            _ => self.places.get(place).copied(),
        }
    }

    // Whether a place is the next one.
    fn is_next(&self, place: &str) -> bool
        ensures { IsTrue result → IsNext self.now place.now }
    {
        match self.places.get_index(self.next) {
            Some((next, _)) => next.as_str() == place,
            None => false,
        }
    }

    /// From now on this is known of a place.
    pub fn learn(&mut self, place: String, known: Known) -> Result<(), Refused>
        ensures learns { OnOk result (Learns self.old self.new (string_bytes place) known) }
        ensures unchanged { OnErr result ((other : _)
            → specs.known_at self.new other ≡ specs.known_at self.old other) }
        ensures memory { IfErr result (λ refused. refused ≡ Memory) }
        ensures list { self.new.is_listed ≡ self.old.is_listed }
    {
        if self.is_next(place.as_str()) {
            self.learn_next(place.as_str(), known);
            return Ok(());
        }
        let (at, _) = self.places.insert_full(place, known)?;
        self.next = at.saturating_add(1);
        Ok(())
    }

    // From now on this is known of the next place.
    fn learn_next(&mut self, place: &str, known: Known)
        requires { IsNext self.old place.now }
        ensures learns { Learns self.old self.new place.now known }
        ensures list { self.new.is_listed ≡ self.old.is_listed }
    {
        let (_, there) = self.places.pair_mut(self.next);
        *there = known;
        self.next = self.next.saturating_add(1);
    }

    /// Whether nothing was learned of any place yet.
    pub fn is_new(&self) -> bool {
        self.places.is_empty()
    }

    /// Which of the places that were listed this is, if it wasn't asked for before that.
    pub fn index_of(&self, place: &str) -> Option<usize> {
        if self.is_next(place) {
            return Some(self.next);
        }
        self.places.get_index_of(place)
    }

    /// The place that was listed as this one.
    pub fn place_at(&self, at: usize) -> Option<&str> {
        match self.places.get_index(at) {
            Some((place, _)) => Some(place.as_str()),
            None => None,
        }
    }

    /// These are all files that there are. What was answered before still holds, as after the second time.
    pub fn list(&mut self, alloc: Global, files: Vec<Listed>) -> Result<(), Refused>
        ensures keeps { StayKnown self.old self.new }
    {
        if self.is_listed {
            return Ok(());
        }
        if self.places.is_empty() {
            self.places = places_of(alloc, files)?;
        } else {
            self.add_all(files)?;
        }
        self.is_listed = true;
        Ok(())
    }

    // There is a file at each of these places of which nothing else is known.
    fn add_all(&mut self, files: Vec<Listed>) -> Result<(), Refused>
        ensures keeps { StayKnown self.old self.new }
        ensures list { self.new.is_listed ≡ self.old.is_listed }
    {
        for file in files {
            self.add(file)?;
        }
        Ok(())
    }

    // A file is at a place, if nothing else is known of it.
    fn add(&mut self, file: Listed) -> Result<(), Refused>
        ensures keeps { StayKnown self.old self.new }
        ensures list { self.new.is_listed ≡ self.old.is_listed }
    {
        let known = listed(&file);
        let place = file.place;
        match self.known_at(place.as_str()) {
            Known::Unknown => self.learn(place, known),
            _ => Ok(()),
        }
    }

    /// Gives on what was found at a place of which this is known, and remembers it. It is refused where something else is
    /// known of the place.
    pub fn follow<R: Files<File = File> + Clone + Drop>(
        &mut self,
        disk: &Disk<R>,
        place: String,
        known: Known,
        found: Found,
    ) -> Result<Found, Refused>
        requires { known ≡ specs.known_at self.old (string_bytes place) }
        ensures given { IfOk result (λ answer. answer ≡ found) }
        ensures follows { OnOk result (Follows self.old (string_bytes place) (specs.known_of found)) }
        ensures stamp { OnOk result (HasStamp known (specs.content_of found)) }
        ensures learns { OnOk result
            (Learns self.old self.new (string_bytes place) (specs.known_of found)) }
        ensures unchanged { OnErr result ((other : _)
            → specs.known_at self.new other ≡ specs.known_at self.old other) }
        ensures cause { IfErr result (λ refused. (refused ≡ Memory)
            ⊎ (IsNamed operation.Read (string_bytes place) refused
            × (Follows self.old (string_bytes place) (specs.known_of found)
            → HasStamp known (specs.content_of found) → ⊥))) }
    {
        let now = known_of(&found);
        if let Some(change) = change(known, now) {
            let error = io::Error::other(change);
            return Err(disk.refused(Operation::Read, place.as_str(), error));
        }
        if !has_stamp(known, &found) {
            let error = io::Error::other(CHANGED);
            return Err(disk.refused(Operation::Read, place.as_str(), error));
        }
        self.learn(place, now)?;
        Ok(found)
    }
}

/// What is known of the places of these files, and of no others.
fn places_of(alloc: Global, files: Vec<Listed>) -> Result<IndexMap<String, Known>, Refused> {
    let mut places = IndexMap::with_capacity(alloc, files.len())?;
    for file in files {
        let known = listed(&file);
        places.insert(file.place, known)?;
    }
    Ok(places)
}

/// What is known of the place of a file that was listed.
fn listed(file: &Listed) -> Known {
    Known::File(file.stat.map(|stat| stat.inode))
}

/// What is known of a place where this was found.
fn known_of(found: &Found) -> Known
    ensures { result ≡ specs.known_of found.now }
{
    match found {
        Found::Nothing => Known::Absent,
        Found::Content(bytes) => Known::Sum(sum(bytes.as_slice())),
        Found::TooLarge(_) => Known::File(None),
    }
}

/// What happened to a file, if what is known now can't follow from what was known.
fn change(known: Known, now: Known) -> Option<&'static str>
    ensures { is_some result ≡ not (specs.may_follow known now) }
{
    match (known, now) {
        (Known::Unknown, _) => None,
        // What goes between its listing and its first reading was never read.
        (Known::Absent | Known::File(_), Known::Absent) => None,
        (Known::Absent, _) => Some("it was not there before"),
        (_, Known::Absent) => Some("it was removed while tup ran"),
        (Known::File(_), Known::File(_) | Known::Sum(_) | Known::Noted(_)) => None,
        (Known::Sum(before), Known::Sum(after)) if before == after => None,
        (Known::Noted(_), Known::Sum(_)) => None,
        _ => Some(CHANGED),
    }
}

/// Whether a content that was found has the stamp that was told of its place, if one was.
fn has_stamp(known: Known, found: &Found) -> bool
    ensures { IsTrue result ↔ HasStamp known (specs.content_of found.now) }
{
    match known {
        Known::Noted(stamp) => has(stamp, found),
        Known::Unknown | Known::Absent | Known::File(_) | Known::Sum(_) => true,
    }
}

/// Whether a content that was found has a stamp.
fn has(stamp: Stamp, found: &Found) -> bool
    ensures { IsTrue result ↔ HasStamp (Noted stamp) (specs.content_of found.now) }
{
    match found {
        Found::Content(bytes) => stamp_of(bytes.as_slice()) == stamp,
        Found::Nothing | Found::TooLarge(_) => true,
    }
}
