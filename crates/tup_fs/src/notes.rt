//! The stamps of files that earlier calls digested, kept in `.tup/stamps`, so that these files needn't be read again.
//!
//! A stamp counts where the file looks as it did before it was read: the system would have given it a new time of change if
//! somebody had written to it. That is trusted only of files that were changed some time before the call began, on file systems
//! that are known to keep such times, and till the system is booted again. Each trouble means that files are read.
ghost use Rattle.std.specs.Prelude.{◌≡◌, ◌↔◌, ◌-◌, ◌*◌, length, IsTrue, IfSome};
ghost use Rattle.tup_fs.specs.Notes.{IsQuiet, IsStampIn, IsTakenFrom};
ghost use Rattle.tup_stamp.specs.Stamp.{stamp};

use crate::answers::Answers;
use crate::note_file::{Entry, Head};
use crate::{note_disk, note_file};
use std::alloc::{AllocError, Global};
use std::cmp::Ordering;
use std::fs::File;
use std::rt::Files;
use std::time::Duration;
use tup_disk::{Disk, Listed, Stat};
use tup_stamp::{Stamp, stamp_of};

/// How many nanoseconds a second has.
const SECOND: u64 = 1_000_000_000;

/// A time in nanoseconds, as far as they fit.
pub(crate) fn nanos(time: Duration) -> u64 {
    time.as_secs()
        .saturating_mul(SECOND)
        .saturating_add(u64::from(time.subsec_nanos()))
}

/// When the call began, and when a file has to have been changed at the latest whose stamp is noted; in nanoseconds since 1970.
#[derive(Clone, Copy)]
pub(crate) struct Since {
    pub began: u64,
    pub latest: u64,
}

impl Since {
    /// The files are those that were changed so many seconds before the call began.
    pub fn new(began: u64, seconds: u64) -> Since
        ensures began { result.began ≡ began }
        ensures latest { result.latest ≡ began - 1000000000 * seconds }
    {
        Since {
            began,
            latest: began.saturating_sub(SECOND.saturating_mul(seconds)),
        }
    }
}

/// Which files' stamps are noted: those of one device that were changed at this time at the latest.
#[derive(Clone, Copy)]
pub(crate) struct Quiet {
    pub head: Head,
    pub latest: u64,
}

impl Quiet {
    /// Whether the stamp of a file of which this is seen is noted.
    fn has(&self, stat: &Stat) -> bool
        ensures { IsTrue result ↔ IsQuiet self.now stat.now }
    {
        stat.inode.device == self.head.device && 0 < stat.changed && stat.changed <= self.latest
    }
}

/// What was seen of a file whose stamp is noted when it was listed, and that stamp, once it is known.
#[derive(Clone, Copy)]
pub(crate) struct Note {
    pub stat: Stat,
    pub stamp: Option<Stamp>,
}

/// What is noted of the files that were listed, in the order of listing.
#[derive(Drop)]
pub(crate) struct Notes {
    /// Whether stamps are to be noted.
    since: Option<Since>,
    /// Of which files they are, once that is known.
    quiet: Option<Quiet>,
    files: Vec<Option<Note>>,
    /// Whether a stamp is noted that isn't in the file.
    is_changed: bool,
}

impl Notes {
    /// Nothing is noted.
    pub fn none(alloc: Global) -> Notes {
        Notes {
            since: None,
            quiet: None,
            files: Vec::new(alloc),
            is_changed: false,
        }
    }

    /// From now on stamps are to be noted.
    pub fn keep(&mut self, since: Since) {
        self.since = Some(since);
    }

    /// Looks up what is noted of the files that were listed.
    pub fn list<R: Files<File = File> + Clone + Drop>(
        &mut self,
        disk: &Disk<R>,
        listed: &[Listed],
    ) -> Result<(), AllocError> {
        let Some(since) = self.since else {
            return Ok(());
        };
        if let Some(quiet) = note_disk::quiet(disk, since) {
            self.files = noted_of(disk, &quiet, listed)?;
            self.quiet = Some(quiet);
        }
        Ok(())
    }

    /// What is noted of the file that was listed at this place in the list, if its stamp is or may be.
    pub fn at(&self, at: usize) -> Option<Note> {
        match self.files.get(at) {
            Some(note) => *note,
            None => None,
        }
    }

    /// Notes the stamp of the file that was listed at this place in the list, and looks as it did then.
    pub fn note(&mut self, at: usize, stat: Stat, stamp: Stamp) {
        if let Some(note) = self.files.get_mut(at) {
            *note = Some(Note {
                stat,
                stamp: Some(stamp),
            });
            self.is_changed = true;
        }
    }

    /// Writes the file, if that has to be. It isn't told whether that was done.
    pub fn write<R: Files<File = File> + Clone + Drop>(&self, disk: &Disk<R>, answers: &Answers) {
        let Some(quiet) = self.quiet else {
            return;
        };
        if !self.is_changed {
            return;
        }
        if let Ok(bytes) = self.bytes(disk, &quiet.head, answers) {
            let _ = note_disk::write(disk, &bytes);
        }
    }

    // What is noted, as it stands in the file.
    fn bytes<R: Files<File = File> + Clone + Drop>(
        &self,
        disk: &Disk<R>,
        head: &Head,
        answers: &Answers,
    ) -> Result<Vec<u8>, AllocError> {
        let mut bytes = note_file::begin(disk.alloc, head)?;
        for (at, note) in self.files.iter().enumerate() {
            if let (Some(note), Some(place)) = (note, answers.place_at(at)) {
                add(&mut bytes, below(disk, place), note)?;
            }
        }
        note_file::seal(&mut bytes)?;
        Ok(bytes)
    }
}

/// Adds what is noted of the file at a place, if its stamp is known.
fn add(bytes: &mut Vec<u8>, place: &[u8], note: &Note) -> Result<(), AllocError> {
    let Some(stamp) = note.stamp else {
        return Ok(());
    };
    let entry = Entry {
        place,
        stat: note.stat,
        stamp,
    };
    note_file::add(bytes, &entry)
}

/// A place without that of the top.
fn below<'a, R: Files<File = File> + Clone + Drop>(disk: &Disk<R>, place: &'a str) -> &'a [u8] {
    let place = place.as_bytes();
    place.get(disk.root().len()..).unwrap_or(place)
}

/// What the file says of the files that were listed, as far as it is still true.
fn noted_of<R: Files<File = File> + Clone + Drop>(
    disk: &Disk<R>,
    quiet: &Quiet,
    listed: &[Listed],
) -> Result<Vec<Option<Note>>, AllocError> {
    let bytes = note_disk::read(disk);
    let bytes = match &bytes {
        Some(bytes) => bytes.as_slice(),
        None => &[],
    };
    let entries = note_file::entries_of(bytes, &quiet.head).unwrap_or(&[]);
    merged(disk, quiet, entries, listed)
}

/// The entries of the files that were listed. Both come in the order of listing.
fn merged<R: Files<File = File> + Clone + Drop>(
    disk: &Disk<R>,
    quiet: &Quiet,
    entries: &[u8],
    listed: &[Listed],
) -> Result<Vec<Option<Note>>, AllocError> {
    let mut notes = Vec::with_capacity(disk.alloc, listed.len())?;
    let mut rest = entries;
    for file in listed {
        let (entry, left) = entry_at(rest, quiet.head.device, below(disk, &file.place));
        notes.push(taken(quiet, entry, file.stat))?;
        rest = left;
    }
    Ok(notes)
}

/// The entry of a place, and those that come after it. Those before it are of files that aren't there any more.
fn entry_at<'a>(entries: &'a [u8], device: u64, place: &[u8]) -> (Option<Entry<'a>>, &'a [u8]) {
    let mut rest = entries;
    for _ in 0..u64::MAX {
        let Some((entry, left)) = note_file::first(rest, device) else {
            break;
        };
        match order(entry.place, place) {
            Ordering::Less => rest = left,
            Ordering::Equal => return (Some(entry), left),
            Ordering::Greater => break,
        }
    }
    (None, rest)
}

/// Which of two places is listed first: the one that is less deep, and of one depth the one whose names come first.
fn order(left: &[u8], right: &[u8]) -> Ordering {
    if left == right {
        return Ordering::Equal;
    }
    depth(left).cmp(&depth(right)).then(by_names(left, right))
}

fn depth(place: &[u8]) -> usize {
    place.iter().filter(|byte| **byte == b'/').count()
}

/// Which of two places comes first by their names. No name has a slash or a zero byte.
fn by_names(left: &[u8], right: &[u8]) -> Ordering {
    for (one, other) in left.iter().zip(right) {
        if one != other {
            return rank(*one).cmp(&rank(*other));
        }
    }
    left.len().cmp(&right.len())
}

/// A slash ends a name, so it comes before all that goes on with it.
fn rank(byte: u8) -> u8 {
    if byte == b'/' { 0 } else { byte }
}

/// What is noted of a file that was listed, if its stamp may be: that of the entry of its place, if the file looks as that says.
fn taken(quiet: &Quiet, entry: Option<Entry<'_>>, seen: Option<Stat>) -> Option<Note>
    ensures { IfSome result (IsTakenFrom quiet.now entry.entry seen) }
{
    let stat = seen?;
    if !quiet.has(&stat) {
        return None;
    }
    let stamp = stamp_in(entry, &stat);
    Some(Note { stat, stamp })
}

/// The stamp of an entry, if that is of a file that looks so.
fn stamp_in(entry: Option<Entry<'_>>, stat: &Stat) -> Option<Stamp>
    ensures { IfSome result (IsStampIn entry.entry stat.now) }
{
    match entry {
        Some(entry) if entry.stat == *stat => Some(entry.stamp),
        _ => None,
    }
}

/// The stamp of a content that was read from a file, if it is as long as the file looked before.
pub(crate) fn stamp_of_whole(stat: &Stat, content: &[u8]) -> Option<Stamp>
    ensures { IfSome result (λ found. (found ≡ stamp content.now) × (stat.now.len ≡ length content.now)) }
{
    if stat.len == content.len() as u64 {
        Some(stamp_of(content))
    } else {
        None
    }
}
