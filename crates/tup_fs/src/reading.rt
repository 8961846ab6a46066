//! One file, read as a whole, or where a link leads.
ghost use Rattle.std.specs.Prelude.{◌≡◌, IfOk, MatchOption, string_bytes};
ghost use Rattle.tup_disk.specs.Place.{place_of};
ghost use Rattle.tup_fs.specs.Answers.{Follows, HasStamp, IsKnownBy, Learns, StayKnown, TellsStamp, content_of, known_at, known_of};
ghost use Rattle.tup_fs.specs.Found.{IsFoundAs, IsTextOf, IsWithin};

use crate::answers::Known;
use crate::notes::{Note, stamp_of_whole};
use crate::tree::Tree;
use std::fs::File;
use std::io;
use std::io::{ErrorKind, Read};
use std::rt::Files;
use tup_disk::{Disk, Operation, Refused, Standing, Stat, sum};
use tup_path::{Bytes, Path};
use tup_site::MAX_DISK_FILE_BYTES;
use tup_stamp::Stamp;

/// What is found where a file is asked for.
#[derive(Drop)]
pub(crate) enum Found {
    Nothing,
    /// At most `MAX_DISK_FILE_BYTES` bytes.
    Content(Bytes),
    /// So many bytes, more than `MAX_DISK_FILE_BYTES`.
    TooLarge(u64),
}

impl Tree {
    /// What the file at a path holds. A file that is too large isn't read. A link holds where it leads: nothing is
    /// read through it. It is refused if it isn't what was answered before.
    pub fn find<R: Files<File = File> + Clone + Drop>(
        &mut self,
        disk: &Disk<R>,
        path: &Path,
    ) -> Result<Found, Refused>
        ensures within { IfOk result IsWithin }
        ensures follows { IfOk result (λ found. Follows self.old.answers
            (place_of (string_bytes disk.now.root) path.now) (known_of found)) }
        ensures stamp { IfOk result (λ found. HasStamp (known_at self.old.answers
            (place_of (string_bytes disk.now.root) path.now)) (content_of found)) }
        ensures learns { IfOk result (λ found. Learns self.old.answers self.new.answers
            (place_of (string_bytes disk.now.root) path.now) (known_of found)) }
    {
        let place = disk.place(path.names())?;
        let known = self.answers.known_at(place.as_str());
        let found = self.look(disk, path, place.as_str(), known)?;
        let is_there = !matches!(found, Found::Nothing);
        match self.answers.follow(disk, place, known, found) {
            Err(refused) if is_there => Err(self.blame(disk, path, refused)),
            told => told,
        }
    }

    // Why a file that is there isn't what was answered. Where case isn't told apart it may be one of another spelling.
    fn blame<R: Files<File = File> + Clone + Drop>(
        &mut self,
        disk: &Disk<R>,
        path: &Path,
        refused: Refused,
    ) -> Refused {
        match self.check_path(disk, path) {
            Err(misspelled) => misspelled,
            Ok(()) => refused,
        }
    }

    fn check_path<R: Files<File = File> + Clone + Drop>(
        &mut self,
        disk: &Disk<R>,
        path: &Path,
    ) -> Result<(), Refused> {
        let place = disk.place(path.names())?;
        self.check_spelling(disk, path, place.as_str())
    }

    /// The stamp of the file at a path, if it is noted or may be, and the file wasn't asked for, put or removed since it was
    /// listed.
    pub fn noted<R: Files<File = File> + Clone + Drop>(
        &mut self,
        disk: &Disk<R>,
        path: &Path,
    ) -> Option<Stamp>
        ensures { MatchOption result (StayKnown self.old.answers self.new.answers)
            (TellsStamp self.old.answers self.new.answers
            (place_of (string_bytes disk.now.root) path.now)) }
    {
        let place = disk.place(path.names()).ok()?;
        let Known::File(Some(_)) = self.answers.known_at(place.as_str()) else {
            return None;
        };
        let at = self.answers.index_of(place.as_str())?;
        match self.notes.at(at)? {
            Note {
                stamp: Some(stamp),
                ..
            } => self.tell(place, Known::Noted(stamp), stamp),
            Note { stat, .. } => self.read_noted(disk, place, at, stat),
        }
    }

    // Tells the stamp of the file at a place, of which this is known from now on.
    fn tell(&mut self, place: String, known: Known, stamp: Stamp) -> Option<Stamp>
        requires { IsKnownBy stamp known }
        ensures { MatchOption result (StayKnown self.old.answers self.new.answers)
            (TellsStamp self.old.answers self.new.answers (string_bytes place)) }
    {
        match self.answers.learn(place, known) {
            Ok(()) => Some(stamp),
            Err(_) => None,
        }
    }

    // Reads the file at a place, if it still looks as when it was listed, and notes its stamp.
    fn read_noted<R: Files<File = File> + Clone + Drop>(
        &mut self,
        disk: &Disk<R>,
        place: String,
        at: usize,
        seen: Stat,
    ) -> Option<Stamp>
        ensures { MatchOption result (StayKnown self.old.answers self.new.answers)
            (TellsStamp self.old.answers self.new.answers (string_bytes place)) }
    {
        let bytes = read_as_seen(disk, place.as_str(), &seen)?;
        let stamp = stamp_of_whole(&seen, bytes.as_slice())?;
        self.notes.note(at, seen, stamp);
        self.tell(place, Known::Sum(sum(bytes.as_slice())), stamp)
    }

    // What stands at a path now, of whose place this is known.
    fn look<R: Files<File = File> + Clone + Drop>(
        &mut self,
        disk: &Disk<R>,
        path: &Path,
        place: &str,
        known: Known,
    ) -> Result<Found, Refused>
        ensures within { IfOk result IsWithin }
        ensures answers { self.new.answers ≡ self.old.answers }
    {
        if disk.standing_above(&mut self.seen, path)? != Standing::Folder {
            return Ok(Found::Nothing);
        }
        if let Some((file, stat)) = open_listed(disk, place, known)? {
            return read_within(disk, file, place, stat.len);
        }
        match disk.standing(place)? {
            Standing::File { len, .. } if len > MAX_DISK_FILE_BYTES => Ok(Found::TooLarge(len)),
            Standing::File { len, .. } => read(disk, disk.open(place)?, place, len),
            Standing::Link => Ok(text_of(disk.target(place)?)),
            Standing::Other => self.note_strange(disk, place),
            Standing::Nothing | Standing::Folder => Ok(Found::Nothing),
        }
    }

    // Notes that a pipe, a socket or a device stands at a place, where none is noted yet: it is no file.
    fn note_strange<R: Files<File = File> + Clone + Drop>(
        &mut self,
        disk: &Disk<R>,
        place: &str,
    ) -> Result<Found, Refused>
        ensures within { IfOk result IsWithin }
        ensures answers { self.new.answers ≡ self.old.answers }
    {
        if self.strange.is_none() {
            self.strange = Some(String::from_str(disk.alloc, place)?);
        }
        Ok(Found::Nothing)
    }
}

/// The file that was listed at a place, if it wasn't read yet and is there still, with what is seen of it before it is read: it
/// isn't looked at by its place again.
fn open_listed<R: Files<File = File> + Clone + Drop>(
    disk: &Disk<R>,
    place: &str,
    known: Known,
) -> Result<Option<(File, Stat)>, Refused> {
    match known {
        Known::File(Some(inode)) => disk.open_listed(place, inode),
        _ => Ok(None),
    }
}

/// What the file at a place holds, if it can be read, and looked so before it was.
fn read_as_seen<R: Files<File = File> + Clone + Drop>(
    disk: &Disk<R>,
    place: &str,
    seen: &Stat,
) -> Option<Bytes> {
    let (file, stat) = disk.open_listed(place, seen.inode).ok()??;
    if stat != *seen {
        return None;
    }
    match read_within(disk, file, place, stat.len) {
        Ok(Found::Content(bytes)) => Some(bytes),
        _ => None,
    }
}

/// What an open file holds, if it isn't too large by the length that it had when it was looked at.
fn read_within<R: Files<File = File> + Clone + Drop>(
    disk: &Disk<R>,
    file: File,
    place: &str,
    len: u64,
) -> Result<Found, Refused>
    ensures { IfOk result IsWithin }
{
    if len > MAX_DISK_FILE_BYTES {
        return Ok(Found::TooLarge(len));
    }
    read(disk, file, place, len)
}

/// What is found at a link that leads there.
fn text_of(target: Option<String>) -> Found
    ensures within { IsWithin result }
    ensures text { IsTextOf target result }
{
    match target {
        Some(text) => whole(text.into_bytes()),
        None => Found::Nothing,
    }
}

/// What is found where these are all bytes.
fn whole(bytes: Vec<u8>) -> Found
    ensures within { IsWithin result }
    ensures bytes { IsFoundAs bytes.items result }
{
    let len = bytes.len() as u64;
    if len > MAX_DISK_FILE_BYTES {
        Found::TooLarge(len)
    } else {
        Found::Content(Bytes::new(bytes))
    }
}

/// What an open file holds, which had so many bytes when it was looked at.
pub(crate) fn read<R: Files<File = File> + Clone + Drop>(
    disk: &Disk<R>,
    file: File,
    place: &str,
    len: u64,
) -> Result<Found, Refused>
    ensures { IfOk result IsWithin }
{
    let mut bytes = vec![in disk.alloc; 0u8; len.min(MAX_DISK_FILE_BYTES) as usize + 1]?;
    match read_into(&mut bytes, file, len) {
        Err(e) if e.kind() == ErrorKind::OutOfMemory => return Err(Refused::Memory),
        done => disk.at(Operation::Read, place, done)?,
    }
    Ok(whole(bytes))
}

// Where one call gives just the bytes that were to be expected, with room for one more, there are no
// others. Else it reads on, at most to one byte more than a file may have.
fn read_into(bytes: &mut Vec<u8>, file: File, len: u64) -> io::Result<()> {
    let mut file = file;
    let first = match file.read(bytes) {
        Err(e) if e.kind() == ErrorKind::Interrupted => 0,
        done => done?,
    };
    bytes.truncate(first);
    let first = first as u64;
    if first != len {
        file.take((MAX_DISK_FILE_BYTES + 1).saturating_sub(first))
            .read_to_end(bytes)?;
    }
    Ok(())
}
