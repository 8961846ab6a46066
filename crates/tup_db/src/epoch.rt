//! An epoch: a time in which nothing is synced. The file `.tup/epoch` says how the store was when it began, which was durable,
//! and what was done since.
//!
//! Its file is there, durably, before anything else is done in it, and goes when all is durable. So a call that finds one keeps of
//! the store what is whole, and makes durable what stands.
ghost use Rattle.std.specs.Prelude.{◌≡◌, ◌⊎◌, ◌++◌, false, IfErr, OnOk, string_bytes};
ghost use Rattle.std.specs.BTreeSet.{IsEmpty};
ghost use Rattle.tup_db.specs.Cause.{HasNoEpoch, IsNotSettled, IsNotSynced, IsUnforgotten, IsUnfound, IsUnmeasured, IsUnnoted, IsUnrecovered, IsUnrestored, IsUnsummed};
ghost use Rattle.tup_db.specs.Own.{IsOwnBelow};
ghost use Rattle.tup_disk.specs.Told.{IsUnsynced};
ghost use Rattle.tup_disk.specs.declared.failure.Refused.TheVariants.{Memory};

use crate::notes::{ENOUGH, HEAD, Head, Kept, Note};
use crate::own::Own;
use crate::store::Store;
use std::fs::File;
use std::io::Read;
use std::os::unix::fs::FileExt;
use std::rt::Files;
use std::{fs, io};
use tup_disk::{Disk, Operation, Refused, Standing, Touched, sum, sum_behind};

/// An epoch that is open.
#[derive(Drop)]
pub struct Epoch {
    file: File,
    /// Where its next note goes.
    at: u64,
    /// Where the store's last gate stands.
    gate: u64,
    /// The sum of what stands before that.
    sum: u64,
    /// The commit behind that, once its bytes are written.
    next: Option<Commit>,
}

/// A commit: how many bytes it has, and the sum of it and all before it.
#[derive(Clone, Copy)]
struct Commit {
    len: u64,
    sum: u64,
}

impl Epoch {
    /// Begins an epoch over a store whose last gate stands there. What was done before is made durable first.
    pub fn begin<R: Files<File = File> + Clone + Drop>(
        disk: &Disk<R>,
        store: &mut Store,
        touched: &mut Touched,
        gate: u64,
    ) -> Result<Epoch, Refused>
        ensures settled { OnOk result (IsEmpty touched.new.places) }
        ensures none_lost { OnOk result (touched.new.is_lost ≡ false) }
        ensures placed { OnOk result (store.new.is_aside ≡ false) }
        ensures synced { OnOk result (store.new.is_lost ≡ false) }
        ensures cause { IfErr result (λ refused. IsNotSettled (string_bytes disk.now.root) touched.old refused
            ⊎ IsNotSynced (string_bytes disk.now.root) store.old refused
            ⊎ IsUnsummed store.new refused ⊎ HasNoEpoch store.old.own refused) }
    {
        touched.settle(disk)?;
        store.sync(disk)?;
        let head = Head {
            gate,
            sum: sum_before(disk, store, gate)?,
        };
        let file = make(disk, &store.own, head)?;
        Ok(Epoch {
            file,
            at: HEAD as u64,
            gate,
            sum: head.sum,
            next: None,
        })
    }

    /// Whether a write of the store is of a commit behind its last gate, or opens that gate once the commit is written.
    pub fn covers(&self, at: u64, bytes: &[u8]) -> bool {
        match self.next {
            None => at == self.gate.saturating_add(1) && !bytes.is_empty(),
            Some(_) => at == self.gate && matches!(bytes, [1]),
        }
    }

    /// Notes a write of the store that it covers.
    pub fn wrote<R: Files<File = File> + Clone + Drop>(
        &mut self,
        disk: &Disk<R>,
        own: &Own,
        bytes: &[u8],
    ) -> Result<(), Refused>
        ensures cause { IfErr result (IsUnnoted own.now) }
    {
        match (self.next, bytes.split_last()) {
            (Some(commit), _) => self.wrote_gate(disk, own, commit),
            (None, Some((_, commit))) => {
                self.next = Some(Commit {
                    len: bytes.len() as u64,
                    sum: sum_behind(self.sum, commit),
                });
                Ok(())
            }
            (None, None) => Ok(()),
        }
    }

    // The gate before this commit is open.
    fn wrote_gate<R: Files<File = File> + Clone + Drop>(
        &mut self,
        disk: &Disk<R>,
        own: &Own,
        commit: Commit,
    ) -> Result<(), Refused>
        ensures cause { IfErr result (IsUnnoted own.now) }
    {
        let Commit { len, sum } = commit;
        self.note(disk, own, &Note::Commit { len, sum })?;
        self.gate = self.gate.saturating_add(len);
        self.sum = sum;
        self.next = None;
        Ok(())
    }

    /// Notes that a place below the top is to be touched.
    pub fn touch<R: Files<File = File> + Clone + Drop>(
        &mut self,
        disk: &Disk<R>,
        own: &Own,
        place: &str,
    ) -> Result<(), Refused>
        ensures cause { IfErr result (IsUnnoted own.now) }
    {
        self.note(disk, own, &Note::Place(place.as_bytes()))
    }

    fn note<R: Files<File = File> + Clone + Drop>(
        &mut self,
        disk: &Disk<R>,
        own: &Own,
        note: &Note,
    ) -> Result<(), Refused>
        ensures cause { IfErr result (IsUnnoted own.now) }
    {
        let bytes = note.bytes(disk.alloc)?;
        let done = self.file.write_all_at(&bytes, self.at);
        disk.at(Operation::Write, own.epoch.as_str(), done)?;
        self.at = self.at.saturating_add(bytes.len() as u64);
        Ok(())
    }
}

/// Ends the epoch that is open: all that was done is made durable before its file goes, and that it went is too.
pub fn end_epoch<R: Files<File = File> + Clone + Drop>(
    disk: &Disk<R>,
    store: &mut Store,
    touched: &mut Touched,
) -> Result<(), Refused>
    ensures settled { OnOk result (IsEmpty touched.new.places) }
    ensures none_lost { OnOk result (touched.new.is_lost ≡ false) }
    ensures placed { OnOk result (store.new.is_aside ≡ false) }
    ensures synced { OnOk result (store.new.is_lost ≡ false) }
    ensures cause { IfErr result (λ refused. IsNotSettled (string_bytes disk.now.root) touched.old refused
        ⊎ IsNotSynced (string_bytes disk.now.root) store.old refused ⊎ IsUnforgotten store.old.own refused) }
{
    touched.settle(disk)?;
    store.sync(disk)?;
    forget(disk, &store.own)
}

/// Where a run that died has left an epoch, keeps what is whole of the store, and makes it and all that was touched durable.
pub fn recover<R: Files<File = File> + Clone + Drop>(
    disk: &Disk<R>,
    own: &Own,
    lock: &File,
) -> Result<(), Refused>
    ensures cause { IfErr result (IsUnrecovered (string_bytes disk.now.root) own.now) }
{
    let Some(bytes) = found(disk, own)? else {
        return Ok(());
    };
    let place = own.epoch.as_str();
    if !disk.is_locked(lock) {
        let error = io::Error::other("an epoch is open where the file system knows no locks");
        return Err(disk.refused(Operation::Lock, place, error));
    }
    let Some((head, notes)) = Head::of(&bytes) else {
        let error = io::Error::other("it isn't whole");
        return Err(disk.refused(Operation::Read, place, error));
    };
    keep(disk, head, notes)?;
    forget(disk, own)
}

// The bytes of the epoch's file, if there is one.
fn found<R: Files<File = File> + Clone + Drop>(
    disk: &Disk<R>,
    own: &Own,
) -> Result<Option<Vec<u8>>, Refused>
    ensures cause { IfErr result (IsUnfound own.now) }
{
    let place = own.epoch.as_str();
    match disk.standing(place)? {
        Standing::Nothing => Ok(None),
        Standing::File { .. } => {
            let mut file = disk.open(place)?;
            let mut bytes = Vec::new(disk.alloc);
            disk.at(Operation::Read, place, file.read_to_end(&mut bytes))?;
            Ok(Some(bytes))
        }
        _ => Err(disk.in_the_way(place)),
    }
}

// Keeps what is whole of the store, if it is the one with which the epoch began, and makes all durable.
fn keep<R: Files<File = File> + Clone + Drop>(
    disk: &Disk<R>,
    head: Head,
    notes: &[u8],
) -> Result<(), Refused>
    ensures cause { IfErr result (IsUnrestored (string_bytes disk.now.root)) }
{
    let mut store = Store::new(disk.alloc, disk.root())?;
    let bytes = bytes_of(disk, &store)?;
    if !head.is_of(&bytes) {
        return Ok(());
    }
    let kept = Kept::of(disk.alloc, head, &bytes, notes)?;
    restore(disk, &mut store, &bytes, &kept)
}

// All bytes of a store.
fn bytes_of<R: Files<File = File> + Clone + Drop>(
    disk: &Disk<R>,
    store: &Store,
) -> Result<Vec<u8>, Refused>
    ensures cause { IfErr result (λ refused. IsUnmeasured store.now refused ⊎ IsUnsummed store.now refused) }
{
    let len = store.len(disk)?;
    let mut bytes = vec![in disk.alloc; 0u8; len as usize]?;
    store.read(disk, 0, &mut bytes)?;
    Ok(bytes)
}

// Has a store of these bytes hold what is whole of it, and makes that durable, and all that was touched.
fn restore<R: Files<File = File> + Clone + Drop>(
    disk: &Disk<R>,
    store: &mut Store,
    bytes: &[u8],
    kept: &Kept,
) -> Result<(), Refused>
    requires { IsOwnBelow (string_bytes disk.now.root) store.old.own }
    ensures cause { IfErr result (IsUnrestored (string_bytes disk.now.root)) }
{
    cut(disk, store, bytes, &kept.gates)?;
    store.sync(disk)?;
    for place in kept.places.iter() {
        sync_below(disk, place)?;
    }
    Ok(())
}

// Has these gates of a store stand open but for the last, and nothing behind that.
fn cut<R: Files<File = File> + Clone + Drop>(
    disk: &Disk<R>,
    store: &mut Store,
    bytes: &[u8],
    gates: &[u64],
) -> Result<(), Refused>
    requires { IsOwnBelow (string_bytes disk.now.root) store.old.own }
    ensures own { store.new.own ≡ store.old.own }
    ensures cause { IfErr result (IsUnrestored (string_bytes disk.now.root)) }
{
    let Some((last, before)) = gates.split_last() else {
        return Ok(());
    };
    for gate in before {
        set_gate(disk, store, bytes, *gate, 1)?;
    }
    store.cut(disk, last.saturating_add(1))?;
    set_gate(disk, store, bytes, *last, 0)
}

// Writes a gate unless it stands so.
fn set_gate<R: Files<File = File> + Clone + Drop>(
    disk: &Disk<R>,
    store: &mut Store,
    bytes: &[u8],
    gate: u64,
    byte: u8,
) -> Result<(), Refused>
    requires { IsOwnBelow (string_bytes disk.now.root) store.old.own }
    ensures own { store.new.own ≡ store.old.own }
    ensures cause { IfErr result (IsUnrestored (string_bytes disk.now.root)) }
{
    if bytes.get(gate as usize) == Some(&byte) {
        return Ok(());
    }
    store.write(disk, gate, &[byte])
}

// Makes a place below the top durable.
fn sync_below<R: Files<File = File> + Clone + Drop>(
    disk: &Disk<R>,
    place: &[u8],
) -> Result<(), Refused>
    ensures cause { IfErr result (λ refused. (refused ≡ Memory)
        ⊎ IsUnsynced (string_bytes disk.now.root ++ place.now) refused) }
{
    let Ok(below) = str::from_utf8(place) else {
        return Ok(());
    };
    let root = disk.root();
    let place = format!(in disk.alloc; "{root}{below}")?;
    disk.sync(place.as_str())
}

// The sum of the bytes of a store before a gate.
fn sum_before<R: Files<File = File> + Clone + Drop>(
    disk: &Disk<R>,
    store: &Store,
    gate: u64,
) -> Result<u64, Refused>
    ensures cause { IfErr result (IsUnsummed store.now) }
{
    let len = gate.min(ENOUGH);
    let mut bytes = vec![in disk.alloc; 0u8; len as usize]?;
    store.read(disk, gate - len, &mut bytes)?;
    Ok(sum(&bytes))
}

// Makes the epoch's file, durably.
fn make<R: Files<File = File> + Clone + Drop>(
    disk: &Disk<R>,
    own: &Own,
    head: Head,
) -> Result<File, Refused>
    ensures cause { IfErr result (HasNoEpoch own.now) }
{
    let (epoch, aside) = (own.epoch.as_str(), own.epoch_aside.as_str());
    let bytes = head.bytes(disk.alloc)?;
    let file = disk.at(Operation::Make, aside, File::create_new(&disk.rt, aside))?;
    disk.at(Operation::Write, aside, file.write_all_at(&bytes, 0))?;
    disk.sync_bytes(&file, aside)?;
    let renamed = fs::rename(&disk.rt, aside, epoch);
    disk.at(Operation::Rename, epoch, renamed)?;
    disk.sync(own.folder.as_str())?;
    Ok(file)
}

// Takes the epoch's file away, durably.
fn forget<R: Files<File = File> + Clone + Drop>(disk: &Disk<R>, own: &Own) -> Result<(), Refused>
    ensures cause { IfErr result (IsUnforgotten own.now) }
{
    disk.remove(own.epoch.as_str())?;
    disk.sync(own.folder.as_str())
}
