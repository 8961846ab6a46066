//! The store's file. It is written in its place: a write that was stopped leaves any bytes in its own
//! range, and who writes has to reckon with that. Only a store that is made stands aside till it is
//! durable: so there is none, or one that was synced.
ghost use Rattle.std.specs.Prelude.{◌≡◌, ◌⊎◌, false, IfOk, IfErr, OnOk, OnErr, IsOk, IsErr, IsTrue, is_some, string_bytes};
ghost use Rattle.tup_db.specs.Cause as cause;
ghost use Rattle.tup_db.specs.Cause.{HasNoFile, IsBlocked, IsNotSynced, IsUnbegun, IsUncopied, IsUnmadeAside, IsUnmeasured, IsUnnamed, IsUnread, IsUnreadInPlace, IsUnsettled};
ghost use Rattle.tup_db.specs.Own.{IsOwnBelow};
ghost use Rattle.tup_disk.specs.Told.{IsNamed, IsUnsynced};

use crate::own::Own;
use std::alloc::{AllocError, Global};
use std::fs;
use std::fs::{File, OpenOptions};
use std::os::unix::fs::FileExt;
use std::rt::Files;
use tup_disk::{Disk, Operation, Refused, Standing};

/// The store as this process sees it.
#[derive(Drop)]
pub struct Store {
    pub own: Own,
    /// The store's file, once this process has written it.
    file: Option<File>,
    /// Whether that file stands aside.
    is_aside: bool,
    /// Whether this process has made durable that the store has its name.
    is_named: bool,
    is_lost: bool,
}

impl Store {
    /// The store below a folder: nothing was written yet, and no sync has failed.
    pub fn new(alloc: Global, root: &str) -> Result<Store, AllocError>
        ensures own { IfOk result (λ store. IsOwnBelow root.now store.own) }
        ensures file { IfOk result (λ store. is_some store.file ≡ false) }
        ensures aside { IfOk result (λ store. store.is_aside ≡ false) }
        ensures lost { IfOk result (λ store. store.is_lost ≡ false) }
    {
        Ok(Store {
            own: Own::new(alloc, root)?,
            file: None,
            is_aside: false,
            is_named: false,
            is_lost: false,
        })
    }

    /// The length of the store; 0 where there is none.
    pub fn len<R: Files<File = File> + Clone + Drop>(&self, disk: &Disk<R>) -> Result<u64, Refused>
        ensures cause { IfErr result (IsUnmeasured self.now) }
    {
        match &self.file {
            Some(file) => Ok(
                disk.at(Operation::Look, self.place(), file.metadata())?
                    .len(),
            ),
            None => match self.in_place(disk)? {
                Standing::File { len, .. } => Ok(len),
                _ => Ok(0),
            },
        }
    }

    /// Fills the buffer from a place on.
    pub fn read<R: Files<File = File> + Clone + Drop>(
        &self,
        disk: &Disk<R>,
        at: u64,
        into: &mut [u8],
    ) -> Result<(), Refused>
        ensures cause { IfErr result (IsUnread self.now) }
    {
        match &self.file {
            Some(file) => {
                let done = file.read_exact_at(into, at);
                disk.at(Operation::Read, self.place(), done)
            }
            None => self.read_in_place(disk, at, into),
        }
    }

    /// Writes from a place on.
    pub fn write<R: Files<File = File> + Clone + Drop>(
        &mut self,
        disk: &Disk<R>,
        at: u64,
        bytes: &[u8],
    ) -> Result<(), Refused>
        ensures open { OnOk result (IsTrue (is_some self.new.file)) }
        ensures kept { IsTrue (is_some self.old.file) → IsTrue (is_some self.new.file) }
        ensures place { IsTrue (is_some self.old.file) → self.new.is_aside ≡ self.old.is_aside }
        ensures lost { self.new.is_lost ≡ self.old.is_lost }
        ensures own { self.new.own ≡ self.old.own }
        ensures cause { IfErr result (λ refused. HasNoFile self.old refused
            ⊎ IsNamed Operation.Write (cause.place_of self.new) refused) }
    {
        let file = self.take_file(disk)?;
        let done = file.write_all_at(bytes, at);
        self.file = Some(file);
        disk.at(Operation::Write, self.place(), done)
    }

    /// Cuts the store; one that is no longer stays.
    pub fn cut<R: Files<File = File> + Clone + Drop>(
        &mut self,
        disk: &Disk<R>,
        to: u64,
    ) -> Result<(), Refused>
        ensures kept { IsTrue (is_some self.old.file) → IsTrue (is_some self.new.file) }
        ensures place { IsTrue (is_some self.old.file) → self.new.is_aside ≡ self.old.is_aside }
        ensures lost { self.new.is_lost ≡ self.old.is_lost }
        ensures own { self.new.own ≡ self.old.own }
        ensures cause { IfErr result (λ refused. IsUnmeasured self.old refused
            ⊎ HasNoFile self.old refused
            ⊎ IsNamed Operation.Cut (cause.place_of self.new) refused) }
    {
        if self.len(disk)? <= to {
            return Ok(());
        }
        let file = self.take_file(disk)?;
        let done = file.set_len(to);
        self.file = Some(file);
        disk.at(Operation::Cut, self.place(), done)
    }

    /// Makes durable what was written and cut. The system tells a lost write but once: so after a
    /// failure no later sync succeeds.
    pub fn sync<R: Files<File = File> + Clone + Drop>(
        &mut self,
        disk: &Disk<R>,
    ) -> Result<(), Refused>
        ensures placed { OnOk result (self.new.is_aside ≡ false) }
        ensures kept { is_some self.new.file ≡ is_some self.old.file }
        ensures lost { OnErr result (IsTrue self.new.is_lost) }
        ensures none_lost { OnOk result (self.new.is_lost ≡ false) }
        ensures for_good { IsTrue self.old.is_lost → IsErr result }
        ensures own { self.new.own ≡ self.old.own }
        ensures cause { IfErr result
            (IsNotSynced (string_bytes disk.now.root) self.old) }
    {
        if self.is_lost {
            return Err(disk.lost(self.own.store.as_str()));
        }
        self.is_lost = true;
        self.sync_bytes(disk)?;
        self.put_into_place(disk)?;
        self.sync_names(disk)?;
        self.is_lost = false;
        Ok(())
    }

    // Where nothing was written, the bytes that a run which died has left are synced, once.
    fn sync_bytes<R: Files<File = File> + Clone + Drop>(
        &self,
        disk: &Disk<R>,
    ) -> Result<(), Refused>
        ensures cause { IfErr result (IsUnsettled self.now) }
    {
        match &self.file {
            Some(file) => disk.sync_bytes(file, self.place()),
            None if self.is_named => Ok(()),
            None => self.sync_in_place(disk),
        }
    }

    // Syncs the file in the store's place, if there is one. Anything else there is a failure.
    fn sync_in_place<R: Files<File = File> + Clone + Drop>(
        &self,
        disk: &Disk<R>,
    ) -> Result<(), Refused>
        ensures cause { IfErr result (λ refused. IsBlocked self.now.own refused
            ⊎ IsUnsynced (string_bytes self.now.own.store) refused) }
    {
        match self.in_place(disk)? {
            Standing::File { .. } => disk.sync(self.own.store.as_str()),
            _ => Ok(()),
        }
    }

    // Gives a store that was made its name.
    fn put_into_place<R: Files<File = File> + Clone + Drop>(
        &mut self,
        disk: &Disk<R>,
    ) -> Result<(), Refused>
        ensures placed { OnOk result (self.new.is_aside ≡ false) }
        ensures kept { self.new.file ≡ self.old.file }
        ensures lost { self.new.is_lost ≡ self.old.is_lost }
        ensures own { self.new.own ≡ self.old.own }
        ensures cause { IfErr result
            (IsNamed Operation.Rename (string_bytes self.old.own.store)) }
    {
        if !self.is_aside {
            return Ok(());
        }
        let (store, aside) = (self.own.store.as_str(), self.own.aside.as_str());
        let renamed = fs::rename(&disk.rt, aside, store);
        disk.at(Operation::Rename, store, renamed)?;
        self.is_aside = false;
        self.is_named = false;
        Ok(())
    }

    // The own folder too may have been made since the last sync, or by a run that died.
    fn sync_names<R: Files<File = File> + Clone + Drop>(
        &mut self,
        disk: &Disk<R>,
    ) -> Result<(), Refused>
        ensures place { self.new.is_aside ≡ self.old.is_aside }
        ensures kept { self.new.file ≡ self.old.file }
        ensures lost { self.new.is_lost ≡ self.old.is_lost }
        ensures own { self.new.own ≡ self.old.own }
        ensures cause { IfErr result
            (IsUnnamed (string_bytes disk.now.root) self.old.own) }
    {
        if self.is_named {
            return Ok(());
        }
        disk.sync(self.own.folder.as_str())?;
        disk.sync(disk.root())?;
        self.is_named = true;
        Ok(())
    }

    // Where the file stands that is written.
    fn place(&self) -> &str
        ensures { result.now ≡ cause.place_of self.now }
    {
        if self.is_aside {
            self.own.aside.as_str()
        } else {
            self.own.store.as_str()
        }
    }

    // The file in the store's place, or nothing. All else that stands there is a failure.
    fn in_place<R: Files<File = File> + Clone + Drop>(
        &self,
        disk: &Disk<R>,
    ) -> Result<Standing, Refused>
        ensures cause { IfErr result (IsBlocked self.now.own) }
    {
        let store = self.own.store.as_str();
        match disk.standing(store)? {
            Standing::Folder | Standing::Link | Standing::Other => Err(disk.in_the_way(store)),
            found => Ok(found),
        }
    }

    fn read_in_place<R: Files<File = File> + Clone + Drop>(
        &self,
        disk: &Disk<R>,
        at: u64,
        into: &mut [u8],
    ) -> Result<(), Refused>
        ensures cause { IfErr result (IsUnreadInPlace self.now.own) }
    {
        if self.in_place(disk)? == Standing::Nothing && into.is_empty() {
            return Ok(());
        }
        let store = self.own.store.as_str();
        let file = disk.open(store)?;
        disk.at(Operation::Read, store, file.read_exact_at(into, at))
    }

    // The file that is written, opened or made where this is the first write.
    fn take_file<R: Files<File = File> + Clone + Drop>(
        &mut self,
        disk: &Disk<R>,
    ) -> Result<File, Refused>
        ensures there { IsTrue (is_some self.old.file) → IsOk result }
        ensures place { IsTrue (is_some self.old.file) → self.new.is_aside ≡ self.old.is_aside }
        ensures lost { self.new.is_lost ≡ self.old.is_lost }
        ensures own { self.new.own ≡ self.old.own }
        ensures cause { IfErr result (HasNoFile self.old) }
    {
        match self.file.take() {
            Some(file) => Ok(file),
            None => self.begin_to_write(disk),
        }
    }

    fn begin_to_write<R: Files<File = File> + Clone + Drop>(
        &mut self,
        disk: &Disk<R>,
    ) -> Result<File, Refused>
        ensures lost { self.new.is_lost ≡ self.old.is_lost }
        ensures own { self.new.own ≡ self.old.own }
        ensures cause { IfErr result (IsUnbegun self.old.own) }
    {
        match self.in_place(disk)? {
            Standing::File { names: 1, .. } => open_to_write(disk, self.own.store.as_str()),
            Standing::Nothing => self.make_aside(disk),
            _ => self.copy_aside(disk),
        }
    }

    fn make_aside<R: Files<File = File> + Clone + Drop>(
        &mut self,
        disk: &Disk<R>,
    ) -> Result<File, Refused>
        ensures lost { self.new.is_lost ≡ self.old.is_lost }
        ensures own { self.new.own ≡ self.old.own }
        ensures cause { IfErr result (IsUnmadeAside self.old.own) }
    {
        disk.make_unless_there(self.own.folder.as_str())?;
        let aside = self.own.aside.as_str();
        let file = disk.at(Operation::Make, aside, File::create_new(&disk.rt, aside))?;
        self.is_aside = true;
        Ok(file)
    }

    // A store that has another name too is made anew: under that name it may be another project's.
    fn copy_aside<R: Files<File = File> + Clone + Drop>(
        &mut self,
        disk: &Disk<R>,
    ) -> Result<File, Refused>
        ensures lost { self.new.is_lost ≡ self.old.is_lost }
        ensures own { self.new.own ≡ self.old.own }
        ensures cause { IfErr result (IsUncopied self.old.own) }
    {
        let (store, aside) = (self.own.store.as_str(), self.own.aside.as_str());
        disk.at(Operation::Copy, aside, fs::copy(&disk.rt, store, aside))?;
        let file = open_to_write(disk, aside)?;
        self.is_aside = true;
        Ok(file)
    }
}

fn open_to_write<R: Files<File = File> + Clone + Drop>(
    disk: &Disk<R>,
    place: &str,
) -> Result<File, Refused>
    ensures cause { IfErr result (IsNamed Operation.Open place.now) }
{
    let opened = OpenOptions::new()
        .read(true)
        .write(true)
        .open(&disk.rt, place);
    disk.at(Operation::Open, place, opened)
}
