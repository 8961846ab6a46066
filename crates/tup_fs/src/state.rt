//! How far the epoch of a site is.
ghost use Rattle.std.specs.Prelude.{◌≡◌};
ghost use Rattle.tup_fs.specs.Once as specs;

use std::fs::File;
use std::rt::Files;
use tup_db::{Epoch, Own};
use tup_disk::{Disk, Refused, Touched, place_below};
use tup_path::Path;

/// How far it is.
#[derive(Drop)]
pub(crate) enum State {
    /// None is open.
    Closed,
    Open(Epoch),
    /// One couldn't be begun or ended: nothing is written any more.
    Lost,
}

impl State {
    /// Whether an epoch is open.
    pub fn is_open(&self) -> bool
        ensures { result ≡ specs.is_open self.now }
    {
        matches!(self, State::Open(_))
    }

    /// Whether one couldn't be begun or ended.
    pub fn is_lost(&self) -> bool {
        matches!(self, State::Lost)
    }

    /// Whether an epoch is open that covers such a write of the store.
    pub fn covers(&self, at: u64, bytes: &[u8]) -> bool {
        match self {
            State::Open(epoch) => epoch.covers(at, bytes),
            State::Closed | State::Lost => false,
        }
    }

    /// Notes what is touched by a file that is to be put, if an epoch is open.
    pub fn note<R: Files<File = File> + Clone + Drop>(
        &mut self,
        disk: &Disk<R>,
        own: &Own,
        touched: &Touched,
        path: &Path,
    ) -> Result<(), Refused>
        ensures { specs.is_open self.new ≡ specs.is_open self.old }
    {
        match self {
            State::Open(epoch) => note_all(disk, own, touched, epoch, path),
            State::Closed | State::Lost => Ok(()),
        }
    }

    /// Notes a write of the store, if an epoch is open.
    pub fn wrote<R: Files<File = File> + Clone + Drop>(
        &mut self,
        disk: &Disk<R>,
        own: &Own,
        bytes: &[u8],
    ) -> Result<(), Refused>
        ensures { specs.is_open self.new ≡ specs.is_open self.old }
    {
        match self {
            State::Open(epoch) => epoch.wrote(disk, own, bytes),
            State::Closed | State::Lost => Ok(()),
        }
    }
}

// Notes a file, and the folders above it, as far as they aren't touched yet.
fn note_all<R: Files<File = File> + Clone + Drop>(
    disk: &Disk<R>,
    own: &Own,
    touched: &Touched,
    epoch: &mut Epoch,
    path: &Path,
) -> Result<(), Refused> {
    for depth in 0..=path.depth() {
        let names = &path.names()[..depth];
        if !touched.has(&disk.place(names)?) {
            let below = place_below(disk.alloc, "", names)?;
            epoch.touch(disk, own, below.as_str())?;
        }
    }
    Ok(())
}
