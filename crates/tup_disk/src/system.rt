//! What the system says of itself, for whoever trusts the times of files.
//!
//! Nothing is known of what the system says, and each trouble is `None`: then no time is trusted.

use crate::disk::Disk;
use crate::mount_list::mounts;
use crate::timed::{keeps_times, number_of};
use std::alloc::Global;
use std::fs;
use std::fs::{File, Metadata};
use std::io::Read;
use std::os::unix::fs::MetadataExt;
use std::rt::Files;

/// The id that each boot of the system has.
const BOOT: &str = "/proc/sys/kernel/random/boot_id";

/// After how many hundredths of a second a page that was written through a map goes to the disk.
const EXPIRES: &str = "/proc/sys/vm/dirty_expire_centisecs";

/// How often the system looks for such pages, in hundredths of a second.
const LOOKS: &str = "/proc/sys/vm/dirty_writeback_centisecs";

/// How many of these may pass before a page that was written through a map is on the disk.
const MOST_HUNDREDTHS: u64 = 4500;

impl<R: Files<File = File> + Clone + Drop> Disk<R> {
    /// The id of this boot of the system.
    pub fn boot(&self) -> Option<[u8; 36]> {
        let said = self.said(BOOT)?;
        Some(*said.first_chunk()?)
    }

    /// The device of the top folder, if a file of its file system that is written gets a new time of change, at the latest
    /// when a page that was written through a map goes to the disk, and that is within 45 seconds.
    pub fn timed_device(&self) -> Option<u64> {
        let device = self.seen(self.root())?.dev();
        let mounts = mounts(&self.rt, self.alloc).ok()?;
        let folder = self.full_root()?;
        let is_timed = keeps_times(&mounts, device, folder.as_bytes()) && self.writes_soon();
        is_timed.then_some(device)
    }

    /// The user whom this process runs as.
    pub fn user(&self) -> Option<u32> {
        Some(self.seen("/proc/self")?.uid())
    }

    // Whether pages that were written through a map go to the disk soon. They never do where nobody looks for them.
    fn writes_soon(&self) -> bool {
        match (self.number(EXPIRES), self.number(LOOKS)) {
            (Some(expires), Some(looks)) => {
                looks > 0 && expires.saturating_add(looks) <= MOST_HUNDREDTHS
            }
            _ => false,
        }
    }

    // The top folder, as the system names it from its root.
    fn full_root(&self) -> Option<String> {
        let runtime = (self.rt.clone().ok()?, self.alloc);
        Some(fs::canonicalize(&runtime, self.root()).ok()?.into_string())
    }

    fn seen(&self, place: &str) -> Option<Metadata> {
        fs::metadata(&self.rt, place).ok()
    }

    fn number(&self, place: &str) -> Option<u64> {
        number_of(self.said(place)?.trim_ascii_end())
    }

    fn said(&self, place: &str) -> Option<Vec<u8>> {
        read_all(self.alloc, File::open(&self.rt, place).ok()?)
    }
}

/// All bytes of a file of which the system doesn't say how long it is.
fn read_all(alloc: Global, file: File) -> Option<Vec<u8>> {
    let mut file = file;
    let mut bytes = Vec::new(alloc);
    file.read_to_end(&mut bytes).ok()?;
    Some(bytes)
}
