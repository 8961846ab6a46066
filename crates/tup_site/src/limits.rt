//! How much a site may hold.
ghost use Rattle.std.specs.Prelude.{◌≡◌};
ghost use Rattle.tup_site.specs.Limits as specs;

/// The most bytes that a file in memory may have which is read.
pub const MAX_FILE_BYTES: u64 = 16_777_216;

/// The most bytes that a file on a real disk may have which is read.
pub const MAX_DISK_FILE_BYTES: u64 = 1_073_741_824;

/// How many files a site may have, and how many bytes a file that it reads.
#[derive(Clone, Copy, Debug, PartialEq, Eq)]
pub struct Limits {
    pub files: u64,
    pub bytes: u64,
}

impl Limits {
    /// The limits of a site in memory.
    pub fn of_memory() -> Limits
        ensures { result ≡ specs.least }
    {
        Limits {
            files: 65_536,
            bytes: MAX_FILE_BYTES,
        }
    }

    /// The limits of a real disk.
    pub fn of_disk() -> Limits
        ensures { result ≡ specs.greatest }
    {
        Limits {
            files: 1_048_576,
            bytes: MAX_DISK_FILE_BYTES,
        }
    }
}
