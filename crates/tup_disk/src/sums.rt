//! Sums of bytes, in 64 bits. That two texts of bytes have the same one by chance is as good as impossible.
ghost use Rattle.std.specs.Prelude.{◌≡◌};
ghost use Rattle.tup_disk.specs.Sum as specs;

use std::hash::{DefaultHasher, Hasher};

/// The sum of bytes.
pub fn sum(bytes: &[u8]) -> u64
    ensures { result ≡ specs.sum bytes.now }
{
    let mut hasher = DefaultHasher::new();
    hasher.write(bytes);
    hasher.finish()
}

/// The sum of bytes behind others that have this sum.
pub fn sum_behind(before: u64, bytes: &[u8]) -> u64 {
    let mut hasher = DefaultHasher::new();
    hasher.write_u64(before);
    hasher.write(bytes);
    hasher.finish()
}
