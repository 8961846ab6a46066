//! Which file systems give a file that is written a new time of change, by what is mounted.

use crate::mount_list::Mount;

/// Whether those of a device do, on which this folder is. Where a mount has the device, its type says so. The parts of a `btrfs`
/// have devices of their own, which no mount has: there the nearest mount above the folder says so.
pub(crate) fn keeps_times(mounts: &[Mount], device: u64, folder: &[u8]) -> bool {
    let mut nearest = 0;
    let mut is_parted = false;
    for mount in mounts {
        if device_of(mount.device.as_slice()) == Some(device) {
            return is_timed(mount.kind.as_slice());
        }
        let length = length_above(mount.point.as_slice(), folder);
        if length > 0 && length >= nearest {
            nearest = length;
            is_parted = mount.kind.as_slice() == b"btrfs".as_slice();
        }
    }
    is_parted
}

/// Whether a type of file system is known to do so. Those over a network, over other file systems or in memory aren't.
fn is_timed(kind: &[u8]) -> bool {
    matches!(
        kind,
        b"ext2" | b"ext3" | b"ext4" | b"xfs" | b"btrfs" | b"f2fs"
    )
}

/// The device of these two numbers, as a file's metadata have it.
fn device_of(word: &[u8]) -> Option<u64> {
    let mut numbers = word.split(|byte| *byte == b':');
    let major = number_of(numbers.next()?)?;
    let minor = number_of(numbers.next()?)?;
    Some(
        ((major & 0xffff_f000) << 32)
            | ((major & 0xfff) << 8)
            | ((minor & 0xffff_ff00) << 12)
            | (minor & 0xff),
    )
}

/// The number with these digits.
pub(crate) fn number_of(digits: &[u8]) -> Option<u64> {
    if digits.is_empty() {
        return None;
    }
    let mut number = 0u64;
    for digit in digits {
        let value = digit_of(*digit)?;
        number = number.saturating_mul(10).saturating_add(value);
    }
    Some(number)
}

fn digit_of(digit: u8) -> Option<u64> {
    match digit {
        b'0'..=b'9' => Some(u64::from(digit - b'0')),
        _ => None,
    }
}

/// How long the name of a mounted folder is that is this folder or one above it; 0 where it is neither.
fn length_above(point: &[u8], folder: &[u8]) -> usize {
    let Some(rest) = folder.strip_prefix(point) else {
        return 0;
    };
    let is_whole = point == b"/".as_slice() || matches!(rest.first(), None | Some(b'/'));
    if is_whole { point.len() } else { 0 }
}
