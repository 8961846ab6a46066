//! The bytes of `.tup/stamps`: a head, an entry for each file whose stamp is noted, and a sum of all that.
//!
//! It is a hint: of a file of another boot or device, of a later time, or with another sum nothing counts.
ghost use Rattle.std.specs.Prelude.{◌≡◌, ◌⊎◌, ◌++◌, length, IfOk, IfSome, OnOk};
ghost use Rattle.std.specs.Int.{to_be_bytes, w16, w64};
ghost use Rattle.tup_fs.specs.NoteFile.{IsWhole, entry_bytes, head_bytes, head_from, sealed, stat_bytes};

use std::alloc::{AllocError, Global};
use tup_disk::{Inode, Stat, sum};
use tup_stamp::Stamp;

/// The first bytes of the file: what it is, and the version of its form.
const MARK: [u8; 8] = *b"tup-st1\n";

/// Of which boot of the system and of which device the entries are, and when the call began that wrote them, in nanoseconds
/// since 1970.
#[derive(Clone, Copy)]
pub(crate) struct Head {
    pub boot: [u8; 36],
    pub device: u64,
    pub began: u64,
}

/// The place of a file below the top, what was seen of the file before it was read, and the stamp of what it held.
#[derive(Clone, Copy)]
pub(crate) struct Entry<'a> {
    pub place: &'a [u8],
    pub stat: Stat,
    pub stamp: Stamp,
}

/// The bytes with which a file begins.
pub(crate) fn begin(alloc: Global, head: &Head) -> Result<Vec<u8>, AllocError>
    ensures { IfOk result (λ bytes. bytes.items ≡ head_bytes head.now) }
{
    let mut bytes = Vec::new(alloc);
    bytes.extend_from_slice(&MARK)?;
    bytes.extend_from_slice(&head.boot)?;
    bytes.extend_from_slice(&head.device.to_be_bytes())?;
    bytes.extend_from_slice(&head.began.to_be_bytes())?;
    Ok(bytes)
}

/// Adds an entry. One whose place has 2^16 bytes or more is left out.
pub(crate) fn add(bytes: &mut Vec<u8>, entry: &Entry<'_>) -> Result<(), AllocError>
    ensures { OnOk result ((bytes.new.items ≡ bytes.old.items)
        ⊎ (bytes.new.items ≡ bytes.old.items ++ entry_bytes entry.now.place.now entry.now.stat entry.now.stamp)) }
{
    let Ok(length) = u16::try_from(entry.place.len()) else {
        return Ok(());
    };
    bytes.extend_from_slice(&length.to_be_bytes())?;
    bytes.extend_from_slice(entry.place)?;
    add_stat(bytes, &entry.stat)?;
    bytes.extend_from_slice(&entry.stamp.0)
}

fn add_stat(bytes: &mut Vec<u8>, stat: &Stat) -> Result<(), AllocError>
    ensures { OnOk result (bytes.new.items ≡ bytes.old.items ++ stat_bytes stat.now) }
{
    bytes.extend_from_slice(&stat.inode.number.to_be_bytes())?;
    bytes.extend_from_slice(&stat.len.to_be_bytes())?;
    bytes.extend_from_slice(&stat.written.to_be_bytes())?;
    bytes.extend_from_slice(&stat.changed.to_be_bytes())
}

/// Ends the file with the sum of all its bytes.
pub(crate) fn seal(bytes: &mut Vec<u8>) -> Result<(), AllocError>
    ensures { OnOk result (bytes.new.items ≡ sealed bytes.old.items) }
{
    let sum = sum(bytes);
    bytes.extend_from_slice(&sum.to_be_bytes())
}

/// The entries of a file, if it is whole, of this boot and this device, and was written at no later time.
pub(crate) fn entries_of<'a>(bytes: &'a [u8], now: &Head) -> Option<&'a [u8]>
    ensures { IfSome result (λ entries. IsWhole now.now bytes.now entries.now) }
{
    let (front, last) = without_sum(bytes)?;
    if long_of(*last) != sum(front) {
        return None;
    }
    let (began, entries) = behind_head(front, now)?;
    if began <= now.began {
        Some(entries)
    } else {
        None
    }
}

/// All bytes but the last eight, and those.
fn without_sum(bytes: &[u8]) -> Option<(&[u8], &[u8; 8])>
    ensures { IfSome result (λ found. bytes.now ≡ found.0.now ++ found.1.now) }
{
    bytes.split_last_chunk::<8>()
}

/// What is behind the head, if that is of this boot and this device, and when the call began that wrote it.
fn behind_head<'a>(bytes: &'a [u8], now: &Head) -> Option<(u64, &'a [u8])>
    ensures { IfSome result (λ found. bytes.now ≡ head_from now.now found.0 ++ found.1.now) }
{
    let (mark, rest) = cut::<8>(bytes)?;
    let (boot, rest) = cut::<36>(rest)?;
    let (device, rest) = number(rest)?;
    let (began, rest) = number(rest)?;
    if *mark != MARK || *boot != now.boot || device != now.device {
        return None;
    }
    Some((began, rest))
}

/// The first entry, of this device, and what is behind it.
pub(crate) fn first(bytes: &[u8], device: u64) -> Option<(Entry<'_>, &[u8])>
    ensures { IfSome result (λ found. bytes.now
        ≡ entry_bytes found.0.place.now found.0.stat found.0.stamp ++ found.1.now) }
{
    let (count, rest) = short(bytes)?;
    let (place, rest) = cut_at(rest, count)?;
    let (stat, rest) = stat(rest, device)?;
    let (stamp, rest) = cut::<32>(rest)?;
    let stamp = Stamp(*stamp);
    Some((Entry { place, stat, stamp }, rest))
}

/// What was seen of a file of this device, from the front of bytes.
fn stat(bytes: &[u8], device: u64) -> Option<(Stat, &[u8])>
    ensures { IfSome result (λ found. bytes.now ≡ stat_bytes found.0 ++ found.1.now) }
{
    let (inode, rest) = number(bytes)?;
    let (len, rest) = number(rest)?;
    let (written, rest) = number(rest)?;
    let (changed, rest) = number(rest)?;
    let inode = Inode {
        device,
        number: inode,
    };
    let stat = Stat {
        inode,
        len,
        written,
        changed,
    };
    Some((stat, rest))
}

/// The number that the first eight bytes are.
fn number(bytes: &[u8]) -> Option<(u64, &[u8])>
    ensures { IfSome result (λ found. bytes.now ≡ to_be_bytes w64 found.0 ++ found.1.now) }
{
    let (front, rest) = bytes.split_first_chunk::<8>()?;
    Some((long_of(*front), rest))
}

/// The number that the first two bytes are.
fn short(bytes: &[u8]) -> Option<(u16, &[u8])>
    ensures { IfSome result (λ found. bytes.now ≡ to_be_bytes w16 found.0 ++ found.1.now) }
{
    let (front, rest) = bytes.split_first_chunk::<2>()?;
    Some((short_of(*front), rest))
}

fn long_of(bytes: [u8; 8]) -> u64
    ensures { to_be_bytes w64 result ≡ bytes }
{
    u64::from_be_bytes(bytes)
}

fn short_of(bytes: [u8; 2]) -> u16
    ensures { to_be_bytes w16 result ≡ bytes }
{
    u16::from_be_bytes(bytes)
}

/// The first `N` bytes, and those behind them.
fn cut<const N: usize>(bytes: &[u8]) -> Option<(&[u8; N], &[u8])>
    ensures { IfSome result (λ found. bytes.now ≡ found.0.now ++ found.1.now) }
{
    bytes.split_first_chunk::<N>()
}

/// So many bytes, and those behind them.
fn cut_at(bytes: &[u8], count: u16) -> Option<(&[u8], &[u8])>
    ensures { IfSome result (λ found. (bytes.now ≡ found.0.now ++ found.1.now)
        × (length found.0.now ≡ count)) }
{
    bytes.split_at_checked(count as usize)
}
