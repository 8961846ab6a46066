//! The file systems that are mounted, as the system lists them.
ghost use Rattle.std.specs.Prelude.{IfErr};
ghost use Rattle.tup_disk.specs.Told.{HasNoMounts};

use crate::failure::{Operation, Refused, told};
use std::alloc::{AllocError, Global};
use std::fs::File;
use std::io;
use std::io::Read;
use std::rt::Files;

/// The list of the system.
const LIST: &str = "/proc/self/mountinfo";

/// A file system that is mounted.
#[derive(Drop)]
pub struct Mount {
    /// The numbers of its device, as they are listed.
    pub device: Vec<u8>,
    /// Which folder or file of it is mounted.
    pub root: Vec<u8>,
    /// Where it is mounted.
    pub point: Vec<u8>,
    /// Its type.
    pub kind: Vec<u8>,
}

impl Mount {
    /// Whether it is mounted at a place or below.
    pub fn is_in(&self, place: &str) -> bool {
        match self.point.as_slice().strip_prefix(place.as_bytes()) {
            Some(rest) => rest.is_empty() || rest.starts_with(b"/".as_slice()),
            None => false,
        }
    }
}

/// The file systems that are mounted, in the order of the list: what is mounted in another one comes behind that.
pub fn mounts<R: Files<File = File>>(rt: &R, alloc: Global) -> Result<Vec<Mount>, Refused>
    ensures cause { IfErr result HasNoMounts }
{
    let mut list = Vec::new(alloc);
    let done = read_list(rt, &mut list);
    told(alloc, Operation::Read, LIST, done)?;
    Ok(mounts_in(alloc, list.as_slice())?)
}

/// Reads the list.
fn read_list<R: Files<File = File>>(rt: &R, list: &mut Vec<u8>) -> io::Result<()> {
    File::open(rt, LIST)?.read_to_end(list)?;
    Ok(())
}

/// The mounts of a list, a line each.
fn mounts_in(alloc: Global, list: &[u8]) -> Result<Vec<Mount>, AllocError> {
    let mut mounts = Vec::new(alloc);
    for line in list.split(|byte| *byte == b'\n') {
        if let Some(mount) = mount_in(alloc, line)? {
            mounts.push(mount)?;
        }
    }
    Ok(mounts)
}

/// The mount of a line: the third word is its device, the fourth its root and the fifth its place.
fn mount_in(alloc: Global, line: &[u8]) -> Result<Option<Mount>, AllocError> {
    let mut words = line.split(|byte| *byte == b' ').skip(2);
    let (Some(device), Some(root), Some(point)) = (words.next(), words.next(), words.next()) else {
        return Ok(None);
    };
    Ok(Some(Mount {
        device: Vec::from_slice(alloc, device)?,
        root: plain(alloc, root)?,
        point: plain(alloc, point)?,
        kind: Vec::from_slice(alloc, kind_in(line))?,
    }))
}

/// The type in a line: the word behind the dash.
fn kind_in(line: &[u8]) -> &[u8] {
    let mut is_next = false;
    for word in line.split(|byte| *byte == b' ') {
        if is_next {
            return word;
        }
        is_next = word == b"-".as_slice();
    }
    b"".as_slice()
}

/// A name of the list as it is: a blank, a tab, a line feed and a backslash stand there as a backslash and three octal digits.
fn plain(alloc: Global, word: &[u8]) -> Result<Vec<u8>, AllocError> {
    let mut name = Vec::new(alloc);
    let mut rest = word;
    for _ in 0..word.len() {
        match rest {
            [b'\\', a, b, c, behind @ ..] if is_digit(*a) && is_digit(*b) && is_digit(*c) => {
                name.push(byte_of(*a, *b, *c))?;
                rest = behind;
            }
            [byte, behind @ ..] => {
                name.push(*byte)?;
                rest = behind;
            }
            [] => return Ok(name),
        }
    }
    Ok(name)
}

/// Whether a byte is an octal digit.
fn is_digit(byte: u8) -> bool {
    matches!(byte, b'0'..=b'7')
}

/// The byte that three octal digits say, the first of which is below 4.
fn byte_of(a: u8, b: u8, c: u8) -> u8 {
    let [a, b, c] = [a, b, c].map(|digit| digit.wrapping_sub(b'0'));
    a.wrapping_mul(64)
        .wrapping_add(b.wrapping_mul(8))
        .wrapping_add(c)
}
