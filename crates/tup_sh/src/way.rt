//! Who lays the overlay over the project.
use std::alloc::Global;
use std::fs::File;
use std::io;
use std::io::Read;
use std::rt::Files;
use tup_child::Failure;
use tup_disk::{Operation, told};

/// Who lays the overlay over the project.
#[derive(Clone, Copy, PartialEq, Eq)]
pub(crate) enum Way {
    /// Root of the whole system.
    Root,
    /// A user, who has root's rights in a namespace of his own; also root of a container who lacks them.
    User,
}

/// Who lays the overlay over a project, by what the system says of this process.
pub(crate) fn way_of<R: Files<File = File>>(rt: &R, alloc: Global) -> Result<Way, Failure> {
    if libc::geteuid() != 0 {
        return Ok(Way::User);
    }
    let map = content(rt, alloc, "/proc/self/uid_map")?;
    let status = content(rt, alloc, "/proc/self/status")?;
    if is_whole(map.as_slice()) && may_mount(status.as_slice()) {
        Ok(Way::Root)
    } else {
        Ok(Way::User)
    }
}

/// What the system says in a file.
fn content<R: Files<File = File>>(rt: &R, alloc: Global, place: &str) -> Result<Vec<u8>, Failure> {
    let mut bytes = Vec::new(alloc);
    let done = read_into(rt, &mut bytes, place);
    told(alloc, Operation::Read, place, done)?;
    Ok(bytes)
}

/// Reads a file to its end.
fn read_into<R: Files<File = File>>(rt: &R, bytes: &mut Vec<u8>, place: &str) -> io::Result<()> {
    File::open(rt, place)?.read_to_end(bytes)?;
    Ok(())
}

/// Whether a map of users is that of the whole system: each stands for himself.
fn is_whole(map: &[u8]) -> bool {
    let mut words = map
        .split(|byte| *byte == b' ' || *byte == b'\n')
        .filter(|word| !word.is_empty());
    [b"0".as_slice(), b"0".as_slice(), b"4294967295".as_slice()]
        .iter()
        .all(|wanted| words.next() == Some(*wanted))
}

/// Whether the status of a process says that it has the right to mount: the 22nd bit of those that are in force.
fn may_mount(status: &[u8]) -> bool {
    for line in status.split(|byte| *byte == b'\n') {
        if let Some(rights) = line.strip_prefix(b"CapEff:".as_slice()) {
            return match rights.iter().rev().nth(5) {
                Some(digit) => {
                    matches!(
                        *digit,
                        b'2' | b'3' | b'6' | b'7' | b'a' | b'b' | b'e' | b'f'
                    )
                }
                None => false,
            };
        }
    }
    false
}
