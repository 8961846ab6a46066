//! Bytes behind their length.
ghost use Rattle.std.specs.Prelude.{◌≡◌, ◌++◌, MatchOption, OnOk};
ghost use Rattle.byteorder.specs.Endian.{big_bytes};
ghost use Rattle.tup_table.specs.Front.{Front, NoFront};
ghost use Rattle.tup_table.specs.Store.{sized, IsSized};

use byteorder::{BigEndian, ByteOrder};
use std::alloc::AllocError;

/// The bytes behind a length of two bytes, if they are whole, and the rest.
pub(crate) fn short_at(bytes: &[u8]) -> Option<(&[u8], &[u8])>
    ensures { MatchOption result (NoFront (IsSized 2) (sized 2) bytes.now)
        (λ found. Front (IsSized 2) (sized 2) bytes.now found.0.now found.1.now) }
{
    let (length, behind) = bytes.split_at_checked(2)?;
    let (item, rest) = behind.split_at_checked(BigEndian::read_u16(length) as usize)?;
    Some((item, rest))
}

/// The bytes behind a length of four bytes, if they are whole, and the rest.
pub(crate) fn long_at(bytes: &[u8]) -> Option<(&[u8], &[u8])>
    ensures { MatchOption result (NoFront (IsSized 4) (sized 4) bytes.now)
        (λ found. Front (IsSized 4) (sized 4) bytes.now found.0.now found.1.now) }
{
    let (length, behind) = bytes.split_at_checked(4)?;
    let (item, rest) = behind.split_at_checked(BigEndian::read_u32(length) as usize)?;
    Some((item, rest))
}

/// Puts bytes behind their length, which is two bytes, at the end.
pub(crate) fn push_short(bytes: &mut Vec<u8>, item: &[u8]) -> Result<(), AllocError>
    requires { IsSized 2 item.now }
    ensures { OnOk result (bytes.new.items ≡ bytes.old.items ++ sized 2 item.now) }
{
    let mut length = [0; 2];
    BigEndian::write_u16(&mut length, item.len() as u16);
    bytes.extend_from_slice(&length)?;
    bytes.extend_from_slice(item)
}

/// Puts bytes behind their length, which is four bytes, at the end.
pub(crate) fn push_long(bytes: &mut Vec<u8>, item: &[u8]) -> Result<(), AllocError>
    requires { IsSized 4 item.now }
    ensures { OnOk result (bytes.new.items ≡ bytes.old.items ++ sized 4 item.now) }
{
    push_number(bytes, item.len() as u32)?;
    bytes.extend_from_slice(item)
}

/// Puts a number of four bytes at the end.
pub(crate) fn push_number(bytes: &mut Vec<u8>, number: u32) -> Result<(), AllocError>
    ensures { OnOk result (bytes.new.items ≡ bytes.old.items ++ big_bytes 4 number) }
{
    let mut four = [0; 4];
    BigEndian::write_u32(&mut four, number);
    bytes.extend_from_slice(&four)
}
