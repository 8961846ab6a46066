//! How a store takes a commit.
ghost use Rattle.std.specs.Prelude.{◌≡◌, ◌⊎◌, ◌↔◌, ◌++◌, ◌+◌, ◌<◌, ◌≤◌, length, All, IsTrue, MatchOption, MatchResult, OnOk};
ghost use Rattle.tup_table.specs.Appending.{HasShortKey, appending};
ghost use Rattle.tup_table.specs.Store.{change_spelling, ChangeFits, payload, CommitFits};

use crate::change::Change;
use crate::fault::TableFault;
use crate::sized::{push_long, push_number, push_short};
use std::alloc::{AllocError, Global};
use tup_path::Bytes;

/// How many bytes a store may have.
const MAX_STORE: u64 = 2_147_483_648;

/// How many bytes a commit has beside its changes: its gate, its length, and the next gate.
const AROUND: u64 = 6;

/// Whether no key of the changes has more than 65,535 bytes.
pub fn have_short_keys(changes: &[Change]) -> bool
    ensures { IsTrue result ↔ All HasShortKey changes.now }
{
    changes.iter().all(has_short_key)
}

/// Whether a change's key has at most 65,535 bytes.
fn has_short_key(change: &Change) -> bool
    ensures { IsTrue result ↔ HasShortKey change.now }
{
    match change {
        Change::Put { key, .. } | Change::Delete { key } => key.as_slice().len() <= 65_535,
    }
}

/// The bytes that a commit puts behind the gate at an offset: its length, its changes, and the next gate, which is
/// closed. `Full` where the store would then have more than 2,147,483,648 bytes.
pub fn appended(alloc: Global, gate: u64, changes: &[Change]) -> Result<Bytes, TableFault>
    requires { All HasShortKey changes.now }
    ensures { MatchResult result
        (λ bytes. CommitFits changes.now × (bytes ≡ appending changes.now)
        × (gate + (1 + length bytes) ≤ 2147483648))
        (λ fault. (fault ≡ TableFault.Memory) ⊎ ((fault ≡ TableFault.Full)
        × (2147483648 < gate + (1 + length (appending changes.now))))) }
{
    let Some(length) = payload_len(gate, changes) else {
        return Err(TableFault::Full);
    };
    let mut bytes = Vec::with_capacity(alloc, length as usize + 5)?;
    push_number(&mut bytes, length)?;
    push_changes(&mut bytes, changes)?;
    bytes.extend_from_slice(&[0])?;
    Ok(Bytes::new(bytes))
}

/// Whether a store has room for these bytes behind the gate at an offset.
pub(crate) fn has_room(gate: u64, bytes: &Bytes) -> bool
    ensures { IsTrue result ↔ (gate + (1 + length bytes.now) ≤ 2147483648) }
{
    let len = bytes.as_slice().len() as u64;
    len < MAX_STORE && gate <= MAX_STORE - 1 - len
}

/// How many bytes the changes take, if a store has room for their commit behind the gate at an offset.
fn payload_len(gate: u64, changes: &[Change]) -> Option<u32>
    ensures { MatchOption result (2147483648 < gate + (6 + length (payload changes.now)))
        (λ len. (len ≡ length (payload changes.now)) × (gate + (6 + len) ≤ 2147483648)) }
{
    let room = (MAX_STORE - AROUND).checked_sub(gate)?;
    let left = room_left(room, changes)?;
    Some((room - left) as u32)
}

/// The room that changes leave, if they have room.
fn room_left(room: u64, changes: &[Change]) -> Option<u64>
    ensures { MatchOption result (room < length (payload changes.now))
        (λ left. left + length (payload changes.now) ≡ room) }
{
    let mut left = room;
    for change in changes {
        left = room_behind(left, change)?;
    }
    Some(left)
}

/// The room that a change leaves, if it has room.
fn room_behind(room: u64, change: &Change) -> Option<u64>
    ensures { MatchOption result (room < length (change_spelling change.now))
        (λ left. left + length (change_spelling change.now) ≡ room) }
{
    match change {
        Change::Put { key, value } => {
            let room = room.checked_sub(7)?;
            let room = room.checked_sub(key.as_slice().len() as u64)?;
            room.checked_sub(value.as_slice().len() as u64)
        }
        Change::Delete { key } => {
            let room = room.checked_sub(3)?;
            room.checked_sub(key.as_slice().len() as u64)
        }
    }
}

/// Puts the spellings of changes at the end.
fn push_changes(bytes: &mut Vec<u8>, changes: &[Change]) -> Result<(), AllocError>
    requires { All ChangeFits changes.now }
    ensures { OnOk result (bytes.new.items ≡ bytes.old.items ++ payload changes.now) }
{
    for change in changes {
        push_change(bytes, change)?;
    }
    Ok(())
}

/// Puts the spelling of a change at the end.
fn push_change(bytes: &mut Vec<u8>, change: &Change) -> Result<(), AllocError>
    requires { ChangeFits change.now }
    ensures { OnOk result (bytes.new.items ≡ bytes.old.items ++ change_spelling change.now) }
{
    match change {
        Change::Put { key, value } => {
            bytes.extend_from_slice(&[1])?;
            push_short(bytes, key.as_slice())?;
            push_long(bytes, value.as_slice())
        }
        Change::Delete { key } => {
            bytes.extend_from_slice(&[2])?;
            push_short(bytes, key.as_slice())
        }
    }
}
