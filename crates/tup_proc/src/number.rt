//! Decimal numbers and stamps, as a log spells them.
ghost use Rattle.std.specs.Prelude.{◌≡◌, MatchOption};
ghost use Rattle.tup_stamp.specs.Hex.{hex_text};
ghost use Rattle.tup_proc.specs.Log.{IsDigest};
ghost use Rattle.tup_proc.specs.Reading.{ReadsNumber, IsNoDigest};

use crate::fault::LogFault;
use hex::decode_to_slice;
use std::alloc::Global;
use std::str;
use tup_stamp::{Stamp, hex};

/// The number that digits spell: in decimal, without a leading zero.
pub(crate) fn number(alloc: Global, digits: &[u8]) -> Result<Option<u32>, LogFault>
    ensures { ReadsNumber digits.now result }
{
    let Ok(digits) = str::from_utf8(digits) else {
        return Ok(None);
    };
    let Ok(number) = digits.parse::<u32>() else {
        return Ok(None);
    };
    let spelled = format!(in alloc; "{number}")?;
    if spelled.as_str() != digits {
        return Ok(None);
    }
    Ok(Some(number))
}

/// The stamp that digits spell, if they are 64 hex digits in lower case.
pub(crate) fn stamp(digits: &[u8]) -> Option<Stamp>
    ensures { MatchOption result (IsNoDigest digits.now)
        (λ stamp. IsDigest stamp × (digits.now ≡ hex_text stamp.0)) }
{
    let mut bytes = [0; 32];
    if decode_to_slice(digits, &mut bytes).is_err() {
        return None;
    }
    let stamp = Stamp(bytes);
    if hex(&stamp).as_slice() != digits {
        return None;
    }
    Some(stamp)
}
