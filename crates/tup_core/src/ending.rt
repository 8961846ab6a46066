//! How a command may end.
ghost use Rattle.std.specs.Prelude.{◌≡◌, ◌<◌, ◌↔◌, IsTrue, IfOk, OnOk, OnErr, None, Some, length, slice_set};
ghost use Rattle.tup_core.specs.Step.{FitsEnd};
ghost use Rattle.tup_core.specs.Files.{paths_in};
ghost use Rattle.tup_core.specs.Machine.{entry};
ghost use Rattle.tup_core.specs.Ending.{IsUnrefused, kept_of, EndsWith};

use crate::running::Running;
use crate::same::same_verdict;
use std::alloc::AllocError;
use std::mem;
use tup_access::Verdict;
use tup_path::{Path, Text};
use tup_rule::Rule;
use tup_stamp::Stamp;

/// Whether a rule's command may end so: with the verdict that a refused ask gave, or Good with all its outputs, or
/// badly with none.
pub(crate) fn may_end(
    rule: &Rule,
    denied: &Option<(Text, Verdict)>,
    verdict: &Verdict,
    writes: &[(Path, Stamp)],
) -> bool
    ensures { IsTrue result ↔ FitsEnd rule.now denied.now verdict.now writes.now }
{
    match denied {
        Some((_, kept)) => same_verdict(verdict, kept) && writes.is_empty(),
        None => may_end_so(rule, verdict, writes),
    }
}

/// The same where no ask was refused.
fn may_end_so(rule: &Rule, verdict: &Verdict, writes: &[(Path, Stamp)]) -> bool
    ensures { IsTrue result ↔ FitsEnd rule.now None verdict.now writes.now }
{
    match verdict {
        Verdict::Good => are_outputs(rule.outputs.as_slice(), writes),
        Verdict::Failed(status) => *status != 0 && writes.is_empty(),
        Verdict::IllegalWrite(_) | Verdict::Unwritten(_) => writes.is_empty(),
        Verdict::IllegalRead(_) | Verdict::TooManyReads => false,
    }
}

/// Whether files are just these outputs, in their order.
fn are_outputs(outputs: &[Path], files: &[(Path, Stamp)]) -> bool
    ensures { IsTrue result
        ↔ (paths_in files.now ≡ outputs.now) }
{
    if files.len() != outputs.len() {
        return false;
    }
    for at in 0..files.len() {
        if files[at].0 != outputs[at] {
            return false;
        }
    }
    true
}

/// Empties a seat whose command ended badly, and gives its verdict: the kept one, which takes no memory, or a copy.
/// After a refusal nothing has changed.
pub(crate) fn ended_badly(
    seats: &mut [Option<Running>],
    seat: usize,
    verdict: &Verdict,
) -> Result<Option<Verdict>, AllocError>
    requires { seat < length seats.old }
    ensures seats { OnOk result (seats.new ≡ slice_set seats.old seat None) }
    ensures verdict { IfOk result (EndsWith (entry seats.old seat) verdict.now) }
    ensures err { OnErr result (IsUnrefused (entry seats.old seat) × (seats.new ≡ seats.old)) }
{
    if keeps_none(&seats[seat]) {
        let copy = verdict.clone()?;
        seats[seat] = None;
        return Ok(Some(copy));
    }
    Ok(kept_verdict(mem::replace(&mut seats[seat], None)))
}

/// Whether a command runs that was refused nothing.
fn keeps_none(seat: &Option<Running>) -> bool
    ensures { IsTrue result ↔ IsUnrefused seat.now }
{
    matches!(seat, Some(Running { denied: None, .. }))
}

/// The verdict that a command keeps.
fn kept_verdict(seat: Option<Running>) -> Option<Verdict>
    ensures { result ≡ kept_of seat }
{
    let (_, kept) = seat?.denied?;
    Some(kept)
}
