//! What stands behind a percent sign.
ghost use Rattle.std.specs.Prelude.{◌≡◌, ◌<◌, ◌∷◌, length, MatchOption, IfSome, OnOk, IfErr};
ghost use Rattle.tup_flags.specs.Answer.{Took, IsStopped};
ghost use Rattle.tup_flags.specs.Flag.{value, first_named, place_of};
ghost use Rattle.tup_flags.specs.Part.{part_of, parts, BeginsUnknown};

use crate::answer::Answer;
use crate::fault::FlagFault;
use crate::flag::Flag;
use crate::parts::{FlagParts, Place};
use std::alloc::Global;
use tup_rule::GroupRef;

/// A flag, or the name of a group.
#[derive(Clone, Copy)]
pub(crate) enum Mark<'a> {
    Flag(Flag),
    Group(&'a str),
}

impl<'a> Mark<'a> {
    /// The mark that a percent sign and what stands behind it begin with, and the text behind the
    /// mark. `None` where they begin with none.
    pub(crate) fn read(behind: &'a str) -> Option<(Mark<'a>, &'a str)>
        ensures parts { MatchOption result (BeginsUnknown (parts (37 ∷ behind.now)))
            (λ found. parts (37 ∷ behind.now) ≡ part_of found.0 ∷ parts found.1.now) }
        ensures shorter { IfSome result (λ found. length found.1.now < length behind.now) }
    {
        match behind.strip_prefix('<') {
            Some(named) => {
                let (name, rest) = named.split_once('>')?;
                Some((Mark::Group(name), rest))
            }
            None => {
                let flag = Flag::of(*behind.as_bytes().first()?)?;
                Some((Mark::Flag(flag), &behind[1..]))
            }
        }
    }

    /// Goes on with what the mark stands for.
    pub(crate) fn add(
        self,
        alloc: Global,
        answer: &mut Answer,
        parts: &FlagParts,
    ) -> Result<(), FlagFault>
        ensures took { OnOk result
            (Took answer.old answer.new (value parts.now (part_of self.entry))) }
        ensures stopped { IfErr result
            (IsStopped answer.old (value parts.now (part_of self.entry))) }
    {
        match self {
            Mark::Flag(flag) if flag.stands(parts) => flag.add(alloc, answer, parts),
            Mark::Flag(_) => Err(FlagFault::FlagNotHere),
            Mark::Group(name) => match place_of(parts, name) {
                Some(place) => answer.add_group(alloc, place),
                None => Err(FlagFault::FlagNotHere),
            },
        }
    }
}

/// The place of the first group of this name; a group is named in the command alone.
fn place_of(parts: &FlagParts, name: &str) -> Option<u32>
    ensures { result ≡ place_of parts.now name.now }
{
    if parts.place != Place::Command {
        return None;
    }
    u32::try_from(first_named(parts.groups.as_slice(), name)?).ok()
}

/// The place of the first group of this name among all.
fn first_named(groups: &[GroupRef], name: &str) -> Option<usize>
    ensures { result ≡ first_named groups.now name.now }
{
    groups.iter().position(|group| group.name.as_str() == name)
}
