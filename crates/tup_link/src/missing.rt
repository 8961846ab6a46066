//! Groups that are taken, and to which no rule gives.
ghost use Rattle.std.specs.Prelude.{◌≡◌, ◌==◌, length};
ghost use Rattle.tup_link.specs.Faults.{Tells, missing_group, taken};
ghost use Rattle.tup_link.specs.Groups.{listed};
ghost use Rattle.tup_link.specs.Placed.{drafts_of};

use crate::fault::LinkFault;
use crate::placed::Placed;
use tup_macro::Groups;
use tup_rule::GroupRef;

/// Whether each group that drafts take has a member.
pub(crate) fn all_given(groups: &Groups, all: &[Placed]) -> Result<(), LinkFault>
    ensures { Tells (missing_group (listed groups.now) (taken (drafts_of all.now))) result }
{
    for one in all {
        each_given(groups, one.draft().groups.as_slice())?;
    }
    Ok(())
}

/// Whether each of some groups has a member.
fn each_given(groups: &Groups, taken: &[GroupRef]) -> Result<(), LinkFault>
    ensures { Tells (missing_group (listed groups.now) taken.now) result }
{
    for group in taken {
        if is_missing(groups, group) {
            return Err(LinkFault::NoSuchGroup(group.clone()?));
        }
    }
    Ok(())
}

/// Whether a group has no member.
fn is_missing(groups: &Groups, group: &GroupRef) -> bool
    ensures { result ≡ (length (listed groups.now group.now) == 0) }
{
    match groups.get(group) {
        Some(members) => members.is_empty(),
        None => true,
    }
}
