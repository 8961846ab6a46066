//! What the rules of a project give to groups.
ghost use Rattle.std.specs.Prelude.{◌≡◌, IfOk, OnOk};
ghost use Rattle.tup_macro.specs.Gifts.{same_group, with_gift};
ghost use Rattle.tup_link.specs.Groups.{HasMembers, Gives, GivesAll};
ghost use Rattle.tup_link.specs.Placed.{drafts_of};

use crate::placed::Placed;
use std::alloc::{AllocError, Global};
use tup_macro::Groups;
use tup_path::Path;
use tup_rule::{Draft, GroupRef};

/// The members of all groups.
pub(crate) fn groups(alloc: Global, all: &[Placed]) -> Result<Groups, AllocError>
    ensures { IfOk result (HasMembers (drafts_of all.now)) }
{
    let Ok(mut groups) = Groups::new(alloc) else {
        return Err(AllocError);
    };
    for one in all {
        give(&mut groups, one.draft())?;
    }
    Ok(groups)
}

/// Gives the outputs of a draft to its group.
fn give(groups: &mut Groups, draft: &Draft) -> Result<(), AllocError>
    ensures { OnOk result (Gives draft.now groups.old groups.new) }
{
    match &draft.gives {
        Some(group) => give_all(groups, group, draft.outputs.as_slice()),
        None => Ok(()),
    }
}

/// Gives some paths to a group.
fn give_all(groups: &mut Groups, group: &GroupRef, paths: &[Path]) -> Result<(), AllocError>
    ensures { OnOk result (GivesAll group.now paths.now groups.old groups.new) }
{
    for path in paths {
        give_one(groups, group, path)?;
    }
    Ok(())
}

/// Gives a path to a group.
fn give_one(groups: &mut Groups, group: &GroupRef, path: &Path) -> Result<(), AllocError>
    ensures { OnOk result (groups.new ≡ with_gift same_group groups.old group.now path.now) }
{
    match groups.add(group, path) {
        Ok(()) => Ok(()),
        Err(_) => Err(AllocError),
    }
}
