//! What is looked at before anything is changed.
ghost use Rattle.std.specs.Prelude.{◌≡◌, ◌≢◌, ◌↔◌, IsTrue, IfOk, IfErr, OnOk, Err, is_some, option_map};
ghost use Rattle.std.specs.FinMap as finite;
ghost use Rattle.tup_path.specs.Tree.{Tree};
ghost use Rattle.tup_stamp.specs.Stamp.{stamp};
ghost use Rattle.tup_site.specs.Crash.{GoesOn, NoStep};
ghost use Rattle.tup_stale.specs.Cause.{CountsFaults, OnlyLarge};
ghost use Rattle.tup_stale.specs.Unmade.{IsUsers, HasNoUsers, IsRefused, Sees};
ghost use Rattle.tup_stale.specs.Unmade as specs;

use crate::fault::StaleFault;
use std::alloc::{AllocError, Global};
use tup_graph::Nodes;
use tup_path::{Path, Paths};
use tup_record::OwnedState;
use tup_site::Site;
use tup_stamp::{Stamp, stamp_of};

/// The owned paths that no rule makes any more, in their order.
pub(crate) fn unmade(alloc: Global, nodes: &Nodes) -> Result<Paths, AllocError>
    ensures { IfOk result (λ paths. paths ≡ specs.unmade nodes.now) }
{
    let mut paths = Paths::new(alloc);
    for (path, owned) in nodes.owned() {
        if owned.maker.is_none() {
            paths.push(path.clone()?)?;
        }
    }
    Ok(paths)
}

/// Those of some owned paths at which a file stands. The first file of the user's is refused. Files are read one at a time,
/// and no content is kept.
pub(crate) fn look<S: Site>(
    alloc: Global,
    nodes: &Nodes,
    site: &mut S,
    paths: &[Path],
) -> Result<Paths, StaleFault>
    ensures sees { IsTrue S.tells → Sees nodes.now (S.world site.old).tree paths.now result }
    ensures large { OnlyLarge result }
    ensures never_full { result ≢ Err StaleFault.Full }
    ensures cause { CountsFaults (S.faults site.old) (S.faults site.new) result }

    ensures same { IsTrue S.tells → S.world site.new ≡ S.world site.old }
    ensures crash { IsTrue S.tells → GoesOn S.moment S.left_since site.old site.new NoStep }
    ensures known { IsTrue S.tells → S.known site.new ≡ S.known site.old }
{
    let mut files = Paths::new(alloc);
    for path in paths {
        if has_file(alloc, nodes, site, path)? {
            files.push(path.clone()?)?;
        }
    }
    Ok(files)
}

/// Whether a file stands at an owned path; one of the user's is refused.
fn has_file<S: Site>(
    alloc: Global,
    nodes: &Nodes,
    site: &mut S,
    path: &Path,
) -> Result<bool, StaleFault>
    ensures file { IsTrue S.tells → IfOk result
        (λ there. there ≡ is_some (finite.get (S.world site.old).tree path.now)) }
    ensures none { IsTrue S.tells
        → OnOk result (HasNoUsers nodes.now (S.world site.old).tree path.now) }
    ensures refused { IsTrue S.tells
        → IfErr result (IsRefused nodes.now (S.world site.old).tree path.now) }
    ensures large { OnlyLarge result }
    ensures never_full { result ≢ Err StaleFault.Full }
    ensures cause { CountsFaults (S.faults site.old) (S.faults site.new) result }

    ensures same { IsTrue S.tells → S.world site.new ≡ S.world site.old }
    ensures crash { IsTrue S.tells → GoesOn S.moment S.left_since site.old site.new NoStep }
    ensures known { IsTrue S.tells → S.known site.new ≡ S.known site.old }
{
    let Some(content) = site.get(alloc, path)? else {
        return Ok(false);
    };
    refuse_users(nodes, path, stamp_of(content.as_slice()))?;
    Ok(true)
}

/// Refuses a file with this stamp at an owned path, where it is the user's.
fn refuse_users(nodes: &Nodes, path: &Path, found: Stamp) -> Result<(), StaleFault>
    // In each tree in which such a file stands there.
    ensures none { (tree : Tree) → option_map stamp (finite.get tree path.now) ≡ Some found
        → OnOk result (HasNoUsers nodes.now tree path.now) }
    ensures refused { (tree : Tree) → option_map stamp (finite.get tree path.now) ≡ Some found
        → IfErr result (IsRefused nodes.now tree path.now) }
    ensures large { OnlyLarge result }
    ensures never_full { result ≢ Err StaleFault.Full }
    ensures never_site { result ≢ Err StaleFault.Site }
{
    let Some(owned) = nodes.owner(path) else {
        return Ok(());
    };
    if is_users(owned.state, found) {
        return Err(StaleFault::UserFile {
            path: path.clone()?,
            written: written_in(owned.state),
            found,
        });
    }
    Ok(())
}

/// Whether a file with this stamp is the user's, at an owned path in this state.
fn is_users(state: OwnedState, found: Stamp) -> bool
    ensures { IsTrue result ↔ IsUsers state found }
{
    match state {
        OwnedState::Never => true,
        OwnedState::Unsure => false,
        OwnedState::Written(written) => written != found,
    }
}

/// The stamp of what was written at an owned path.
fn written_in(state: OwnedState) -> Option<Stamp>
    ensures { result ≡ specs.written_in state }
{
    match state {
        OwnedState::Never | OwnedState::Unsure => None,
        OwnedState::Written(written) => Some(written),
    }
}
