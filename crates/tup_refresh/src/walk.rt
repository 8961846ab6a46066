//! The folders of a project while they are refreshed.
ghost use Rattle.std.specs.Prelude.{◌≡◌, ◌<◌, Err, Some, None, IsTrue, IfOk, IfErr, OnOk};
ghost use Rattle.tup_path.specs.Tree.{Tree};
ghost use Rattle.tup_site.specs.Crash.{GoesOn, NoStep};
ghost use Rattle.tup_readings.specs.Readings.{AreRead};
ghost use Rattle.tup_readings.specs.State.{IsLast};
ghost use Rattle.tup_refresh.specs.Cause.{CountsFaults, IsFaultOf, NamesLength, OnlyLarge};
ghost use Rattle.tup_refresh.specs.Part.{AreFilesOf, HasPaths, IsOutlined};
ghost use Rattle.tup_refresh.specs.Refresh.{AreRefreshed, AreSorted, AreTrue};
ghost use Rattle.tup_refresh.specs.Walk.{IsWalk, IsStart, NotesFresh, HasGone, steps_left};

use crate::fault::RefreshFault;
use crate::fetched::Fetched;
use crate::found::{Found, find};
use crate::gone::gone;
use crate::part::Part;
use crate::refreshed::Refreshed;
use std::alloc::{AllocError, Global};
use tup_graph::Nodes;
use tup_path::{ByPath, Path};
use tup_readings::{FoldersFault, Sources, Work};
use tup_rule::Reading;
use tup_site::Site;
use tup_vars::Config;

/// The folders of a project, while they are refreshed.
#[derive(Drop)]
pub(crate) struct Walk {
    /// How far they are. Its readings are kept ones that stand, and fresh ones.
    pub(crate) work: Work,
    /// The fresh ones.
    pub(crate) fresh: ByPath<Reading>,
    /// The contents that were asked for.
    pub(crate) fetched: Fetched,
}

impl Walk {
    /// The folders before the first one is begun.
    pub(crate) fn new(
        alloc: Global,
        outline: &Sources<'_>,
        fetched: Fetched,
    ) -> Result<Walk, AllocError>
        ensures { IfOk result (IsStart outline.now fetched) }
    {
        Ok(Walk {
            work: Work::new(alloc, outline)?,
            fresh: ByPath::new(alloc),
            fetched,
        })
    }

    /// Finds the reading of the last folder that was begun, as far as it goes. Where that needs the
    /// content of a source, that is fetched.
    pub(crate) fn advance<S: Site>(
        &mut self,
        alloc: Global,
        nodes: &Nodes,
        site: &mut S,
        outline: &Sources<'_>,
        settings: &Config,
        dir: Path,
    ) -> Result<(), RefreshFault>
        requires { IsLast (Some dir) self.old.work }
        ensures walk { IsTrue S.tells → OnOk result ((sources : Tree)
            → IsOutlined sources outline.now nodes.now
            → AreFilesOf (S.world site.old).tree sources → AreTrue sources nodes.now
            → IsWalk nodes.now sources settings.now self.old
            → IsWalk nodes.now sources settings.now self.new) }
        ensures fewer { OnOk result (steps_left self.new < steps_left self.old) }
        ensures fault { IfErr result (λ fault. (sources : Tree)
            → IsOutlined sources outline.now nodes.now → AreTrue sources nodes.now
            → IsWalk nodes.now sources settings.now self.old
            → IsFaultOf sources settings.now fault) }

        ensures large { OnlyLarge result }
        ensures named { IsTrue S.tells → NamesLength (S.world site.old).tree result }
        ensures cause { CountsFaults (S.faults site.old) (S.faults site.new) result }

        ensures same { IsTrue S.tells → S.world site.new ≡ S.world site.old }
        ensures crash { IsTrue S.tells
            → GoesOn S.moment S.left_since site.old site.new NoStep }
        ensures known { IsTrue S.tells → S.known site.new ≡ S.known site.old }
    {
        match self.go_on(alloc, nodes, outline, settings, dir)? {
            Some(path) => Ok(self.fetched.fetch(alloc, site, path)?),
            None => Ok(()),
        }
    }

    /// The same as far as contents are known: where one is needed, its path.
    fn go_on(
        &mut self,
        alloc: Global,
        nodes: &Nodes,
        outline: &Sources<'_>,
        settings: &Config,
        dir: Path,
    ) -> Result<Option<Path>, FoldersFault>
        requires { IsLast (Some dir) self.old.work }
        ensures walk { OnOk result ((sources : Tree) → IsOutlined sources outline.now nodes.now
            → AreTrue sources nodes.now
            → IsWalk nodes.now sources settings.now self.old
            → IsWalk nodes.now sources settings.now self.new) }
        ensures gone { IfOk result (HasGone self.old self.new) }
        ensures fault { IfErr result (λ fault. (sources : Tree)
            → IsOutlined sources outline.now nodes.now → AreTrue sources nodes.now
            → IsWalk nodes.now sources settings.now self.old
            → AreRead sources settings.now (Err fault)) }
    {
        let part = Part {
            outline,
            nodes,
            fetched: &self.fetched,
        };
        match find(alloc, nodes, &part, settings, &self.work.readings, &dir) {
            Ok(Found::Stands(reading)) => {
                self.work.note(alloc, dir, reading)?;
                Ok(None)
            }
            Ok(Found::Read(reading)) => {
                self.note_fresh(alloc, dir, reading)?;
                Ok(None)
            }
            Ok(Found::Waits(next)) => {
                self.work.wait(alloc, next)?;
                Ok(None)
            }
            Ok(Found::Lacks(path)) => Ok(Some(path)),
            Err(fault) => Err(fault),
        }
    }

    /// Notes the fresh reading of the last folder that was begun.
    fn note_fresh(&mut self, alloc: Global, dir: Path, reading: Reading) -> Result<(), AllocError>
        requires { IsLast (Some dir) self.old.work }
        ensures { OnOk result (NotesFresh dir reading self.old self.new) }
    {
        self.fresh.insert(dir.clone()?, reading.clone()?)?;
        self.work.note(alloc, dir, reading)
    }
}

/// What all of it comes to, where no folder is left.
pub(crate) fn done(
    alloc: Global,
    nodes: &Nodes,
    outline: &Sources<'_>,
    walk: Walk,
) -> Result<Refreshed, AllocError>
    requires { IsLast None walk.work }
    ensures refreshed { (sources : Tree) (settings : _) → HasPaths sources outline.now
        → IsWalk nodes.now sources settings walk
        → IfOk result (AreRefreshed nodes.now sources settings) }
    ensures sorted { IfOk result AreSorted }
{
    let gone = gone(alloc, nodes, outline)?;
    let Walk { work, fresh, .. } = walk;
    let all = work.readings.into_items(alloc)?;
    let fresh = fresh.into_items(alloc)?;
    Ok(Refreshed { all, fresh, gone })
}
