//! The stamps that files get in an update, with room for each that may get one.
ghost use Rattle.std.specs.Prelude.{◌≡◌, true, Some, IfOk, OnOk, if◌then◌else◌};
ghost use Rattle.std.specs.FinMap as finite;
ghost use Rattle.tup_path.specs.Name.{Names};
ghost use Rattle.tup_path.specs.Order.{same_path};
ghost use Rattle.tup_rule.specs.Rule.{among};
ghost use Rattle.tup_core.specs.Sound.{IsInRange};
ghost use Rattle.tup_core.specs.Step.{with_stamps, is_reached};

use crate::plan::Plan;
use std::alloc::{AllocError, Global};
use std::collections::BTreeMap;
use std::snapshot::Snapshot;
use tup_path::{ByPath, Path};
use tup_stamp::Stamp;

/// The stamps that files got since the opening. Those that they had at the opening aren't kept: whoever asks for a stamp says
/// which one the path had then.
#[derive(Drop)]
pub(crate) struct FileStamps {
    /// The files at the opening.
    first: Snapshot<ByPath<Stamp>>,
    /// The paths that may get a stamp, each with the one that it got.
    beside: BTreeMap<Path, Option<Stamp>>,
}

impl FileStamps {
    ghost use Rattle.tup_core.specs.Files.{stamp_in, stamp_since, stamp_with, has_room, paths_in, AreKept, HasRoomFor};

    /// These files, with room for the outputs of the rules that are reached.
    pub(crate) fn new(
        alloc: Global,
        files: &ByPath<Stamp>,
        plan: &Plan,
    ) -> Result<FileStamps, AllocError>
        requires { IsInRange plan.now }
        ensures first { IfOk result (λ table. table.first.value ≡ files.now) }
        ensures stamps { IfOk result (λ table. (path : Names)
            → stamp_in table path ≡ finite.get files.now path) }
        ensures room { IfOk result (HasRoomFor plan.now.rules (is_reached plan.now)) }
    {
        let mut table = FileStamps {
            first: Snapshot::of(files),
            beside: BTreeMap::new(alloc),
        };
        table.make_rooms(plan)?;
        Ok(table)
    }

    /// Makes room for the outputs of the rules that are reached; every file keeps its stamp.
    fn make_rooms(&mut self, plan: &Plan) -> Result<(), AllocError>
        requires { IsInRange plan.now }
        ensures kept { OnOk result (AreKept self.old self.new) }
        ensures room { OnOk result (HasRoomFor plan.now.rules (is_reached plan.now) self.new) }
    {
        for at in plan.reach.as_slice() {
            self.make_room(plan.rules.as_slice()[*at as usize].outputs.as_slice())?;
        }
        Ok(())
    }

    /// Makes room for some paths.
    fn make_room(&mut self, paths: &[Path]) -> Result<(), AllocError>
        ensures kept { OnOk result (AreKept self.old self.new) }
        ensures room { OnOk result ((path : Names) → among path paths.now ≡ true
            → has_room self.new path ≡ true) }
    {
        for path in paths {
            self.make_one(path)?;
        }
        Ok(())
    }

    /// Makes room for a path.
    fn make_one(&mut self, path: &Path) -> Result<(), AllocError>
        ensures kept { OnOk result (AreKept self.old self.new) }
        ensures room { OnOk result (has_room self.new path.now ≡ true) }
    {
        let stamp = self.since(path);
        self.beside.insert(path.clone()?, stamp)?;
        Ok(())
    }

    /// The stamp that a path got since the opening, if it got one.
    fn since(&self, path: &Path) -> Option<Stamp>
        ensures { result ≡ stamp_since self.now path.now }
    {
        self.beside.get(path).copied().flatten()
    }

    /// The stamp of a path that had this one at the opening.
    pub(crate) fn get(&self, path: &Path, seen: Option<Stamp>) -> Option<Stamp>
        ensures { result ≡ stamp_with self.now path.now seen }
    {
        self.since(path).or(seen)
    }

    /// Sets the stamps of files that have room for them, one after another; it takes no memory.
    pub(crate) fn set_all(&mut self, files: &[(Path, Stamp)])
        requires { (path : Names) → among path (paths_in files.now) ≡ true
            → has_room self.old path ≡ true }
        ensures first { self.new.first ≡ self.old.first }
        ensures stamps { (path : Names)
            → stamp_in self.new path ≡ with_stamps (stamp_in self.old) files.now path }
        ensures room { (path : Names) → has_room self.new path ≡ has_room self.old path }
    {
        for (path, stamp) in files {
            self.set(path, *stamp);
        }
    }

    /// Sets the stamp of a file that has room for it; it takes no memory.
    pub(crate) fn set(&mut self, path: &Path, stamp: Stamp)
        requires { has_room self.old path.now ≡ true }
        ensures first { self.new.first ≡ self.old.first }
        ensures stamps { (q : Names) → stamp_in self.new q ≡
            (if same_path q path.now then Some stamp else stamp_in self.old q) }
        ensures room { (q : Names) → has_room self.new q ≡ has_room self.old q }
    {
        if let Some(slot) = self.beside.get_mut(path) {
            *slot = Some(stamp);
        }
    }
}
