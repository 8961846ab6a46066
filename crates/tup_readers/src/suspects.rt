//! Rules whose records may no longer tell what is seen.
ghost use Rattle.std.specs.Prelude.{◌≡◌, Contains, IfOk, OnOk};
ghost use Rattle.std.specs.Bool.{Decides};
ghost use Rattle.std.specs.FinMap as finite;
ghost use Rattle.tup_graph.specs.Edits.{edited, without};
ghost use Rattle.tup_graph.specs.Graph.{GraphState};
ghost use Rattle.tup_graph.specs.Opening.{put as put_of};
ghost use Rattle.tup_graph.specs.Prints.{HasPrints};
ghost use Rattle.tup_readers.specs.Changes.{Adds, AddsAtLeast, Takes};
ghost use Rattle.tup_readers.specs.Index.{IsUserIn};
ghost use Rattle.tup_readers.specs.Suspects.{AreSuspects, AskedOther, IsAmong, TellsOther, WroteOther};

use crate::seen::SeenFiles;
use std::alloc::{AllocError, Global};
use std::collections::BTreeSet;
use tup_graph::{Edit, Nodes, Prints};
use tup_path::Path;
use tup_record::{Record, RunRecord};
use tup_stamp::Stamp;

/// Rules whose records may tell other stamps than those that are seen; all that do are among them.
#[derive(Drop)]
pub(crate) struct Suspects {
    pub(crate) numbers: BTreeSet<u32>,
}

impl Suspects {
    /// None; it takes no memory.
    pub(crate) fn new(alloc: Global) -> Suspects
        ensures { AreSuspects finite.empty finite.empty result }
    {
        Suspects {
            numbers: BTreeSet::new(alloc),
        }
    }

    /// The rules whose records tell other stamps than those that are seen, in one pass over the records.
    pub(crate) fn of_nodes(alloc: Global, nodes: &Nodes) -> Result<Suspects, AllocError>
        ensures { IfOk result (AreSuspects nodes.now.seen nodes.now.runs) }
    {
        let files = SeenFiles::listed(alloc, nodes)?;
        let mut suspects = Suspects::new(alloc);
        let mut place = 0;
        for (number, run) in nodes.runs() {
            place = files.place_of(place, run);
            suspects.look(&files, place, *number, run)?;
        }
        Ok(suspects)
    }

    /// Takes in what an edit does to a graph, which is given as it is before, with the prints of its paths.
    pub(crate) fn edit(
        &mut self,
        alloc: Global,
        nodes: &Nodes,
        prints: &Prints,
        edit: &Edit,
    ) -> Result<(), AllocError>
        requires suspects { AreSuspects nodes.now.seen nodes.now.runs self.old }
        requires prints { HasPrints nodes.now prints.now }
        ensures { OnOk result (AreSuspects (edited nodes.now edit.now).seen
            (edited nodes.now edit.now).runs self.new) }
    {
        match edit {
            Edit::Put(found) => self.put(alloc, nodes, prints, found),
            Edit::Remove(gone) => self.leave_out(alloc, nodes, prints, gone),
        }
    }

    /// Takes in that a record stands, in the place of the one that stood under its key.
    fn put(
        &mut self,
        alloc: Global,
        nodes: &Nodes,
        prints: &Prints,
        found: &Record,
    ) -> Result<(), AllocError>
        requires suspects { AreSuspects nodes.now.seen nodes.now.runs self.old }
        requires prints { HasPrints nodes.now prints.now }
        ensures { OnOk result (AreSuspects (put_of nodes.now found.now).seen
            (put_of nodes.now found.now).runs self.new) }
    {
        match found {
            Record::Seen { path, .. } => self.add_users(alloc, prints, path),
            Record::Run { number, run } => self.renew(alloc, nodes, *number, run),
            _ => Ok(()),
        }
    }

    /// Takes in that what stands under the key of a record goes.
    fn leave_out(
        &mut self,
        alloc: Global,
        nodes: &Nodes,
        prints: &Prints,
        gone: &Record,
    ) -> Result<(), AllocError>
        requires suspects { AreSuspects nodes.now.seen nodes.now.runs self.old }
        requires prints { HasPrints nodes.now prints.now }
        ensures { OnOk result (AreSuspects (without nodes.now gone.now).seen
            (without nodes.now gone.now).runs self.new) }
    {
        match gone {
            Record::Seen { path, .. } => self.add_users(alloc, prints, path),
            Record::Run { number, .. } => {
                self.acquit(nodes, *number);
                Ok(())
            }
            _ => Ok(()),
        }
    }

    /// A rule has this record from now on.
    fn renew(
        &mut self,
        alloc: Global,
        nodes: &Nodes,
        number: u32,
        run: &RunRecord,
    ) -> Result<(), AllocError>
        requires { AreSuspects nodes.now.seen nodes.now.runs self.old }
        ensures { OnOk result (AreSuspects nodes.now.seen
            (finite.insert nodes.now.runs number run.now) self.new) }
    {
        self.acquit(nodes, number);
        let files = SeenFiles::unlisted(alloc, nodes);
        self.look(&files, 0, number, run)
    }

    /// A rule has no record from now on.
    fn acquit(&mut self, nodes: &Nodes, number: u32)
        requires { AreSuspects nodes.now.seen nodes.now.runs self.old }
        ensures { AreSuspects nodes.now.seen (finite.remove nodes.now.runs number) self.new }
    {
        self.remove(number);
    }

    /// Adds a rule, if its record tells another stamp than that which is seen. What it tells of is looked for near a place.
    fn look(
        &mut self,
        files: &SeenFiles<'_>,
        place: usize,
        number: u32,
        run: &RunRecord,
    ) -> Result<(), AllocError>
        ensures { OnOk result (Adds (λ other. (other ≡ number) × TellsOther files.now.seen run.now)
            (IsAmong self.old.numbers) (IsAmong self.new.numbers)) }
    {
        if tells_other(files, place, run) {
            return self.add(number);
        }
        Ok(())
    }

    /// Adds the rules beside the print of a path: those whose records ask or wrote it are among them. No record is looked into, as
    /// one that asks thousands of paths would be for each of these that is seen otherwise.
    fn add_users(&mut self, alloc: Global, prints: &Prints, path: &Path) -> Result<(), AllocError>
        ensures { (g : GraphState) → HasPrints g prints.now
            → OnOk result (AddsAtLeast (IsUserIn g path.now)
            (IsAmong self.old.numbers) (IsAmong self.new.numbers)) }
    {
        let near = prints.users(alloc, path)?;
        self.add_all(&near)
    }

    /// Adds some rules.
    fn add_all(&mut self, numbers: &[u32]) -> Result<(), AllocError>
        ensures { OnOk result (Adds (Contains numbers.now)
            (IsAmong self.old.numbers) (IsAmong self.new.numbers)) }
    {
        for number in numbers {
            self.add(*number)?;
        }
        Ok(())
    }

    /// Adds a rule.
    fn add(&mut self, number: u32) -> Result<(), AllocError>
        ensures { OnOk result (Adds (λ other. other ≡ number)
            (IsAmong self.old.numbers) (IsAmong self.new.numbers)) }
    {
        self.numbers.insert(number)?;
        Ok(())
    }

    /// Takes a rule away, if it is there.
    fn remove(&mut self, number: u32)
        ensures { Takes (λ other. other ≡ number)
            (IsAmong self.old.numbers) (IsAmong self.new.numbers) }
    {
        self.numbers.remove(&number);
    }
}

/// Whether a record tells another stamp of a path than that which is seen.
fn tells_other(files: &SeenFiles<'_>, place: usize, run: &RunRecord) -> bool
    ensures { Decides result (TellsOther files.now.seen run.now) }
{
    if asked_other(files, place, run.asks.as_slice()) {
        return true;
    }
    wrote_other(files, place, run.writes.as_slice())
}

/// Whether one of some asks was told another stamp than that which is seen.
fn asked_other(files: &SeenFiles<'_>, before: usize, asks: &[(Path, Option<Stamp>)]) -> bool
    ensures { Decides result (AskedOther files.now.seen asks.now) }
{
    let mut place = before;
    for (path, given) in asks {
        place = files.place(place, path);
        if !sees(files, place, path, *given) {
            return true;
        }
    }
    false
}

/// Whether one of some files was written with another stamp than that which is seen.
fn wrote_other(files: &SeenFiles<'_>, before: usize, writes: &[(Path, Stamp)]) -> bool
    ensures { Decides result (WroteOther files.now.seen writes.now) }
{
    let mut place = before;
    for (path, given) in writes {
        place = files.place(place, path);
        if !sees(files, place, path, Some(*given)) {
            return true;
        }
    }
    false
}

/// Whether a path, which may have this place among the files, is seen with this stamp, or with no file.
fn sees(files: &SeenFiles<'_>, place: usize, path: &Path, given: Option<Stamp>) -> bool
    ensures { Decides result (given ≡ finite.get files.now.seen path.now) }
{
    given == files.at(place, path)
}
