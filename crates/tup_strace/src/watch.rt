//! What a command did to places, call by call.
ghost use Rattle.std.specs.Prelude.{◌≡◌, OnOk, IfOk};
ghost use Rattle.tup_strace.specs.Watch as specs;
ghost use Rattle.tup_strace.specs.Watch.{acts_in};

use crate::act::Act;
use crate::acts::{Acts, copied, first, is_done};
use crate::folders::Folders;
use crate::names::{has, is_entering, is_forking, is_returning};
use crate::said::Said;
use std::alloc::{AllocError, Global};
use tup_path::Items;
use tup_trace::Call;

/// What was seen so far.
#[derive(Drop)]
pub(crate) struct Watch {
    pub(crate) folders: Folders,
    pub(crate) acts: Acts,
}

/// What a command did to places that began in this folder, in the order of its calls.
pub fn acts_of(alloc: Global, dir: &[u8], calls: &[Call]) -> Result<Items<Act>, AllocError>
    ensures { IfOk result (λ acts. acts ≡ acts_in dir.now calls.now) }
{
    watched(alloc, folders_of(alloc, dir, calls)?, calls)
}

/// What the calls did of a command whose processes begin in these folders.
fn watched(alloc: Global, folders: Folders, calls: &[Call]) -> Result<Items<Act>, AllocError>
    ensures { IfOk result (λ acts. acts ≡ specs.watched folders calls.now) }
{
    let acts = Acts {
        list: Items::new(alloc),
    };
    let mut watch = Watch { folders, acts };
    for call in calls {
        watch.follow(alloc, call)?;
    }
    Ok(watch.acts.list)
}

impl Watch {
    /// Follows a call.
    fn follow(&mut self, alloc: Global, call: &Call) -> Result<(), AllocError>
        ensures { OnOk result (self.new ≡ specs.followed self.old call.now) }
    {
        let said = Said::of(alloc, &self.folders, &call.process, call.parts.as_slice())?;
        self.note(alloc, call, &said)
    }

    /// Notes what a call does that says so.
    fn note(&mut self, alloc: Global, call: &Call, said: &Said) -> Result<(), AllocError>
        ensures { OnOk result (self.new ≡ specs.noted self.old call.now said.now) }
    {
        go_on(alloc, &mut self.folders, call, said)?;
        self.acts.add(alloc, call.name.as_slice(), said)
    }
}

/// Notes where the processes are after a call.
fn go_on(alloc: Global, folders: &mut Folders, call: &Call, said: &Said) -> Result<(), AllocError>
    ensures { OnOk result (folders.new ≡ specs.folders_after folders.old call.now said.now) }
{
    folders.settle(alloc, &call.process, &call.process)?;
    if is_done(&said.outcome) {
        enter_by(alloc, folders, call, said)
    } else {
        Ok(())
    }
}

/// Notes what a call that was done makes or enters.
fn enter_by(
    alloc: Global,
    folders: &mut Folders,
    call: &Call,
    said: &Said,
) -> Result<(), AllocError>
    ensures { OnOk result (folders.new ≡ specs.moved folders.old call.now said.now) }
{
    let name = call.name.as_slice();
    if is_forking(name) {
        begin_child(alloc, folders, call, said)
    } else if is_entering(name) {
        let path = copied(alloc, first(said))?;
        folders.enter(&call.process, path)
    } else if is_returning(name) {
        enter_base(folders, call, said)
    } else {
        Ok(())
    }
}

/// A process that was made begins in the folder of its maker.
fn begin_child(
    alloc: Global,
    folders: &mut Folders,
    call: &Call,
    said: &Said,
) -> Result<(), AllocError>
    ensures { OnOk result (folders.new ≡ specs.begun folders.old call.now said.now) }
{
    match &said.outcome {
        Some(child) => folders.settle(alloc, child, &call.process),
        None => Ok(()),
    }
}

/// A process enters the folder of a descriptor, if that has a path.
fn enter_base(folders: &mut Folders, call: &Call, said: &Said) -> Result<(), AllocError>
    ensures { OnOk result (folders.new ≡ specs.returned folders.old call.now said.now) }
{
    match &said.base {
        Some(base) => {
            let path = base.clone()?;
            folders.enter(&call.process, path)
        }
        None => Ok(()),
    }
}

/// The folders of a command that begins in one, by who made whom in its calls: what a process does may stand before the end of the
/// call that made it.
fn folders_of(alloc: Global, dir: &[u8], calls: &[Call]) -> Result<Folders, AllocError>
    ensures { IfOk result (λ folders. folders ≡ specs.folders_in dir.now calls.now) }
{
    let mut folders = Folders::new(alloc, dir)?;
    for call in calls {
        add_birth(alloc, &mut folders, call)?;
    }
    Ok(folders)
}

/// Adds the process that a call made.
fn add_birth(alloc: Global, folders: &mut Folders, call: &Call) -> Result<(), AllocError>
    ensures { OnOk result (folders.new ≡ specs.with_birth folders.old call.now) }
{
    if !is_forking(call.name.as_slice()) {
        return Ok(());
    }
    let said = Said::of(alloc, folders, &call.process, call.parts.as_slice())?;
    add_child(folders, call, &said)
}

/// Adds the process that a call made which says so.
fn add_child(folders: &mut Folders, call: &Call, said: &Said) -> Result<(), AllocError>
    ensures { OnOk result (folders.new ≡ specs.born folders.old call.now said.now) }
{
    match &said.outcome {
        Some(child) if is_done(&said.outcome) => {
            let shares = has(b"CLONE_FS", said.words.as_slice());
            folders.bear(&call.process, child, shares)
        }
        _ => Ok(()),
    }
}
