//! What reporters are told of an update, or of what it would do, and how these end then.
ghost use Rattle.std.specs.Prelude.{◌≡◌, ◌++◌, [], false, drop, map, take, IfOk, IsTrue, OnOk};
ghost use Rattle.tup_tell.specs.Parted.{AreCutOff, AreTold};
ghost use Rattle.tup_tell.specs.declared.event.Event.TheVariants.{Read, Removed, Started};
ghost use Rattle.tup_top.specs.Status.{after_tell_fault as fault_after, after_telling as answer_after};
ghost use Rattle.tup_top.specs.Telling as specs;

use crate::status::Status;
use std::alloc::{AllocError, Global};
use tup_path::Path;
use tup_promise::{EndedRule, Log, Step};
use tup_rule::RuleName;
use tup_tell::{Event, Reporter, Telling, tell};

/// How an order ends whose reporters were told.
#[derive(Drop)]
pub(crate) struct Reported<T> {
    pub(crate) status: Status,
    /// The reporters that failed, in their order.
    pub(crate) failed: Vec<T>,
}

/// Tells each reporter what an update with this log did. Without reporters it takes no memory.
pub(crate) fn hear<T: Reporter>(alloc: Global, log: &Log, tellers: &mut Vec<T>) -> Telling<T>
    ensures all { IsTrue result.all → let events = specs.events_of log.now in
        AreTold T.told T.faults events tellers.old.items tellers.new.items result.failed.items }
    ensures cut_off { result.all ≡ false → let events = specs.events_of log.now in
        AreCutOff T.told T.faults events tellers.old.items tellers.new.items result.failed.items }
    ensures nobody { tellers.old.items ≡ [] → result.failed.items ≡ [] }
{
    if tellers.is_empty() {
        return Telling {
            failed: nobody(alloc),
            all: true,
        };
    }
    match events(alloc, log) {
        Ok(events) => tell(alloc, tellers, events.as_slice()),
        Err(_) => Telling {
            failed: nobody(alloc),
            all: false,
        },
    }
}

/// A law: the events of an update tell each rule that was begun, and each that ended, in the order of its log.
pub fn each_rule_is_told()
    ensures { specs.EachIsTold }
{}

/// Tells each reporter that these folders were read. Without reporters it takes no memory.
pub(crate) fn hear_read<T: Reporter>(
    alloc: Global,
    folders: &[Path],
    tellers: &mut Vec<T>,
) -> Telling<T>
    ensures all { IsTrue result.all → let events = map Read folders.now in
        AreTold T.told T.faults events tellers.old.items tellers.new.items result.failed.items }
    ensures cut_off { result.all ≡ false → let events = map Read folders.now in
        AreCutOff T.told T.faults events tellers.old.items tellers.new.items result.failed.items }
{
    if tellers.is_empty() {
        return Telling {
            failed: nobody(alloc),
            all: true,
        };
    }
    match read_events(alloc, folders) {
        Ok(events) => tell(alloc, tellers, events.as_slice()),
        Err(_) => Telling {
            failed: nobody(alloc),
            all: false,
        },
    }
}

/// No reporters.
pub(crate) fn nobody<T: Drop>(alloc: Global) -> Vec<T>
    ensures { result.items ≡ [] }
{
    Vec::new(alloc)
}

/// How an update that came to this ends, where all reporters were told, or there was no memory.
pub(crate) fn after_telling(came: Status, all: bool, none_failed: bool) -> Status
    ensures { result ≡ answer_after all none_failed came }
{
    if !all {
        return Status::Memory;
    }
    if none_failed {
        return came;
    }
    after_tell_fault(came)
}

/// A reporter's failure is answered where all else went well; another answer tells more.
fn after_tell_fault(came: Status) -> Status
    ensures { result ≡ fault_after came }
{
    match came {
        Status::Done { .. } => Status::TellFault,
        other => other,
    }
}

/// The events of an update with this log.
fn events(alloc: Global, log: &Log) -> Result<Vec<Event>, AllocError>
    ensures { IfOk result (λ events. events.items ≡ specs.events_of log.now) }
{
    let mut events = Vec::new(alloc);
    add_read(&mut events, log.read.as_slice())?;
    add_removed(&mut events, log.removed.as_slice())?;
    add_steps(
        &mut events,
        log.steps.as_slice(),
        log.ran.as_slice(),
        log.ended.as_slice(),
    )?;
    Ok(events)
}

/// The events of folders that were read.
fn read_events(alloc: Global, folders: &[Path]) -> Result<Vec<Event>, AllocError>
    ensures { IfOk result (λ events. events.items ≡ map Read folders.now) }
{
    let mut events = Vec::new(alloc);
    add_read(&mut events, folders)?;
    Ok(events)
}

/// Adds an event for each folder that was read.
fn add_read(events: &mut Vec<Event>, folders: &[Path]) -> Result<(), AllocError>
    ensures { OnOk result (events.new.items ≡ events.old.items ++ map Read folders.now) }
{
    for dir in folders {
        events.push(Event::Read { dir: dir.clone()? })?;
    }
    Ok(())
}

/// Adds an event for each file that was removed.
fn add_removed(events: &mut Vec<Event>, paths: &[Path]) -> Result<(), AllocError>
    ensures { OnOk result (events.new.items ≡ events.old.items ++ map Removed paths.now) }
{
    for path in paths {
        events.push(Event::Removed {
            path: path.clone()?,
        })?;
    }
    Ok(())
}

/// Adds the events of the rules that were begun and of those that ended, as these steps followed each other.
fn add_steps(
    events: &mut Vec<Event>,
    steps: &[Step],
    mut begun: &[RuleName],
    mut ended: &[EndedRule],
) -> Result<(), AllocError>
    ensures { OnOk result (events.new.items
        ≡ events.old.items ++ specs.step_events steps.now begun.now ended.now) }
{
    for step in steps {
        match step {
            Step::Begin => begun = add_begin(events, begun)?,
            Step::End => ended = add_end(events, ended)?,
        }
    }
    Ok(())
}

/// Adds that the next of these rules was begun, if there is one, and gives those behind it.
fn add_begin<'r>(
    events: &mut Vec<Event>,
    begun: &'r [RuleName],
) -> Result<&'r [RuleName], AllocError>
    ensures added { OnOk result
        (events.new.items ≡ events.old.items ++ map Started (take 1 begun.now)) }
    ensures behind { IfOk result (λ behind. behind.now ≡ drop 1 begun.now) }
{
    let Some((rule, behind)) = begun.split_first() else {
        return Ok(begun);
    };
    events.push(Event::Started {
        rule: rule.clone()?,
    })?;
    Ok(behind)
}

/// Adds what the next of these rules came to, if there is one, and gives those behind it.
fn add_end<'r>(
    events: &mut Vec<Event>,
    ended: &'r [EndedRule],
) -> Result<&'r [EndedRule], AllocError>
    ensures added { OnOk result
        (events.new.items ≡ events.old.items ++ map specs.end_event (take 1 ended.now)) }
    ensures behind { IfOk result (λ behind. behind.now ≡ drop 1 ended.now) }
{
    let Some((one, behind)) = ended.split_first() else {
        return Ok(ended);
    };
    events.push(Event::Ended {
        rule: one.rule.clone()?,
        verdict: one.verdict.clone()?,
    })?;
    Ok(behind)
}
