//! Reporters are told what an update did.
ghost use Rattle.std.specs.Prelude.{◌≡◌, ◌≤◌, [], false, Err, IsTrue, OnOk, vec_capacity, vec_len};
ghost use Rattle.tup_tell.specs.Parted.{AreCutOff, AreTold, HasFailed, IsTold, IsToldSome};
ghost use Rattle.tup_tell.specs.declared.reporter.TellFailed.TheVariants.{Fault, Memory};

use crate::event::Event;
use crate::reporter::{Reporter, TellFailed};
use std::alloc::Global;

/// What came of a telling.
#[derive(Drop)]
pub struct Telling<T> {
    /// The reporters that failed, in their order.
    pub failed: Vec<T>,
    /// Whether all were told; else there was no memory.
    pub all: bool,
}

/// Tells each reporter these events in their order. One that fails is told no more, and leaves; all others are told all the
/// same. The room for those that leave is taken before the first is told.
pub fn tell<T: Reporter>(alloc: Global, reporters: &mut Vec<T>, events: &[Event]) -> Telling<T>
    ensures all { IsTrue result.all
        → AreTold T.told T.faults events.now reporters.old.items reporters.new.items result.failed.items }
    ensures cut_off { result.all ≡ false
        → AreCutOff T.told T.faults events.now reporters.old.items reporters.new.items result.failed.items }
{
    match Vec::with_capacity(alloc, reporters.len()) {
        Ok(failed) => tell_each(alloc, reporters, events, failed),
        Err(_) => Telling {
            failed: Vec::new(alloc),
            all: false,
        },
    }
}

/// The same with this room for those that leave.
fn tell_each<T: Reporter>(
    alloc: Global,
    reporters: &mut Vec<T>,
    events: &[Event],
    mut failed: Vec<T>,
) -> Telling<T>
    requires room { vec_len reporters.old ≤ vec_capacity failed }
    requires none { failed.items ≡ [] }
    ensures all { IsTrue result.all
        → AreTold T.told T.faults events.now reporters.old.items reporters.new.items result.failed.items }
    ensures cut_off { result.all ≡ false
        → AreCutOff T.told T.faults events.now reporters.old.items reporters.new.items result.failed.items }
{
    let mut at = 0;
    while at < reporters.len() {
        match tell_one(alloc, &mut reporters[at], events) {
            Ok(()) => at += 1,
            Err(TellFailed::Fault) => failed.push_reserved(reporters.remove(at)),
            Err(TellFailed::Memory) => return Telling { failed, all: false },
        }
    }
    Telling { failed, all: true }
}

/// Tells a reporter these events in their order, up to the first that it refuses.
fn tell_one<T: Reporter>(
    alloc: Global,
    reporter: &mut T,
    events: &[Event],
) -> Result<(), TellFailed>
    ensures told { OnOk result (IsTold T.told T.faults events.now reporter.old reporter.new) }
    ensures fault { result ≡ Err Fault
        → HasFailed T.told T.faults events.now reporter.old reporter.new }
    ensures memory { result ≡ Err Memory
        → IsToldSome T.told T.faults events.now reporter.old reporter.new }
{
    for event in events {
        reporter.note(alloc, event)?;
    }
    Ok(())
}
