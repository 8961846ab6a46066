//! A core with its plan, and the files of its opening.
ghost use Rattle.std.specs.Prelude.{◌≡◌, ◌<◌, None, IfOk, length};
ghost use Rattle.tup_core.specs.Machine.{IsSeenFor};
ghost use Rattle.tup_core.specs.Sound.{HasNear, IsInRange};
ghost use Rattle.tup_core_rows.specs.Machine.{IsOfPlan, IsToldTo, IsToldOf, stamp_granted, stamp_told};

use std::alloc::Global;
use tup_access::Access;
use tup_core::{Core, CoreEvent, CoreFault, Plan, Running};
use tup_path::{ByPath, Text};
use tup_rows::{RowFault, Words};
use tup_schedule::Turn;
use tup_stamp::Stamp;

/// A core, the plan that it is told at each call, and the files at its opening.
#[derive(Drop)]
pub(crate) struct Machine {
    plan: Plan,
    files: ByPath<Stamp>,
    core: Core,
}

impl Machine {
    /// The opening of a plan over files with these stamps.
    pub(crate) fn new(alloc: Global, plan: Plan, files: ByPath<Stamp>) -> Result<Machine, RowFault>
        requires range { IsInRange plan }
        requires near { HasNear plan }
        ensures { IfOk result IsOfPlan }
    {
        match Core::new(alloc, &plan, &files) {
            Ok(core) => Ok(Machine { plan, files, core }),
            Err(_) => Err(RowFault::Memory),
        }
    }

    /// Whether the core takes an event.
    #[tactic(auto, using(crate::proofs::Machines::stays))]
    pub(crate) fn takes(&mut self, alloc: Global, event: &CoreEvent) -> Result<bool, RowFault>
        requires { IsOfPlan self.old }
        ensures { IsOfPlan self.new }
    {
        let seen = self.seen_for(alloc, event)?;
        match self.core.step(alloc, &self.plan, event, seen) {
            Ok(()) => Ok(true),
            Err(CoreFault::NotEnabled) => Ok(false),
            Err(CoreFault::Memory) => Err(RowFault::Memory),
        }
    }

    /// What has to be looked up for an event: the stamp at the opening of the path that an ask names.
    fn seen_for(&self, alloc: Global, event: &CoreEvent) -> Result<Option<Stamp>, RowFault>
        requires { IsOfPlan self.now }
        ensures { IfOk result (IsSeenFor self.now.plan self.now.core event.now) }
    {
        match event {
            CoreEvent::Ask { seat, text, .. } => self.seen_by(alloc, *seat, text),
            _ => Ok(None),
        }
    }

    /// The stamp at the opening of the path that the command at a seat names by a text.
    fn seen_by(&self, alloc: Global, seat: u32, text: &Text) -> Result<Option<Stamp>, RowFault>
        requires { IsOfPlan self.now }
        ensures { IfOk result (IsSeenFor self.now.plan self.now.core
            (CoreEvent.Ask seat text.now None)) }
    {
        let told = self.allows(alloc, seat, text)?;
        Ok(self.seen_told(&told))
    }

    /// The stamp at the opening of the path that may be asked for.
    fn seen_told(&self, told: &Option<Access>) -> Option<Stamp>
        ensures { result ≡ stamp_told self.now.files told.now }
    {
        match told {
            Some(access) => self.seen_granted(access),
            None => None,
        }
    }

    /// The same, of an ask that was judged.
    fn seen_granted(&self, access: &Access) -> Option<Stamp>
        ensures { result ≡ stamp_granted self.now.files access.now }
    {
        match access {
            Access::Yes(path) => self.files.get(path).copied(),
            Access::No(_) => None,
        }
    }

    /// The first rule that is ready.
    pub(crate) fn first_ready(&self) -> Option<u32>
        requires { IsOfPlan self.now }
    {
        for number in self.plan.reach.as_slice() {
            if self.core.ready(&self.plan, *number) {
                return Some(*number);
            }
        }
        None
    }

    /// The same, by the marks of those whose turn it is.
    pub(crate) fn first_turn(&self, alloc: Global) -> Result<Option<u32>, RowFault>
        requires { IsOfPlan self.now }
    {
        match Turn::new(alloc, &self.plan, &self.core) {
            Ok(turn) => Ok(turn.first_ready(&self.plan, &self.core)),
            Err(_) => Err(RowFault::Memory),
        }
    }

    /// What becomes of an ask of the command that a seat runs, if it runs one.
    pub(crate) fn allows(
        &self,
        alloc: Global,
        seat: u32,
        text: &Text,
    ) -> Result<Option<Access>, RowFault>
        requires { IsOfPlan self.now }
        ensures { IfOk result (IsToldOf self.now seat text.now) }
    {
        match self.core.running(seat) {
            Some(running) => self.allows_to(alloc, running, text),
            None => Ok(None),
        }
    }

    /// What becomes of an ask of a command that runs.
    fn allows_to(
        &self,
        alloc: Global,
        running: &Running,
        text: &Text,
    ) -> Result<Option<Access>, RowFault>
        requires core { IsOfPlan self.now }
        requires rule { running.now.rule < length self.now.plan.rules }
        ensures { IfOk result (IsToldTo self.now.plan running.now text.now) }
    {
        match self.core.allows(alloc, &self.plan, running, text) {
            Ok(given) => Ok(Some(given)),
            Err(_) => Err(RowFault::Memory),
        }
    }

    /// Whether no seat runs anything, whether a verdict was bad, and whether all is stopped.
    pub(crate) fn state(&self, alloc: Global) -> Words {
        let mut words = Words::yes_or_no(alloc, self.core.is_idle());
        words.put(alloc, yes_or_no(self.core.has_bad()));
        words.put(alloc, yes_or_no(self.core.stopped().is_some()));
        words
    }

    /// Adds the number of each rule that is ready.
    pub(crate) fn add_ready(&self, alloc: Global, words: &mut Words)
        requires { IsOfPlan self.now }
    {
        for number in self.plan.reach.as_slice() {
            if self.core.ready(&self.plan, *number) {
                words.show(alloc, number);
            }
        }
    }
}

/// How a row says yes and no.
fn yes_or_no(yes: bool) -> &'static [u8] {
    if yes { b"yes" } else { b"no" }
}
