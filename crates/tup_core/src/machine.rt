//! The machine.
ghost use Rattle.std.specs.Prelude.{◌≡◌, ◌≢◌, ◌↔◌, ◌<◌, true, false, None, Some, IsTrue, IfOk, IfErr, OnErr, MatchOption, length, slice_get, unwrap_or};
ghost use Rattle.std.specs.FinMap as finite;
ghost use Rattle.tup_rule.specs.Rule.{writes};
ghost use Rattle.tup_core.specs.declared.running.Running.{Running as RunningValue};
ghost use Rattle.tup_access.specs.Access.{access as access_of};
ghost use Rattle.tup_access.specs.Inputs.{AreInputs};
ghost use Rattle.tup_access.specs.declared.inputs.Inputs.{Inputs as InputsValue};
ghost use Rattle.tup_core.specs.Step as specs;
ghost use Rattle.tup_core.specs.Step.{IsEnabled, IsReady, opening, CanAsk, CanDeny, CanFinish};
ghost use Rattle.tup_core.specs.Sound.{HasNear, IsInRange};
ghost use Rattle.tup_core.specs.Waiting.{flag, CanRelease};
ghost use Rattle.tup_core.specs.Ending.{IsUnrefused};
ghost use Rattle.tup_core.specs.Files.{IsSeenAt};
ghost use Rattle.tup_core.specs.Outputs.{AreOutputs};
ghost use Rattle.tup_core.specs.Machine.{entry, state_of, ready_test, IsCore, IsSeenFor, Answers, Takes, Completes, MayEnd};

mod reading;

use crate::ending::{ended_badly, may_end};
use crate::event::{Cause, CoreEvent, Stamps};
use crate::fault::CoreFault;
use crate::files::FileStamps;
use crate::outputs::Outputs;
use crate::plan::Plan;
use crate::running::{Running, ask_at, deny_at};
use crate::same::{is_bad, same_answer, same_verdict};
use crate::start::{inputs_of_all, is_up, lowered, nothing, reached};
use crate::waiting::Waiting;
use std::alloc::Global;
use tup_access::{Access, Inputs, MAX_ASKS, Verdict};
use tup_path::{ByPath, Path, Text};
use tup_rule::Rule;
use tup_stamp::Stamp;

/// How many seats there are.
const SEATS: usize = 16;

/// The state of an update: what is pending, who runs what, the stamps of the files, what was bad and why it stops.
#[derive(Drop)]
pub struct Core {
    /// The outputs of all rules.
    generated: Outputs,
    /// What each rule of the reach declares.
    inputs: Vec<Inputs>,
    waiting: Waiting,
    pending: Vec<bool>,
    claimed: Vec<bool>,
    seats: Vec<Option<Running>>,
    files: FileStamps,
    bad: Vec<Option<Verdict>>,
    stopped: Option<Cause>,
}

impl Core {
    /// The opening of a plan over files with their stamps: its reach is pending, and nothing was claimed, runs, is
    /// bad or stopped. It takes the memory for all that comes, the asks of commands and the texts of bad verdicts
    /// aside, and none for the files: they stay with the caller. It is refused for want of memory alone.
    pub fn new(alloc: Global, plan: &Plan, files: &ByPath<Stamp>) -> Result<Core, CoreFault>
        requires range { IsInRange plan.now }
        requires near { HasNear plan.now }
        ensures core { IfOk result (IsCore plan.now) }
        ensures first { IfOk result (λ core. core.files.first.value ≡ files.now) }
        ensures state { IfOk result (λ core. state_of core
            ≡ opening plan.now (finite.entries files.now)) }
        ensures memory { IfErr result (λ fault. fault ≡ CoreFault.Memory) }
    {
        let rules = plan.rules.as_slice();
        let pending = reached(alloc, plan)?;
        Ok(Core {
            generated: Outputs::of(plan),
            inputs: inputs_of_all(alloc, rules, &pending)?,
            waiting: Waiting::new(
                alloc,
                rules,
                plan.reach.as_slice(),
                plan.near.as_slice(),
                &pending,
            )?,
            files: FileStamps::new(alloc, files, plan)?,
            pending,
            claimed: lowered(alloc, rules.len())?,
            seats: nothing(alloc, SEATS)?,
            bad: nothing(alloc, rules.len())?,
            stopped: None,
        })
    }

    /// Whether a rule may be claimed: it is pending, was never claimed, nothing is stopped, and no declared producer
    /// of it is pending. It takes no memory, and looks at this rule alone.
    pub fn ready(&self, plan: &Plan, rule: u32) -> bool
        requires { IsCore plan.now self.now }
        ensures { IsTrue result ↔ IsReady plan.now (state_of self.now) rule }
    {
        self.passes(rule as usize)
    }

    /// The four tests of a rule.
    fn passes(&self, at: usize) -> bool
        ensures { result ≡ ready_test self.now at }
    {
        self.stopped.is_none()
            && is_up(&self.pending, at)
            && !is_up(&self.claimed, at)
            && self.waiting.is_clear(at)
    }

    /// Takes an event where it is enabled. For an Ask `seen` is the stamp at the opening of the path that its text names.
    /// `NotEnabled` and `Memory` leave the state as it was; `Memory` answers an Ask, a Deny and a bad Finish of a command
    /// that was refused nothing, and no other event.
    pub fn step(
        &mut self,
        alloc: Global,
        plan: &Plan,
        event: &CoreEvent,
        seen: Option<Stamp>,
    ) -> Result<(), CoreFault>
        requires core { IsCore plan.now self.old }
        requires seen { IsSeenFor plan.now self.old event.now seen }
        ensures { Answers plan.now self.old event.now result self.new }
    {
        match event {
            CoreEvent::Claim { seat, rule } => self.claim(alloc, plan, *seat, *rule),
            CoreEvent::Ask { seat, text, answer } => {
                self.note_ask(alloc, plan);
                self.ask(alloc, plan, *seat, text, *answer, seen)
            }
            CoreEvent::Deny {
                seat,
                text,
                verdict,
            } => {
                self.note_ask(alloc, plan);
                self.deny(alloc, plan, *seat, text, verdict)
            }
            CoreEvent::Finish {
                seat,
                verdict,
                writes,
            } => self.finish(plan, *seat, verdict, writes),
            CoreEvent::Stop { seat, cause } => self.stop(plan, *seat, *cause),
        }
    }

    /// Takes an event that is enabled, so that an ask isn't judged here. It answers `Memory` where `step` may.
    pub fn take(&mut self, alloc: Global, plan: &Plan, event: &CoreEvent) -> Result<(), CoreFault>
        requires core { IsCore plan.now self.old }
        requires enabled { IsEnabled plan.now (state_of self.old) event.now }
        ensures { Answers plan.now self.old event.now result self.new }
    {
        if let CoreEvent::Ask { seat, text, answer } = event {
            self.note_ask(alloc, plan);
            return self.take_ask(plan, *seat, text, *answer);
        }
        self.step(alloc, plan, event, None)
    }

    /// Counts one more ask of a command.
    fn note_ask(&mut self, alloc: Global, plan: &Plan)
        ensures core { IsCore plan.now self.old → IsCore plan.now self.new }
        ensures rest { self.new ≡ record self.old { generated = self.new.generated } }
    {
        self.generated.note_ask(alloc, plan.rules.as_slice());
    }

    fn claim(&mut self, alloc: Global, plan: &Plan, seat: u32, rule: u32) -> Result<(), CoreFault>
        requires { IsCore plan.now self.old }
        ensures { Answers plan.now self.old (CoreEvent.Claim seat rule) result self.new }
    {
        if !self.is_free(seat) || !self.ready(plan, rule) {
            return Err(CoreFault::NotEnabled);
        }
        self.claimed[rule as usize] = true;
        self.seats[seat as usize] = Some(Running::new(alloc, rule));
        Ok(())
    }

    /// Whether there is such a seat, and it runs nothing.
    fn is_free(&self, seat: u32) -> bool
        ensures { IsTrue result ↔ (slice_get self.now.seats.items seat ≡ Some None) }
    {
        matches!(self.seats.get(seat as usize), Some(None))
    }

    fn ask(
        &mut self,
        alloc: Global,
        plan: &Plan,
        seat: u32,
        text: &Text,
        answer: Option<Stamp>,
        seen: Option<Stamp>,
    ) -> Result<(), CoreFault>
        requires core { IsCore plan.now self.old }
        requires seen { IsSeenFor plan.now self.old (CoreEvent.Ask seat text.now answer) seen }
        ensures { Answers plan.now self.old (CoreEvent.Ask seat text.now answer) result self.new }
    {
        if !self.may_ask(alloc, plan, seat, text, answer, seen)? {
            return Err(CoreFault::NotEnabled);
        }
        self.take_ask(plan, seat, text, answer)
    }

    /// A seat's command asks for a text, as it may, and is told this.
    fn take_ask(
        &mut self,
        plan: &Plan,
        seat: u32,
        text: &Text,
        answer: Option<Stamp>,
    ) -> Result<(), CoreFault>
        requires core { IsCore plan.now self.old }
        requires may { CanAsk plan.now (state_of self.old) seat text.now answer }
        ensures { Answers plan.now self.old (CoreEvent.Ask seat text.now answer) result self.new }
    {
        ask_at(&mut self.seats, seat as usize, text, answer)?;
        Ok(())
    }

    fn deny(
        &mut self,
        alloc: Global,
        plan: &Plan,
        seat: u32,
        text: &Text,
        verdict: &Verdict,
    ) -> Result<(), CoreFault>
        requires { IsCore plan.now self.old }
        ensures { Answers plan.now self.old (CoreEvent.Deny seat text.now verdict.now)
            result self.new }
    {
        if !self.may_deny(alloc, plan, seat, text, verdict)? {
            return Err(CoreFault::NotEnabled);
        }
        deny_at(&mut self.seats, seat as usize, text, verdict)?;
        Ok(())
    }

    /// Whether a seat's command may ask for a text, and is told this.
    fn may_ask(
        &self,
        alloc: Global,
        plan: &Plan,
        seat: u32,
        text: &Text,
        answer: Option<Stamp>,
        seen: Option<Stamp>,
    ) -> Result<bool, CoreFault>
        requires core { IsCore plan.now self.now }
        requires seen { IsSeenFor plan.now self.now (CoreEvent.Ask seat text.now answer) seen }
        ensures ok { IfOk result (λ may. IsTrue may
            ↔ CanAsk plan.now (state_of self.now) seat text.now answer) }
        ensures memory { IfErr result (λ fault. fault ≡ CoreFault.Memory) }
        ensures asks { OnErr result (IsUnrefused (entry self.now.seats.items seat)) }
    {
        let Some(running) = self.asking(seat) else {
            return Ok(false);
        };
        let rule = &plan.rules.as_slice()[running.rule as usize];
        match self.access(alloc, plan, rule, running, text)? {
            Access::Yes(path) => Ok(same_answer(&self.told(rule, &path, seen), &answer)),
            Access::No(_) => Ok(false),
        }
    }

    /// Whether a seat's command may not ask for a text, and this becomes of it.
    fn may_deny(
        &self,
        alloc: Global,
        plan: &Plan,
        seat: u32,
        text: &Text,
        verdict: &Verdict,
    ) -> Result<bool, CoreFault>
        requires { IsCore plan.now self.now }
        ensures ok { IfOk result (λ may. IsTrue may
            ↔ CanDeny plan.now (state_of self.now) seat text.now verdict.now) }
        ensures memory { IfErr result (λ fault. fault ≡ CoreFault.Memory) }
        ensures asks { OnErr result (IsUnrefused (entry self.now.seats.items seat)) }
    {
        let Some(running) = self.asking(seat) else {
            return Ok(false);
        };
        let rule = &plan.rules.as_slice()[running.rule as usize];
        match self.access(alloc, plan, rule, running, text)? {
            Access::Yes(_) => Ok(false),
            Access::No(given) => Ok(same_verdict(&given, verdict)),
        }
    }

    /// What a seat runs, if its command may still ask.
    fn asking(&self, seat: u32) -> Option<&Running>
        ensures { MatchOption result ((running : RunningValue)
            → slice_get self.now.seats.items seat ≡ Some (Some running) → running.denied ≡ None → ⊥)
            (λ running. (slice_get self.now.seats.items seat ≡ Some (Some running.now))
            × (running.now.denied ≡ None)) }
    {
        match self.seats.get(seat as usize) {
            Some(Some(running)) if running.denied.is_none() => Some(running),
            _ => None,
        }
    }

    /// What becomes of one more ask of a rule's command.
    fn access(
        &self,
        alloc: Global,
        plan: &Plan,
        rule: &Rule,
        running: &Running,
        text: &Text,
    ) -> Result<Access, CoreFault>
        ensures ok { AreOutputs plan.now.rules self.now.generated
            → ((inputs : InputsValue)
            → slice_get self.now.inputs.items running.now.rule ≡ Some inputs
            → AreInputs rule.now inputs)
            → IfOk result (λ given. given
            ≡ access_of plan.now.rules rule.now (length running.now.asks) text.now) }
        ensures memory { IfErr result (λ fault. fault ≡ CoreFault.Memory) }
    {
        match self.inputs.get(running.rule as usize) {
            Some(inputs) => self.access_by(alloc, plan, rule, inputs, running, text),
            None => self.access_by(alloc, plan, rule, &Inputs::few(), running, text),
        }
    }

    /// The same, where `inputs` is what the rule declares.
    fn access_by(
        &self,
        alloc: Global,
        plan: &Plan,
        rule: &Rule,
        inputs: &Inputs,
        running: &Running,
        text: &Text,
    ) -> Result<Access, CoreFault>
        ensures ok { AreOutputs plan.now.rules self.now.generated
            → AreInputs rule.now inputs.now → IfOk result (λ given. given
            ≡ access_of plan.now.rules rule.now (length running.now.asks) text.now) }
        ensures memory { IfErr result (λ fault. fault ≡ CoreFault.Memory) }
    {
        // whoever asked as often may ask no more
        let asked = running.asks.len().min(MAX_ASKS as usize) as u32;
        let rules = plan.rules.as_slice();
        let made = &self.generated;
        Ok(made.access(alloc, rules, rule, inputs, text, asked)?)
    }

    /// What a rule's command is answered for a path that had this stamp at the opening.
    fn told(&self, rule: &Rule, path: &Path, seen: Option<Stamp>) -> Option<Stamp>
        requires { writes rule.now path.now ≡ false → IsSeenAt self.now.files path.now seen }
        ensures { result ≡ specs.told rule.now (state_of self.now) path.now }
    {
        if rule.writes(path) {
            return None;
        }
        self.files.get(path, seen)
    }

    fn finish(
        &mut self,
        plan: &Plan,
        seat: u32,
        verdict: &Verdict,
        writes: &Stamps,
    ) -> Result<(), CoreFault>
        requires { IsCore plan.now self.old }
        ensures { Answers plan.now self.old (CoreEvent.Finish seat verdict.now writes.now)
            result self.new }
    {
        let Some(at) = self.ending(plan, seat, verdict, writes) else {
            return Err(CoreFault::NotEnabled);
        };
        match verdict {
            Verdict::Good => {
                self.finish_well(plan, seat, at, writes);
                Ok(())
            }
            _ => self.finish_badly(plan, seat, at, verdict, writes),
        }
    }

    /// A seat's command, which may, ends Good.
    fn finish_well(&mut self, plan: &Plan, seat: u32, at: usize, writes: &Stamps)
        requires core { IsCore plan.now self.old }
        requires ends { MayEnd plan.now self.old seat Verdict.Good writes.now at }
        ensures { Takes plan.now self.old (CoreEvent.Finish seat Verdict.Good writes.now) self.new }
    {
        self.seats[seat as usize] = None;
        self.complete(at);
        self.files.set_all(writes.as_slice());
    }

    /// A seat's command, which may, ends badly.
    fn finish_badly(
        &mut self,
        plan: &Plan,
        seat: u32,
        at: usize,
        verdict: &Verdict,
        writes: &Stamps,
    ) -> Result<(), CoreFault>
        requires core { IsCore plan.now self.old }
        requires bad { verdict.now ≢ Verdict.Good }
        requires ends { MayEnd plan.now self.old seat verdict.now writes.now at }
        ensures { Answers plan.now self.old (CoreEvent.Finish seat verdict.now writes.now)
            result self.new }
    {
        self.bad[at] = ended_badly(&mut self.seats, seat as usize, verdict)?;
        if plan.keep_going {
            return Ok(());
        }
        self.stop_by(Cause::Bad);
        Ok(())
    }

    /// The place of the rule that a seat runs, if its command may end so.
    fn ending(&self, plan: &Plan, seat: u32, verdict: &Verdict, writes: &Stamps) -> Option<usize>
        requires { IsCore plan.now self.now }
        ensures { MatchOption result
            (¬ CanFinish plan.now (state_of self.now) seat verdict.now writes.now)
            (MayEnd plan.now self.now seat verdict.now writes.now) }
    {
        let Some(Some(running)) = self.seats.get(seat as usize) else {
            return None;
        };
        let rule = &plan.rules.as_slice()[running.rule as usize];
        if may_end(rule, &running.denied, verdict, writes.as_slice()) {
            Some(running.rule as usize)
        } else {
            None
        }
    }

    /// The rule at a place is pending no longer.
    fn complete(&mut self, at: usize)
        requires here { at < length self.old.pending.items }
        requires waiting { flag self.old.pending.items at ≡ true → CanRelease at self.old.waiting }
        ensures { Completes at self.old self.new }
    {
        if !self.pending[at] {
            return;
        }
        self.pending[at] = false;
        self.waiting.release(at);
    }

    fn stop(&mut self, plan: &Plan, seat: u32, cause: Cause) -> Result<(), CoreFault>
        requires { IsCore plan.now self.old }
        ensures { Answers plan.now self.old (CoreEvent.Stop seat cause) result self.new }
    {
        if seat as usize >= SEATS || is_bad(cause) {
            return Err(CoreFault::NotEnabled);
        }
        self.seats[seat as usize] = None;
        self.stop_by(cause);
        Ok(())
    }

    /// The first cause of a stop stays.
    fn stop_by(&mut self, cause: Cause)
        ensures { self.new ≡ record self.old { stopped = Some (unwrap_or self.old.stopped cause) } }
    {
        self.stopped = Some(self.stopped.unwrap_or(cause));
    }
}
