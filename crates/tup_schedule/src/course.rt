//! What happened on a board, and the core at the end of it.
ghost use Rattle.std.specs.Prelude.{◌≡◌, ◌<◌, ◌∷◌, [], None, Some, Ok, IfOk, OnOk, OnErr, IsTrue, IsSome, ◌↔◌, ◌≢◌, ◌≤◌, ◌^◌, ℕ, length, replicate, slice_set};
ghost use Rattle.std.specs.FinMap as finite;
ghost use Rattle.std.specs.Option.{option_copied};
ghost use Rattle.tup_access.specs.Access.{access as access_of};
ghost use Rattle.tup_access.specs.declared.verdict.Verdict.TheVariants.{Good};
ghost use Rattle.tup_core.specs.Run.{IsRun};
ghost use Rattle.tup_core.specs.Sound.{HasNear, IsInRange};
ghost use Rattle.tup_core.specs.Step.{IsEnabled};
ghost use Rattle.tup_core.specs.declared.event.CoreEvent.TheVariants.{Claim, Ask, Deny, Finish, Stop};
ghost use Rattle.tup_core.specs.Machine.{entry};
ghost use Rattle.tup_schedule.specs.Room.{to_come};

use crate::claimed::Claimed;
use crate::taking::{opened, take, try_take};
use crate::turn::Turn;
use std::alloc::{AllocError, Global};
use std::marker::Model;
use std::mem;
use std::snapshot::Snapshot;
use tup_access::{Access, Verdict};
use tup_core::{Cause, Core, CoreEvent, Plan, Running};
use tup_path::{ByPath, Items, Path, Text};
use tup_stamp::Stamp;

/// How many seats there are.
const SEATS: usize = 16;

/// Events, in their order.
pub type Events = Items<CoreEvent>;

/// The core of a plan, and all that happened to it since its opening.
#[derive(Drop)]
pub struct Course {
    alloc: Global,
    core: Core,
    turn: Turn,
    /// It has room for a claim and an end of each rule that wasn't claimed, for an end at each seat that runs one, and for
    /// a stop: those take no memory.
    history: Vec<CoreEvent>,
    /// For each seat whose command was denied an ask, how it ends.
    ends: Vec<Option<CoreEvent>>,
    plan: Snapshot<Plan>,
    files: Snapshot<ByPath<Stamp>>,
}

impl Model for Course {
    ghost use Rattle.std.specs.Prelude.{vec_capacity};
    ghost use Rattle.std.specs.FinMap as finite;
    ghost use Rattle.tup_schedule.specs.Course.{CourseState, IsCourse, course_code};

    ghost Value = { CourseState };

    ghost coded = { course_code };

    ghost view = { λ c. record {
      plan = c.plan.value;
      files = finite.entries c.files.value;
      history = c.history.items;
    } };

    ghost invariant = { λ c. IsCourse (record {
      plan = c.plan.value;
      files = finite.entries c.files.value;
      history = c.history.items;
    })
        c.core c.turn c.ends.items (vec_capacity c.history) };
}

impl Course {
    ghost use Rattle.tup_schedule.specs.Course.{first, now, with_events, NoneReady, Claims, IsStopped, Stops, RunsRule, GoesOn, WasDenied, EndsDenied, EndsWithFinish, IsLastVerdict, IsGoodEnd, KeepsBeside};

    /// The opening of a plan over files with these stamps. None of them is copied: they stay with the caller.
    pub fn new(alloc: Global, plan: &Plan, files: &ByPath<Stamp>) -> Result<Course, AllocError>
        requires range { IsInRange plan.now }
        requires near { HasNear plan.now }
        ensures { IfOk result (λ course. course
            ≡ record { plan = plan.now; files = finite.entries files.now; history = [] }) }
    {
        let core = opened(alloc, plan, files)?;
        let turn = Turn::new(alloc, plan, &core)?;
        Ok(Course {
            alloc,
            core,
            turn,
            history: Vec::with_capacity(alloc, 2 * plan.reach.as_slice().len() + 1)?,
            ends: no_ends(alloc)?,
            plan: Snapshot::of(plan),
            files: Snapshot::of(files),
        })
    }

    /// All that happened, in its order: a run of the core.
    pub fn history(&self) -> &[CoreEvent]
        ensures events { result.now ≡ self.now.history }
        ensures run { IsRun self.now.plan (first self.now) result.now }
    {
        &self.history
    }

    /// The same, to keep. The core is given up: the program ends with its update, and that the core's memory is freed
    /// piece by piece then helps nobody.
    pub fn into_history(self) -> Events
        ensures events { result ≡ self.history }
        ensures run { IsRun self.plan (first self) result }
    {
        mem::forget(self.core);
        Items::from_vec(self.history)
    }

    /// What a seat runs.
    pub fn running(&self, seat: u32) -> Option<&Running>
        ensures { option_copied result ≡ (now self.now).seats seat }
    {
        self.core.running(seat)
    }

    /// The stamp of the file at a path that had this one at the opening, if there is one.
    pub fn file(&self, path: &Path, seen: Option<Stamp>) -> Option<Stamp>
        requires { seen ≡ (first self.now).files path.now }
        ensures { result ≡ (now self.now).files path.now }
    {
        self.core.file(path, seen)
    }

    /// Why the first stop came, if one did.
    pub fn stopped(&self) -> Option<Cause>
        ensures { result ≡ (now self.now).stopped }
    {
        self.core.stopped()
    }

    /// Whether a verdict was bad.
    pub fn has_bad(&self) -> bool
        ensures { IsTrue result ↔ ((number : ℕ) × IsSome ((now self.now).bad number)) }
    {
        self.core.has_bad()
    }

    /// Whether the command that a seat runs may ask for a text.
    pub fn access(
        &self,
        alloc: Global,
        plan: &Plan,
        seat: u32,
        text: &Text,
    ) -> Result<Access, AllocError>
        requires plan { plan.now ≡ self.now.plan }
        requires seat { RunsRule self.now seat }
        ensures { IfOk result (λ given. (it : RunsRule self.now seat)
            → given ≡ access_of plan.now.rules it.rule (length it.running.asks) text.now) }
    {
        match self.core.running(seat) {
            Some(running) => self.core.allows(alloc, plan, running, text),
            None => unreachable!(),
        }
    }

    /// Gives a seat that runs nothing the first rule that is ready.
    pub fn claim(&mut self, plan: &Plan, seat: u32) -> Claimed
        requires plan { plan.now ≡ self.old.plan }
        requires seat { seat < 16 }
        requires free { (now self.old).seats seat ≡ None }
        ensures { Claims seat self.old result self.new }
    {
        match self.turn.first_ready(plan, &self.core) {
            Some(rule) => {
                self.give(plan, seat, rule);
                Claimed::Rule(rule)
            }
            None => self.waits(),
        }
    }

    /// Gives a seat that runs nothing a rule that may be claimed.
    fn give(&mut self, plan: &Plan, seat: u32, rule: u32)
        requires plan { plan.now ≡ self.old.plan }
        requires enabled { IsEnabled plan.now (now self.old) (Claim seat rule) }
        ensures { self.new ≡ with_events self.old (Claim seat rule ∷ []) }
    {
        take(
            self.alloc,
            &mut self.core,
            &mut self.history,
            plan,
            CoreEvent::Claim { seat, rule },
        );
        self.turn.claim(plan, rule);
    }

    /// What a claim answers where no rule is ready.
    fn waits(&self) -> Claimed
        requires { NoneReady self.now }
        ensures { (seat : ℕ) → Claims seat self.now result self.now }
    {
        if self.core.stopped().is_some() {
            return Claimed::Over;
        }
        if self.core.is_idle() {
            return Claimed::Over;
        }
        Claimed::Wait
    }

    /// Stops at a seat, which then runs nothing, unless it runs nothing already and all is stopped.
    pub fn stop(&mut self, plan: &Plan, seat: u32, cause: Cause)
        requires plan { plan.now ≡ self.old.plan }
        requires seat { seat < 16 }
        requires cause { cause ≢ Cause.Bad }
        ensures { Stops seat cause self.old self.new }
    {
        if self.is_stopped_at(seat) {
            return;
        }
        self.end_by(plan, seat, cause);
    }

    /// Whether all is stopped and a seat runs nothing.
    fn is_stopped_at(&self, seat: u32) -> bool
        ensures { IsTrue result ↔ IsStopped self.now seat }
    {
        if self.core.running(seat).is_some() {
            return false;
        }
        self.core.stopped().is_some()
    }

    /// Stops at a seat that runs a rule, or where nothing is stopped.
    pub fn end_by(&mut self, plan: &Plan, seat: u32, cause: Cause)
        requires plan { plan.now ≡ self.old.plan }
        requires seat { seat < 16 }
        requires cause { cause ≢ Cause.Bad }
        requires one { ((now self.old).seats seat ≡ None) → (now self.old).stopped ≡ None }
        ensures { self.new ≡ with_events self.old (Stop seat cause ∷ []) }
    {
        self.ends[seat as usize] = None;
        take(
            self.alloc,
            &mut self.core,
            &mut self.history,
            plan,
            CoreEvent::Stop { seat, cause },
        );
    }

    /// Ends the command of a seat whose last ask was denied, with the verdict that this was.
    pub fn finish_denied(&mut self, plan: &Plan, seat: u32)
        requires plan { plan.now ≡ self.old.plan }
        requires seat { WasDenied self.old seat }
        ensures { EndsDenied seat self.old self.new }
    {
        match taken_end(&mut self.ends, seat as usize) {
            Some(end) => take(self.alloc, &mut self.core, &mut self.history, plan, end),
            None => unreachable!(),
        }
    }

    /// The verdict of the end that happened last.
    pub fn last_verdict(&self) -> &Verdict
        requires { EndsWithFinish self.now }
        ensures { IsLastVerdict self.now result.now }
    {
        match self.history.last() {
            Some(CoreEvent::Finish { verdict, .. }) => verdict,
            _ => unreachable!(),
        }
    }

    /// Takes an end of the command of a seat, which runs this rule, that is Good.
    pub fn finish_well(&mut self, plan: &Plan, rule: u32, end: CoreEvent)
        requires plan { plan.now ≡ self.old.plan }
        requires end { IsGoodEnd self.old rule end }
        ensures { self.new ≡ with_events self.old (end ∷ []) }
    {
        take(self.alloc, &mut self.core, &mut self.history, plan, end);
        self.turn.free(plan, &self.core, rule);
    }

    /// A seat's command asks for a text, and is answered so. After a refusal nothing has changed.
    pub fn ask(
        &mut self,
        alloc: Global,
        plan: &Plan,
        seat: u32,
        text: &Text,
        answer: Option<Stamp>,
    ) -> Result<(), AllocError>
        requires plan { plan.now ≡ self.old.plan }
        requires enabled { IsEnabled plan.now (now self.old) (Ask seat text.now answer) }
        ensures ok { OnOk result
            (self.new ≡ with_events self.old (Ask seat text.now answer ∷ [])) }
        ensures err { OnErr result (self.new ≡ self.old) }
    {
        let text = text.clone()?;
        self.try_take(alloc, plan, CoreEvent::Ask { seat, text, answer })
    }

    /// A seat's command is denied a text; how it ends is made ready. After a refusal nothing has changed.
    pub fn deny(
        &mut self,
        alloc: Global,
        plan: &Plan,
        seat: u32,
        text: &Text,
        verdict: &Verdict,
    ) -> Result<(), AllocError>
        requires plan { plan.now ≡ self.old.plan }
        requires enabled { IsEnabled plan.now (now self.old) (Deny seat text.now verdict.now) }
        ensures ok { OnOk result
            (self.new ≡ with_events self.old (Deny seat text.now verdict.now ∷ [])) }
        ensures err { OnErr result (self.new ≡ self.old) }
    {
        let end = bad_end(alloc, seat, verdict)?;
        let event = denial(seat, text, verdict)?;
        try_take(
            alloc,
            &mut self.core,
            &mut self.history,
            plan,
            event,
            most_to_come(plan),
        )?;
        self.ends[seat as usize] = Some(end);
        Ok(())
    }

    /// Ends the command of a seat badly. After a refusal nothing has changed.
    pub fn finish_badly(
        &mut self,
        alloc: Global,
        plan: &Plan,
        seat: u32,
        verdict: &Verdict,
    ) -> Result<(), AllocError>
        requires plan { plan.now ≡ self.old.plan }
        requires goes_on { GoesOn self.old seat }
        requires bad { verdict.now ≢ Good }
        requires enabled { IsEnabled plan.now (now self.old) (Finish seat verdict.now []) }
        ensures ok { OnOk result
            (self.new ≡ with_events self.old (Finish seat verdict.now [] ∷ [])) }
        ensures err { OnErr result (self.new ≡ self.old) }
    {
        let event = bad_end(alloc, seat, verdict)?;
        self.try_take(alloc, plan, event)
    }

    /// Takes an event that leaves whose turn it is and how commands are to end. After a refusal nothing has changed.
    fn try_take(&mut self, alloc: Global, plan: &Plan, event: CoreEvent) -> Result<(), AllocError>
        requires plan { plan.now ≡ self.old.plan }
        requires enabled { IsEnabled plan.now (now self.old) event }
        requires beside { KeepsBeside self.old event }
        ensures ok { OnOk result (self.new ≡ with_events self.old (event ∷ [])) }
        ensures err { OnErr result (self.new ≡ self.old) }
    {
        try_take(
            alloc,
            &mut self.core,
            &mut self.history,
            plan,
            event,
            most_to_come(plan),
        )
    }
}

/// For how many events there has to be room whatever comes.
fn most_to_come(plan: &Plan) -> usize
    ensures many { (state : _) → to_come plan.now state ≤ result }
    ensures few { result < 2 ^ 63 }
{
    2 * plan.reach.as_slice().len() + SEATS + 1
}

/// Takes the end that is ready at a seat.
fn taken_end(ends: &mut [Option<CoreEvent>], seat: usize) -> Option<CoreEvent>
    requires { seat < length ends.old }
    ensures end { result ≡ entry ends.old seat }
    ensures left { ends.new ≡ slice_set ends.old seat None }
{
    ends[seat].take()
}

/// No end is ready at any seat.
fn no_ends(alloc: Global) -> Result<Vec<Option<CoreEvent>>, AllocError>
    ensures { IfOk result (λ ends. ends.items ≡ replicate 16 None) }
{
    let mut ends = Vec::new(alloc);
    for _ in 0..SEATS {
        ends.push(None)?;
    }
    Ok(ends)
}

/// The event that a text is denied.
fn denial(seat: u32, text: &Text, verdict: &Verdict) -> Result<CoreEvent, AllocError>
    ensures { IfOk result (λ event. event ≡ Deny seat text.now verdict.now) }
{
    Ok(CoreEvent::Deny {
        seat,
        text: text.clone()?,
        verdict: verdict.clone()?,
    })
}

/// The event that a command ends with a verdict that isn't Good.
fn bad_end(alloc: Global, seat: u32, verdict: &Verdict) -> Result<CoreEvent, AllocError>
    ensures { IfOk result (λ event. event ≡ Finish seat verdict.now []) }
{
    Ok(CoreEvent::Finish {
        seat,
        verdict: verdict.clone()?,
        writes: Items::new(alloc),
    })
}
