//! A course with its plan and the files of its opening, whose seats are driven by hand.
ghost use Rattle.std.specs.Prelude.{◌≡◌, ◌<◌, ◌≢◌, ℕ, Some, IfOk, IsTrue, length, slice_get};
ghost use Rattle.std.specs.FinMap as finite;
ghost use Rattle.std.specs.Option.{option_copied};
ghost use Rattle.tup_rule.specs.declared.rule.Rule.{Rule as RuleValue};
ghost use Rattle.tup_core.specs.declared.running.Running.{Running as RunningValue};
ghost use Rattle.tup_core.specs.Sound.{HasNear, IsInRange};
ghost use Rattle.tup_core.specs.Step.{told};
ghost use Rattle.tup_schedule.specs.Course.{now, WasDenied, EndsWithFinish};
ghost use Rattle.tup_core_rows.specs.Desk.{IsFree, RunsPlanned, Goes, MayBeTold, MayBeDenied, names_in};

use std::alloc::{AllocError, Global};
use tup_access::{Access, Verdict};
use tup_core::{Cause, CoreEvent, Plan, Running, Stamps};
use tup_path::{ByPath, Items, Path, Text};
use tup_rows::RowFault;
use tup_schedule::{Claimed, Course};
use tup_stamp::Stamp;

/// How many seats there are.
const SEATS: u32 = 16;

/// What an ask is answered.
#[derive(Drop)]
pub(crate) enum Told {
    /// The path that was asked for, and the stamp of the file there, if there is one.
    File(Path, Option<Stamp>),
    Denied(Verdict),
    /// No command runs at the seat that may ask.
    Idle,
}

/// A course, the plan that it is told at each call, and the files at its opening.
#[derive(Drop)]
pub(crate) struct Desk {
    plan: Plan,
    files: ByPath<Stamp>,
    pub(crate) course: Course,
    ghost of_plan: { course.plan ≡ plan },
    ghost of_files: { course.files ≡ finite.entries files },
}

impl Desk {
    /// A course of a plan over files with these stamps.
    pub(crate) fn new(alloc: Global, plan: Plan, files: ByPath<Stamp>) -> Result<Desk, RowFault>
        requires range { IsInRange plan }
        requires near { HasNear plan }
    {
        match Course::new(alloc, &plan, &files) {
            Ok(course) => Ok(Desk {
                plan,
                files,
                course,
            }),
            Err(_) => Err(RowFault::Memory),
        }
    }

    /// Gives a seat that runs nothing the first rule that is ready.
    pub(crate) fn claim(&mut self, seat: u32) -> Option<Claimed> {
        if !self.is_free(seat) {
            return None;
        }
        Some(self.course.claim(&self.plan, seat))
    }

    /// Whether there is such a seat, and it runs nothing.
    fn is_free(&self, seat: u32) -> bool
        ensures { IsTrue result → IsFree self.now.course seat }
    {
        seat < SEATS && self.course.running(seat).is_none()
    }

    /// The number of the rule that a seat runs, unless an ask of its command was denied.
    pub(crate) fn going(&self, seat: u32) -> Option<u32>
        ensures { (number : ℕ) → result ≡ Some number → Goes self.now.course seat number }
    {
        let running = self.running_rule(seat)?;
        if seat >= SEATS || running.denied.is_some() {
            return None;
        }
        Some(running.rule)
    }

    /// Whether the last ask of a seat's command was denied.
    pub(crate) fn was_denied(&self, seat: u32) -> bool
        ensures { IsTrue result → WasDenied self.now.course seat }
    {
        match self.running_rule(seat) {
            Some(running) => seat < SEATS && running.denied.is_some(),
            None => false,
        }
    }

    /// What a seat runs, if it is a rule of the plan.
    fn running_rule(&self, seat: u32) -> Option<&Running>
        ensures { (running : RunningValue) → option_copied result ≡ Some running
            → RunsPlanned self.now.course seat running }
    {
        let running = self.course.running(seat)?;
        self.plan.rules.as_slice().get(running.rule as usize)?;
        Some(running)
    }

    /// A seat's command asks for a text.
    pub(crate) fn ask(
        &mut self,
        alloc: Global,
        seat: u32,
        text: &Text,
    ) -> Result<Told, AllocError> {
        match self.going(seat) {
            Some(number) => self.asks(alloc, seat, number, text),
            None => Ok(Told::Idle),
        }
    }

    /// The command at a seat, which runs this rule, asks for a text.
    fn asks(
        &mut self,
        alloc: Global,
        seat: u32,
        number: u32,
        text: &Text,
    ) -> Result<Told, AllocError>
        requires { Goes self.old.course seat number }
    {
        match self.course.access(alloc, &self.plan, seat, text)? {
            Access::Yes(path) => self.tell(alloc, seat, number, text, path),
            Access::No(verdict) => self.deny(alloc, seat, text, verdict),
        }
    }

    /// It is told what stands at a path.
    fn tell(
        &mut self,
        alloc: Global,
        seat: u32,
        number: u32,
        text: &Text,
        path: Path,
    ) -> Result<Told, AllocError>
        requires { MayBeTold self.old.course seat number text.now path }
    {
        let stamp = self.stamp_for(number, &path);
        self.course.ask(alloc, &self.plan, seat, text, stamp)?;
        Ok(Told::File(path, stamp))
    }

    /// What the command of a rule is told of a path.
    fn stamp_for(&self, number: u32, path: &Path) -> Option<Stamp>
        requires { number < length self.now.plan.rules }
        ensures { (rule : RuleValue) → slice_get self.now.plan.rules number ≡ Some rule
            → result ≡ told rule (now self.now.course) path.now }
    {
        if self.plan.rules.as_slice()[number as usize].writes(path) {
            return None;
        }
        self.file(path)
    }

    /// The stamp of the file at a path, if there is one.
    pub(crate) fn file(&self, path: &Path) -> Option<Stamp>
        ensures { result ≡ (now self.now.course).files path.now }
    {
        self.course.file(path, self.at_first(path))
    }

    /// The stamp of the file that was at a path at the opening, if there was one.
    fn at_first(&self, path: &Path) -> Option<Stamp>
        ensures { result ≡ finite.get self.now.files path.now }
    {
        self.files.get(path).copied()
    }

    /// It is denied.
    fn deny(
        &mut self,
        alloc: Global,
        seat: u32,
        text: &Text,
        verdict: Verdict,
    ) -> Result<Told, AllocError>
        requires { MayBeDenied self.old.course seat text.now verdict }
    {
        self.course.deny(alloc, &self.plan, seat, text, &verdict)?;
        Ok(Told::Denied(verdict))
    }

    /// The command at a seat, which runs this rule, ends Good; each of its outputs has this stamp.
    pub(crate) fn end_well(
        &mut self,
        alloc: Global,
        seat: u32,
        number: u32,
        stamp: Stamp,
    ) -> Result<(), AllocError>
        requires { Goes self.old.course seat number }
    {
        let outputs = self.plan.rules.as_slice()[number as usize]
            .outputs
            .as_slice();
        let end = good_end(seat, stamped(alloc, outputs, stamp)?);
        self.course.finish_well(&self.plan, number, end);
        Ok(())
    }

    /// The command at a seat ends with a status that isn't 0.
    pub(crate) fn fail(&mut self, alloc: Global, seat: u32, status: u8) -> Result<(), AllocError>
        requires goes { (number : ℕ) × Goes self.old.course seat number }
        requires status { status ≢ 0 }
    {
        self.course
            .finish_badly(alloc, &self.plan, seat, &Verdict::Failed(status))
    }

    /// A command that was denied an ask ends.
    pub(crate) fn end_denied(&mut self, seat: u32)
        requires { WasDenied self.old.course seat }
        ensures { EndsWithFinish self.new.course }
    {
        self.course.finish_denied(&self.plan, seat);
    }

    /// All stops at a seat, for a cause that isn't a bad verdict.
    pub(crate) fn stop(&mut self, seat: u32, cause: Cause)
        requires { cause ≢ Cause.Bad }
    {
        if seat < SEATS {
            self.course.stop(&self.plan, seat, cause);
        }
    }
}

/// The Good end of the command at a seat, with what it wrote.
fn good_end(seat: u32, writes: Stamps) -> CoreEvent
    ensures { result ≡ CoreEvent.Finish seat Verdict.Good writes }
{
    CoreEvent::Finish {
        seat,
        verdict: Verdict::Good,
        writes,
    }
}

/// Files at some paths, each with this stamp.
fn stamped(alloc: Global, paths: &[Path], stamp: Stamp) -> Result<Stamps, AllocError>
    ensures { IfOk result (λ files. names_in files ≡ paths.now) }
{
    let mut files = Items::new(alloc);
    for path in paths {
        files.push((path.clone()?, stamp))?;
    }
    Ok(files)
}
