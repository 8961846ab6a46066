//! What a board does for the command that a seat runs.
ghost use Rattle.std.specs.Prelude.{◌≡◌, ◌++◌, ◌↔◌, length, true, IsTrue};
ghost use Rattle.std.specs.FinMap as finite;
ghost use Rattle.std.specs.Option.{option_map};
ghost use Rattle.tup_stamp.specs.Stamp.{stamp as stamp_of_content};
ghost use Rattle.tup_access.specs.Access.{access};
ghost use Rattle.tup_core.specs.Step.{IsEnabled};
ghost use Rattle.tup_core.specs.declared.event.CoreEvent.TheVariants.{Deny};
ghost use Rattle.tup_schedule.specs.Course.{GoesOn, RunsRule};
ghost use Rattle.tup_board.specs.Board.{course_of, plan_of, state, with_history};
ghost use Rattle.tup_board.specs.Calls.{Asks, AsksFor, AsksForOwn, told_of};
ghost use Rattle.tup_board.specs.Cause.{stops_by};
ghost use Rattle.tup_board.specs.Seat.{is_granted};
ghost use Rattle.tup_board.specs.Sound.{IsTrueFault};

use crate::answers::Asked;
use crate::board::Board;
use std::alloc::Global;
use tup_access::{Access, Verdict};
use tup_core::{Cause, Plan};
use tup_path::{Bytes, Path, Text};
use tup_rule::Rule;
use tup_rule_outputs::{BoardFault, Reads};
use tup_runner::{Runner, Stamped};
use tup_schedule::Course;
use tup_site::Site;
use tup_stamp::{Stamp, stamp_of};

/// What a board does for the command that a seat runs.
///
/// It is a trait, as `Reads` of the site is, since the view of a seat calls it.
pub(crate) trait Desk {
    ghost use Rattle.tup_board.specs.Board.{BoardState};

    type Site: Site;

    type Runner: Runner;

    /// The board.
    ghost board: { Self → BoardState Self.Site };

    /// Answers what the command of a seat asks for.
    fn reply(
        &mut self,
        alloc: Global,
        plan: &Plan,
        seat: u32,
        text: &Text,
    ) -> Result<Asked, BoardFault>
        requires plan { plan.now ≡ plan_of (board self.old) }
        requires runs { is_granted ((state (board self.old)).seats seat) ≡ true }
        ensures asks { Asks Self.Site.Site seat text.now
            (board self.old) result (board self.new) };

    /// Denies a text.
    fn deny(
        &mut self,
        alloc: Global,
        plan: &Plan,
        seat: u32,
        text: &Text,
        verdict: Verdict,
    ) -> Result<Asked, BoardFault>
        requires plan { plan.now ≡ plan_of (board self.old) }
        requires denied { IsEnabled plan.now (state (board self.old))
            (Deny seat text.now verdict) }
        ensures asks { Asks Self.Site.Site seat text.now
            (board self.old) result (board self.new) };

    /// Answers for a path: an own output is absent, whatever stands there.
    fn answer(
        &mut self,
        alloc: Global,
        plan: &Plan,
        seat: u32,
        text: &Text,
        path: &Path,
    ) -> Result<Asked, BoardFault>
        requires plan { plan.now ≡ plan_of (board self.old) }
        requires runs { GoesOn (course_of (board self.old)) seat }
        requires may { (it : RunsRule (course_of (board self.old)) seat)
            → access plan.now.rules it.rule (length it.running.asks) text.now
            ≡ Access.Yes path.now }
        ensures asks { Asks Self.Site.Site seat text.now
            (board self.old) result (board self.new) };

    /// Answers that an own output is absent.
    fn answer_own(
        &mut self,
        alloc: Global,
        plan: &Plan,
        seat: u32,
        text: &Text,
    ) -> Result<Asked, BoardFault>
        requires plan { plan.now ≡ plan_of (board self.old) }
        requires runs { GoesOn (course_of (board self.old)) seat }
        requires own { AsksForOwn (board self.old) seat text.now }
        ensures asks { Asks Self.Site.Site seat text.now
            (board self.old) result (board self.new) };

    /// Answers for a path that is no own output. A content that is kept isn't read again. The graph has seen the core's
    /// files; where its nodes may be gone, nothing is told.
    fn answer_other(
        &mut self,
        alloc: Global,
        plan: &Plan,
        seat: u32,
        text: &Text,
        path: &Path,
    ) -> Result<Asked, BoardFault>
        requires plan { plan.now ≡ plan_of (board self.old) }
        requires runs { GoesOn (course_of (board self.old)) seat }
        requires asks_for { AsksFor (board self.old) seat text.now path.now }
        ensures asks { Asks Self.Site.Site seat text.now
            (board self.old) result (board self.new) };

    /// Reads what stands at a path, of which the core's files have this stamp, and answers it.
    fn read(
        &mut self,
        alloc: Global,
        plan: &Plan,
        seat: u32,
        text: &Text,
        path: &Path,
        seen: Option<Stamp>,
    ) -> Result<Asked, BoardFault>
        requires plan { plan.now ≡ plan_of (board self.old) }
        requires runs { GoesOn (course_of (board self.old)) seat }
        requires asks_for { AsksFor (board self.old) seat text.now path.now }
        requires seen { seen ≡ (state (board self.old)).files path.now }
        ensures asks { Asks Self.Site.Site seat text.now
            (board self.old) result (board self.new) };

    /// Tells what was read at a path, and keeps it. It is what the core's files have there, unless somebody else changed
    /// it: that may be so over a site that doesn't tell its tree, and then it isn't told.
    fn tell_read(
        &mut self,
        alloc: Global,
        plan: &Plan,
        seat: u32,
        text: &Text,
        path: &Path,
        seen: Option<Stamp>,
        found: Option<Bytes>,
    ) -> Result<Asked, BoardFault>
        requires plan { plan.now ≡ plan_of (board self.old) }
        requires runs { GoesOn (course_of (board self.old)) seat }
        requires asks_for { AsksFor (board self.old) seat text.now path.now }
        requires seen { seen ≡ (state (board self.old)).files path.now }
        requires found { IsTrue Self.Site.Site.tells
            → found ≡ finite.get (Self.Site.Site.world (board self.old).site).tree path.now }
        ensures asks { Asks Self.Site.Site seat text.now
            (board self.old) result (board self.new) };

    /// Tells what stands at a path, or that nothing does. It has this stamp, as the core's files have it there.
    fn tell(
        &mut self,
        alloc: Global,
        plan: &Plan,
        seat: u32,
        text: &Text,
        path: &Path,
        found: Option<Bytes>,
        stamp: Option<Stamp>,
    ) -> Result<Asked, BoardFault>
        requires plan { plan.now ≡ plan_of (board self.old) }
        requires runs { GoesOn (course_of (board self.old)) seat }
        requires asks_for { AsksFor (board self.old) seat text.now path.now }
        requires stamp { stamp ≡ option_map stamp_of_content found }
        requires files { stamp ≡ (state (board self.old)).files path.now }
        requires found { IsTrue Self.Site.Site.tells
            → found ≡ finite.get (Self.Site.Site.world (board self.old).site).tree path.now }
        ensures asks { Asks Self.Site.Site seat text.now
            (board self.old) result (board self.new) };

    /// Stops at a seat that runs a rule for a refusal, if it isn't one for want of memory, and gives it back.
    fn fail(&mut self, plan: &Plan, seat: u32, fault: BoardFault) -> BoardFault
        requires plan { plan.now ≡ plan_of (board self.old) }
        requires runs { RunsRule (course_of (board self.old)) seat }
        requires true_cause { IsTrueFault Self.Site.Site Self.Runner.Runner
            (board self.old) seat fault }
        ensures same { result ≡ fault }
        ensures adds { board self.new ≡ with_history (board self.old)
            ((board self.old).history ++ stops_by seat fault) };
}

impl<S: Site, R: Runner> Desk for Board<S, R> {
    type Site = S;

    type Runner = R;

    ghost board = { λ board. board };

    fn reply(
        &mut self,
        alloc: Global,
        plan: &Plan,
        seat: u32,
        text: &Text,
    ) -> Result<Asked, BoardFault> {
        match self.access(alloc, plan, seat, text)? {
            Access::Yes(path) => self.answer(alloc, plan, seat, text, &path),
            Access::No(verdict) => self.deny(alloc, plan, seat, text, verdict),
        }
    }

    fn deny(
        &mut self,
        alloc: Global,
        plan: &Plan,
        seat: u32,
        text: &Text,
        verdict: Verdict,
    ) -> Result<Asked, BoardFault> {
        self.course.deny(alloc, plan, seat, text, &verdict)?;
        Ok(Asked::Denied(verdict))
    }

    fn answer(
        &mut self,
        alloc: Global,
        plan: &Plan,
        seat: u32,
        text: &Text,
        path: &Path,
    ) -> Result<Asked, BoardFault> {
        if rule_run(&self.course, plan, seat).writes(path) {
            return self.answer_own(alloc, plan, seat, text);
        }
        self.answer_other(alloc, plan, seat, text, path)
    }

    fn answer_own(
        &mut self,
        alloc: Global,
        plan: &Plan,
        seat: u32,
        text: &Text,
    ) -> Result<Asked, BoardFault> {
        self.course.ask(alloc, plan, seat, text, None)?;
        Ok(Asked::Absent)
    }

    fn answer_other(
        &mut self,
        alloc: Global,
        plan: &Plan,
        seat: u32,
        text: &Text,
        path: &Path,
    ) -> Result<Asked, BoardFault> {
        let stamp = self.ground.seen(path)?;
        match self.contents.copy(stamp)? {
            Some(content) => self.tell(alloc, plan, seat, text, path, Some(content), stamp),
            None => self.read(alloc, plan, seat, text, path, stamp),
        }
    }

    fn read(
        &mut self,
        alloc: Global,
        plan: &Plan,
        seat: u32,
        text: &Text,
        path: &Path,
        seen: Option<Stamp>,
    ) -> Result<Asked, BoardFault> {
        match self.ground.get(alloc, path) {
            Ok(found) => self.tell_read(alloc, plan, seat, text, path, seen, found),
            Err(fault) => Err(self.fail(plan, seat, fault)),
        }
    }

    fn tell_read(
        &mut self,
        alloc: Global,
        plan: &Plan,
        seat: u32,
        text: &Text,
        path: &Path,
        seen: Option<Stamp>,
        found: Option<Bytes>,
    ) -> Result<Asked, BoardFault> {
        let stamp = stamp_at(&found);
        if !same_stamp(&stamp, &seen) {
            return Err(BoardFault::Memory);
        }
        self.contents.keep(stamp, &found);
        self.tell(alloc, plan, seat, text, path, found, stamp)
    }

    fn tell(
        &mut self,
        alloc: Global,
        plan: &Plan,
        seat: u32,
        text: &Text,
        path: &Path,
        found: Option<Bytes>,
        stamp: Option<Stamp>,
    ) -> Result<Asked, BoardFault> {
        self.course.ask(alloc, plan, seat, text, stamp)?;
        Ok(told(found, stamp))
    }

    fn fail(&mut self, plan: &Plan, seat: u32, fault: BoardFault) -> BoardFault {
        match fault {
            BoardFault::Site => self.course.end_by(plan, seat, Cause::Site),
            BoardFault::TooLarge(bytes) => {
                self.course.end_by(plan, seat, Cause::TooLarge(bytes));
            }
            BoardFault::Full => self.course.end_by(plan, seat, Cause::Full),
            BoardFault::Memory => {}
        }
        fault
    }
}

/// The rule that a seat runs.
pub(crate) fn rule_run<'p>(course: &Course, plan: &'p Plan, seat: u32) -> &'p Rule
    requires plan { plan.now ≡ course.now.plan }
    requires runs { RunsRule course.now seat }
    ensures { (it : RunsRule course.now seat) → result.now ≡ it.rule }
{
    match course.running(seat) {
        Some(running) => &plan.rules.as_slice()[running.rule as usize],
        None => unreachable!(),
    }
}

/// The stamp of what was found.
fn stamp_at(found: &Option<Bytes>) -> Option<Stamp>
    ensures { result ≡ option_map stamp_of_content found.now }
{
    match found {
        Some(content) => Some(stamp_of(content.as_slice())),
        None => None,
    }
}

/// Whether two stamps are the same, or both are absent.
fn same_stamp(one: &Option<Stamp>, other: &Option<Stamp>) -> bool
    ensures { IsTrue result ↔ (one.now ≡ other.now) }
{
    one == other
}

/// What a command is told of what was found. A content is told with its stamp.
fn told(found: Option<Bytes>, stamp: Option<Stamp>) -> Asked
    requires { stamp ≡ option_map stamp_of_content found }
    ensures { result ≡ told_of found }
{
    match (found, stamp) {
        (Some(content), Some(stamp)) => Asked::Content(Stamped::known(content, stamp)),
        (Some(_), None) => unreachable!(),
        (None, _) => Asked::Absent,
    }
}
