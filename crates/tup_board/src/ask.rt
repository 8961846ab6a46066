//! What a command is told.
ghost use Rattle.std.specs.Prelude.{◌≡◌, ◌↔◌, IsTrue, None};
ghost use Rattle.tup_path.specs.Name.{Names};
ghost use Rattle.tup_site.specs.Crash.{GoesOn as CrashGoesOn, NoStep};

use crate::answers::Asked;
use crate::board::Board;
use crate::desk::{Desk, rule_run};
use std::alloc::Global;
use tup_core::Plan;
use tup_path::Text;
use tup_rule::Rule;
use tup_rule_outputs::BoardFault;
use tup_runner::Runner;
use tup_site::Site;

impl<S: Site, R: Runner> Board<S, R> {
    ghost use Rattle.tup_board.specs.Board.{course_of, plan_of};
    ghost use Rattle.tup_schedule.specs.Course.{GoesOn, RunsRule, WasDenied};
    ghost use Rattle.tup_board.specs.Calls.{AsksFor, IsAsked, IsToldOf, HasAskedFor};
    ghost use Rattle.tup_rule_outputs.specs.Fault.{CountsFaults};

    /// Answers what the command of a seat asks for: the file's content, or that there is none; an output of its own rule is
    /// absent. `Denied` comes just where the command may not ask for it.
    ///
    /// A content that was answered before is kept, if there is room. It isn't read again where the core's files have its stamp.
    ///
    /// `Memory` leaves all as it was. It is answered too once memory was wanting for an earlier commit, and where the file
    /// isn't that of the core's files, which a site may do that doesn't tell its tree. After `Site` and `TooLarge` the seat
    /// runs nothing any more, and all is stopped.
    pub fn ask(
        &mut self,
        alloc: Global,
        plan: &Plan,
        seat: u32,
        text: &Text,
    ) -> Result<Asked, BoardFault>
        requires plan { plan.now ≡ plan_of self.old }
        requires runs { GoesOn (course_of self.old) seat }
        ensures asked { IsAsked seat text.now self.old result self.new }
        ensures told { IsTrue S.tells → (path : Names) → AsksFor self.old seat text.now path
            → IsToldOf (S.world self.old.site).tree path result }
        ensures for_it { HasAskedFor seat text.now self.old result }
        ensures same { IsTrue S.tells → S.world self.new.site ≡ S.world self.old.site }
        ensures crash { IsTrue S.tells
            → CrashGoesOn S.moment S.left_since self.old.site self.new.site NoStep }
        ensures known { IsTrue S.tells → S.known self.new.site ≡ S.known self.old.site }
        ensures cause { CountsFaults (S.faults self.old.site) (S.faults self.new.site) None result }
    {
        self.reply(alloc, plan, seat, text)
    }

    /// Whether a seat runs a rule whose command was denied nothing.
    pub fn goes_on(&self, seat: u32) -> bool
        ensures { IsTrue result ↔ GoesOn (course_of self.now) seat }
    {
        match self.course.running(seat) {
            Some(running) => running.denied.is_none(),
            None => false,
        }
    }

    /// Whether a seat runs a rule whose command was denied its last ask.
    pub fn was_denied(&self, seat: u32) -> bool
        ensures { IsTrue result ↔ WasDenied (course_of self.now) seat }
    {
        match self.course.running(seat) {
            Some(running) => running.denied.is_some(),
            None => false,
        }
    }

    /// The rule that a seat runs.
    pub fn rule_of<'p>(&self, plan: &'p Plan, seat: u32) -> &'p Rule
        requires plan { plan.now ≡ plan_of self.now }
        requires runs { RunsRule (course_of self.now) seat }
        ensures { (it : RunsRule (course_of self.now) seat) → result.now ≡ it.rule }
    {
        rule_run(&self.course, plan, seat)
    }
}
