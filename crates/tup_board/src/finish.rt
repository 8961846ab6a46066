//! The end of a command.
ghost use Rattle.std.specs.Prelude.{◌≡◌, ◌≢◌, IsTrue, IfOk, IfErr};
ghost use Rattle.tup_access.specs.declared.verdict.Verdict.TheVariants.{Good};
ghost use Rattle.tup_core.specs.declared.event.CoreEvent.TheVariants.{Finish};
ghost use Rattle.tup_site.specs.Known.{Keeps};

use crate::board::Board;
use crate::desk::Desk;
use crate::record::record_of;
use std::alloc::{AllocError, Global};
use tup_access::{Verdict, judge};
use tup_core::{CoreEvent, Plan, Stamps};
use tup_path::Files;
use tup_rule_outputs::{BoardFault, GoodEnd};
use tup_runner::{Report, Runner};
use tup_site::Site;

impl<S: Site, R: Runner> Board<S, R> {
    ghost use Rattle.tup_runner.specs.Report.{asks_of, ended_of};
    ghost use Rattle.tup_board.specs.Board.{course_of, plan_of};
    ghost use Rattle.tup_board.specs.Calls.{AreFilesAt, Ends, IsGoodEndAt, IsReportOf, IsVerdictAt, Finishes, MayLose, Touches};
    ghost use Rattle.tup_schedule.specs.Course.{GoesOn, RunsRule};
    ghost use Rattle.tup_rule_outputs.specs.Ground.{paths_of};
    ghost use Rattle.tup_rule_outputs.specs.Fault.{CountsFaults};

    /// Ends the command of a seat: judges what came of it, and if that is Good takes it into the tree and the store. A
    /// verdict that isn't Good touches neither, and stops unless the plan keeps going.
    ///
    /// After `Memory` the seat still runs its rule, and what was committed and put stays; it is answered too once memory was
    /// wanting for an earlier commit. After `Site` and `Full` the seat runs nothing any more, and all is stopped; `Site` is
    /// answered too once an earlier commit failed by the site.
    pub fn finish(
        &mut self,
        alloc: Global,
        plan: &Plan,
        seat: u32,
        report: &Report<R>,
    ) -> Result<Verdict, BoardFault>
        requires plan { plan.now ≡ plan_of self.old }
        requires report { IsReportOf S.Site.own self.old seat report.now.dir report.now.text
            (asks_of report.now) }
        ensures finishes { Finishes seat (ended_of report.now) self.old result self.new }
        // a verdict that isn't Good touches nothing; else the tree beside the rule's outputs stays, and a crash leaves
        // the graph as it was, or once the run began, or once it ended
        ensures lost { MayLose seat (ended_of report.now) self.old result self.new }
        ensures touches { Touches S.Site.own seat (ended_of report.now) self.old result self.new }
        ensures known { IsTrue S.tells → Keeps (S.known self.old.site) (S.known self.new.site) }
        ensures cause { CountsFaults (S.faults self.old.site) (S.faults self.new.site)
            self.old.lost result }
    {
        // A law: what a board keeps at every moment.
        let _ = &self.ground;
        match judge(alloc, self.rule_of(plan, seat), report.ended()) {
            Ok((Verdict::Good, files)) => self.finish_well(alloc, plan, seat, report, &files),
            Ok((verdict, _)) => self.finish_badly(alloc, plan, seat, report, verdict),
            Err(_) => Err(BoardFault::Memory),
        }
    }

    /// Ends a command with a verdict that isn't Good.
    fn finish_badly(
        &mut self,
        alloc: Global,
        plan: &Plan,
        seat: u32,
        report: &Report<R>,
        verdict: Verdict,
    ) -> Result<Verdict, BoardFault>
        requires plan { plan.now ≡ plan_of self.old }
        requires report { IsReportOf S.Site.own self.old seat report.now.dir report.now.text
            (asks_of report.now) }
        requires judged { IsVerdictAt self.old seat (ended_of report.now) verdict }
        requires bad { verdict ≢ Good }
        ensures ends { Ends S.Site.own seat (ended_of report.now) self.old result self.new }
    {
        self.course.finish_badly(alloc, plan, seat, &verdict)?;
        Ok(verdict)
    }

    /// Ends a command that leaves these files.
    fn finish_well(
        &mut self,
        alloc: Global,
        plan: &Plan,
        seat: u32,
        report: &Report<R>,
        files: &Files,
    ) -> Result<Verdict, BoardFault>
        requires plan { plan.now ≡ plan_of self.old }
        requires report { IsReportOf S.Site.own self.old seat report.now.dir report.now.text
            (asks_of report.now) }
        requires judged { AreFilesAt self.old seat (ended_of report.now) files.now }
        ensures ends { Ends S.Site.own seat (ended_of report.now) self.old result self.new }
    {
        let (end, event) = self.good_end(alloc, plan, seat, files)?;
        let rule = end.rule;
        // A law, also after the call: a fresh graph has the nodes for which its table stands.
        let _ = self.ground.graph.nodes();
        match self.ground.make(alloc, end, files) {
            Ok(()) => {
                self.course.finish_well(plan, rule, event);
                Ok(Verdict::Good)
            }
            Err(fault) => {
                let _ = self.ground.graph.nodes();
                Err(self.fail(plan, seat, fault))
            }
        }
    }

    /// What the store and the history are told of the end of a seat's command.
    fn good_end(
        &self,
        alloc: Global,
        plan: &Plan,
        seat: u32,
        files: &Files,
    ) -> Result<(GoodEnd, CoreEvent), BoardFault>
        requires plan { plan.now ≡ plan_of self.now }
        requires runs { GoesOn (course_of self.now) seat }
        requires outputs { (it : RunsRule (course_of self.now) seat)
            → paths_of files.now ≡ it.rule.outputs }
        ensures end { IfOk result (λ both. IsGoodEndAt self.now seat files.now
            both.0.rule both.0.run both.1) }
        ensures memory { IfErr result (λ fault. fault ≡ BoardFault.Memory) }
    {
        let Some(running) = self.course.running(seat) else {
            unreachable!()
        };
        let run = record_of(alloc, self.rule_of(plan, seat), running, files)?;
        let event = good_event(seat, &run.writes)?;
        let end = GoodEnd {
            rule: running.rule,
            run,
        };
        Ok((end, event))
    }
}

/// The event that a command ends Good with these stamps.
fn good_event(seat: u32, writes: &Stamps) -> Result<CoreEvent, AllocError>
    ensures { IfOk result (λ event. event ≡ Finish seat Good writes.now) }
{
    Ok(CoreEvent::Finish {
        seat,
        verdict: Verdict::Good,
        writes: writes.clone()?,
    })
}
