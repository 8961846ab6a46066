//! A board under a lock, as seats share it: each call goes in, makes the board's call of that name, and goes out.
ghost use Rattle.std.specs.Prelude.{◌≡◌, ◌≢◌, ◌⊎◌, ◌++◌, ◌∷◌, ◌<◌, ℕ, length, List, [], None, Some, Ok, Err, Contains, IsTrue};

use crate::board::BoardSeat;
use crate::graph_lock::GraphLock;
use std::alloc::Global;
use std::sync::Wait;
use tup_access::Verdict;
use tup_board::{Asked, Board, BoardFault, Claimed, Shared};
use tup_core::{Cause, Plan};
use tup_path::Text;
use tup_runner::{Report, Runner};
use tup_site::Site;

impl<S: Site, R: Runner, W: Wait + Drop> GraphLock<S, R, W> {
    ghost use Rattle.tup_path.specs.Name.{Content};
    ghost use Rattle.tup_core.specs.Honest.{EndsHonestly};
    ghost use Rattle.tup_core.specs.declared.event.Cause.TheVariants.{Run, Memory as NoMemory};
    ghost use Rattle.tup_core.specs.declared.event.CoreEvent.{CoreEvent as CoreEventValue};
    ghost use Rattle.tup_core.specs.declared.event.CoreEvent.TheVariants.{Finish};
    ghost use Rattle.tup_runner.specs.Report.{asks_of, ended_of};
    ghost use Rattle.tup_board.specs.Board.{plan_of};
    ghost use Rattle.tup_board.specs.Calls.{AreKnown, ask_events};
    ghost use Rattle.tup_board.specs.Entries.{runs_after, GoesOnBy, WasDeniedBy, IsReportBy, claim_entries, EndsBy, StopsBy};
    ghost use Rattle.tup_lock.specs.Boards.{board_log, entries_by, IsStill};
    ghost use Rattle.tup_lock.specs.Seats.{IsSeatOf};

    /// As the board's call of this name.
    fn claim_at(&self, seat: &mut BoardSeat<S, R>, plan: &Plan) -> Claimed
        requires own { IsSeatOf (board_log S.Site.own) self.now.lock seat.old }
        requires plan { plan.now ≡ plan_of seat.old.last.value }
        requires free { runs_after None (entries_by seat.old) ≡ None }
        ensures own { IsSeatOf (board_log S.Site.own) self.now.lock seat.new }
        ensures same { IsStill seat.old seat.new }
        ensures adds { entries_by seat.new ≡ entries_by seat.old ++ claim_entries seat.old.number result }
        ensures rule { (number : ℕ) → result ≡ Claimed.Rule number → number < length plan.now.rules }
    {
        let number = seat.number;
        let seen = self.lock.ends.seen();
        let mut board = self.lock.enter(seat);
        let claimed = board.claim(plan, number);
        self.lock.leave(seat, board);
        self.wait_after(&claimed, seen);
        claimed
    }

    /// As the board's call of this name.
    fn ask_at(
        &self,
        alloc: Global,
        seat: &mut BoardSeat<S, R>,
        plan: &Plan,
        text: &Text,
    ) -> Result<Asked, BoardFault>
        requires own { IsSeatOf (board_log S.Site.own) self.now.lock seat.old }
        requires plan { plan.now ≡ plan_of seat.old.last.value }
        requires runs { GoesOnBy plan.now (entries_by seat.old) }
        ensures own { IsSeatOf (board_log S.Site.own) self.now.lock seat.new }
        ensures same { IsStill seat.old seat.new }
        ensures adds { entries_by seat.new ≡ entries_by seat.old ++ ask_events seat.old.number text.now result }
        ensures never_full { result ≢ Err BoardFault.Full }
        ensures told { IsTrue S.tells → (content : Content)
            → result ≡ Ok (Asked.Content content) → Contains (S.known seat.new.last.value.site) content }
        ensures known { IsTrue S.tells → (content : Content)
            → Contains (S.known seat.old.last.value.site) content → Contains (S.known seat.new.last.value.site) content }
    {
        let number = seat.number;
        let mut board = self.lock.enter(seat);
        let asked = board.ask(alloc, plan, number, text);
        self.lock.leave(seat, board);
        self.tell_of(&asked);
        asked
    }

    /// As the board's call of this name.
    fn finish_at(
        &self,
        alloc: Global,
        seat: &mut BoardSeat<S, R>,
        plan: &Plan,
        report: &Report<R>,
    ) -> Result<Verdict, BoardFault>
        requires own { IsSeatOf (board_log S.Site.own) self.now.lock seat.old }
        requires plan { plan.now ≡ plan_of seat.old.last.value }
        requires report { IsReportBy plan.now (entries_by seat.old)
            report.now.dir report.now.text (asks_of report.now) }
        requires known { IsTrue S.tells → AreKnown (S.known seat.old.last.value.site) (asks_of report.now) }
        ensures own { IsSeatOf (board_log S.Site.own) self.now.lock seat.new }
        ensures same { IsStill seat.old seat.new }
        ensures adds { (added : List CoreEventValue)
            × (entries_by seat.new ≡ entries_by seat.old ++ added)
            × EndsBy plan.now (entries_by seat.old) seat.old.number (ended_of report.now) result added }
    {
        let number = seat.number;
        let mut board = self.lock.enter(seat);
        let finished = board.finish(alloc, plan, number, report);
        self.lock.leave(seat, board);
        self.lock.ends.tell();
        finished
    }

    /// As the board's call of this name.
    fn finish_denied_at(&self, seat: &mut BoardSeat<S, R>, plan: &Plan)
        requires own { IsSeatOf (board_log S.Site.own) self.now.lock seat.old }
        requires plan { plan.now ≡ plan_of seat.old.last.value }
        requires denied { WasDeniedBy plan.now (entries_by seat.old) }
        requires means { (was : WasDeniedBy plan.now (entries_by seat.old)) → IsTrue S.tells
            → IsTrue R.tells → EndsHonestly R.next (S.known seat.old.last.value.site)
            was.rule was.running (Some (was.text, was.verdict)) was.verdict [] }
        ensures own { IsSeatOf (board_log S.Site.own) self.now.lock seat.new }
        ensures same { IsStill seat.old seat.new }
        ensures adds { (was : WasDeniedBy plan.now (entries_by seat.old))
            → entries_by seat.new ≡ entries_by seat.old ++ Finish seat.old.number was.verdict [] ∷ [] }
    {
        let number = seat.number;
        let mut board = self.lock.enter(seat);
        board.finish_denied(plan, number);
        self.lock.leave(seat, board);
        self.lock.ends.tell();
    }

    /// As the board's call of this name.
    fn stop_at(&self, seat: &mut BoardSeat<S, R>, plan: &Plan, cause: Cause)
        requires own { IsSeatOf (board_log S.Site.own) self.now.lock seat.old }
        requires plan { plan.now ≡ plan_of seat.old.last.value }
        requires cause { (cause ≡ Run) ⊎ (cause ≡ NoMemory) }
        ensures own { IsSeatOf (board_log S.Site.own) self.now.lock seat.new }
        ensures same { IsStill seat.old seat.new }
        ensures adds { (added : List CoreEventValue)
            × (entries_by seat.new ≡ entries_by seat.old ++ added)
            × StopsBy (entries_by seat.old) seat.old.number cause added }
    {
        let number = seat.number;
        let mut board = self.lock.enter(seat);
        board.stop(plan, number, cause);
        self.lock.leave(seat, board);
        self.lock.ends.tell();
    }

    /// Where no rule was ready, waits until one may be. The count was read before the lock was taken, so no end is missed.
    fn wait_after(&self, claimed: &Claimed, seen: u64) {
        if matches!(claimed, Claimed::Wait) {
            self.lock.ends.wait(&self.lock.rt, seen);
        }
    }

    /// An ask that failed has stopped the board.
    fn tell_of(&self, asked: &Result<Asked, BoardFault>) {
        if asked.is_err() {
            self.lock.ends.tell();
        }
    }
}

impl<S: Site + Send, R: Runner + Send, W: Wait + Drop + Sync> Shared for GraphLock<S, R, W> {
    ghost use Rattle.tup_board.specs.Board.{board_code, plan_of as plan_at};
    ghost use Rattle.tup_lock.specs.Boards.{board_log_by, board_once, entries_by};
    ghost use Rattle.tup_lock.specs.Once.{seat_once};
    ghost use Rattle.tup_lock.specs.Seats.{IsSeatOf};

    type Seat = BoardSeat<S, R>;

    type Runner = R;

    ghost belongs = { λ lock seat. IsSeatOf (board_log_by S.tells S.known S.faults) lock.lock seat };

    ghost number_of = { λ seat. seat.number };

    ghost plan_of = { λ seat. plan_at seat.last.value };

    ghost entries = { λ seat. entries_by seat };

    ghost tells = { S.tells };

    ghost known = { λ seat. S.known seat.last.value.site };

    fn number(&self, seat: &BoardSeat<S, R>) -> u32 {
        seat.number()
    }

    fn claim(&self, seat: &mut BoardSeat<S, R>, plan: &Plan) -> Claimed {
        self.claim_at(seat, plan)
    }

    fn ask(
        &self,
        alloc: Global,
        seat: &mut BoardSeat<S, R>,
        plan: &Plan,
        text: &Text,
    ) -> Result<Asked, BoardFault> {
        self.ask_at(alloc, seat, plan, text)
    }

    fn finish(
        &self,
        alloc: Global,
        seat: &mut BoardSeat<S, R>,
        plan: &Plan,
        report: &Report<R>,
    ) -> Result<Verdict, BoardFault> {
        self.finish_at(alloc, seat, plan, report)
    }

    fn finish_denied(&self, seat: &mut BoardSeat<S, R>, plan: &Plan) {
        self.finish_denied_at(seat, plan)
    }

    fn stop(&self, seat: &mut BoardSeat<S, R>, plan: &Plan, cause: Cause) {
        self.stop_at(seat, plan, cause)
    }

    ghost fact = { λ lock seat. seat_once (board_code S.row.coded) (board_log_by S.tells S.known S.faults) (board_once S.faults) lock.lock seat };
}
