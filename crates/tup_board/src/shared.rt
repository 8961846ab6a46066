//! A board that several seats share.
ghost use Rattle.std.specs.Prelude.{◌≡◌, ◌≢◌, ◌⊎◌, ◌++◌, ◌∷◌, ◌<◌, ℕ, length, Bool, List, [], None, Some, Ok, Err, Contains, IsTrue};
ghost use Rattle.tup_path.specs.Name.{Content};
ghost use Rattle.tup_core.specs.Honest.{EndsHonestly};
ghost use Rattle.tup_core.specs.declared.event.Cause.TheVariants.{Run, Memory as NoMemory};
ghost use Rattle.tup_core.specs.declared.event.CoreEvent.{CoreEvent as CoreEventValue};
ghost use Rattle.tup_core.specs.declared.event.CoreEvent.TheVariants.{Finish};
ghost use Rattle.tup_core.specs.declared.plan.Plan.{Plan as PlanValue};
ghost use Rattle.tup_runner.specs.Report.{asks_of, ended_of};
ghost use Rattle.tup_board.specs.Calls.{AreKnown, ask_events};
ghost use Rattle.tup_board.specs.Entries.{runs_after, GoesOnBy, WasDeniedBy, IsReportBy, claim_entries, EndsBy, StopsBy};

use crate::answers::Asked;
use std::alloc::Global;
use tup_access::Verdict;
use tup_core::{Cause, Plan};
use tup_path::Text;
use tup_rule_outputs::BoardFault;
use tup_runner::{Report, Runner};
use tup_schedule::Claimed;

/// A board that seats share: each call is one of the board at the seat's number, and adds its entries to those of the seat.
/// What other seats do meanwhile isn't seen.
pub trait Shared: Sync {
    type Seat: Send;

    type Runner: Runner;

    /// Whether a seat is one of this board.
    ghost belongs: { Self → Self.Seat → Type 0 };

    /// The number that the entries of a seat carry, the plan of its board, and its entries.
    ghost number_of: { Self.Seat → ℕ };

    ghost plan_of: { Self.Seat → PlanValue };

    ghost entries: { Self.Seat → List CoreEventValue };

    /// Whether the board's site tells its contents, and those that a seat was answered.
    ghost tells: { Bool };

    ghost known: { Self.Seat → List Content };

    /// The number of a seat.
    fn number(&self, seat: &Self::Seat) -> u32
        requires { belongs self.now seat.now }
        ensures { result ≡ number_of seat.now };

    /// As the board's call of this name.
    fn claim(&self, seat: &mut Self::Seat, plan: &Plan) -> Claimed
        requires belongs { belongs self.now seat.old }
        requires plan { plan.now ≡ plan_of seat.old }
        requires free { runs_after None (entries seat.old) ≡ None }
        ensures belongs { belongs self.now seat.new }
        ensures same { (number_of seat.new ≡ number_of seat.old)
            × (plan_of seat.new ≡ plan_of seat.old) }
        ensures adds { entries seat.new
            ≡ entries seat.old ++ claim_entries (number_of seat.old) result }
        ensures rule { (number : ℕ) → result ≡ Claimed.Rule number
            → number < length plan.now.rules };

    /// As the board's call of this name.
    fn ask(
        &self,
        alloc: Global,
        seat: &mut Self::Seat,
        plan: &Plan,
        text: &Text,
    ) -> Result<Asked, BoardFault>
        requires belongs { belongs self.now seat.old }
        requires plan { plan.now ≡ plan_of seat.old }
        requires runs { GoesOnBy plan.now (entries seat.old) }
        ensures belongs { belongs self.now seat.new }
        ensures same { (number_of seat.new ≡ number_of seat.old)
            × (plan_of seat.new ≡ plan_of seat.old) }
        ensures adds { entries seat.new
            ≡ entries seat.old ++ ask_events (number_of seat.old) text.now result }
        ensures never_full { result ≢ Err BoardFault.Full }
        ensures told { IsTrue tells → (content : Content)
            → result ≡ Ok (Asked.Content content) → Contains (known seat.new) content }
        ensures known { IsTrue tells → (content : Content)
            → Contains (known seat.old) content → Contains (known seat.new) content };

    /// As the board's call of this name.
    fn finish(
        &self,
        alloc: Global,
        seat: &mut Self::Seat,
        plan: &Plan,
        report: &Report<Self::Runner>,
    ) -> Result<Verdict, BoardFault>
        requires belongs { belongs self.now seat.old }
        requires plan { plan.now ≡ plan_of seat.old }
        requires report { IsReportBy plan.now (entries seat.old)
            report.now.dir report.now.text (asks_of report.now) }
        requires known { IsTrue tells → AreKnown (known seat.old) (asks_of report.now) }
        ensures belongs { belongs self.now seat.new }
        ensures same { (number_of seat.new ≡ number_of seat.old)
            × (plan_of seat.new ≡ plan_of seat.old) }
        ensures adds { (added : List CoreEventValue)
            × (entries seat.new ≡ entries seat.old ++ added)
            × EndsBy plan.now (entries seat.old) (number_of seat.old)
            (ended_of report.now) result added };

    /// As the board's call of this name.
    fn finish_denied(&self, seat: &mut Self::Seat, plan: &Plan)
        requires belongs { belongs self.now seat.old }
        requires plan { plan.now ≡ plan_of seat.old }
        requires denied { WasDeniedBy plan.now (entries seat.old) }
        requires means { (was : WasDeniedBy plan.now (entries seat.old)) → IsTrue tells
            → IsTrue Self.Runner.tells → EndsHonestly Self.Runner.next (known seat.old)
            was.rule was.running (Some (was.text, was.verdict)) was.verdict [] }
        ensures belongs { belongs self.now seat.new }
        ensures same { (number_of seat.new ≡ number_of seat.old)
            × (plan_of seat.new ≡ plan_of seat.old) }
        ensures adds { (was : WasDeniedBy plan.now (entries seat.old)) → entries seat.new
            ≡ entries seat.old ++ Finish (number_of seat.old) was.verdict [] ∷ [] };

    /// As the board's call of this name.
    fn stop(&self, seat: &mut Self::Seat, plan: &Plan, cause: Cause)
        requires belongs { belongs self.now seat.old }
        requires plan { plan.now ≡ plan_of seat.old }
        requires cause { (cause ≡ Run) ⊎ (cause ≡ NoMemory) }
        ensures belongs { belongs self.now seat.new }
        ensures same { (number_of seat.new ≡ number_of seat.old)
            × (plan_of seat.new ≡ plan_of seat.old) }
        ensures adds { (added : List CoreEventValue)
            × (entries seat.new ≡ entries seat.old ++ added)
            × StopsBy (entries seat.old) (number_of seat.old) cause added };

    /// That a seat is one of a board is a fact: there is at most one proof of it.
    ghost fact: { (board : Self) (seat : Self.Seat) → IsProp (belongs board seat) };
}
