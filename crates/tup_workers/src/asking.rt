//! A shared board as the view of a command asks it.
ghost use Rattle.std.specs.Prelude.{◌≡◌, ◌++◌, ℕ, Bool, Ok, Contains, IsTrue};
ghost use Rattle.tup_path.specs.Name.{Content};
ghost use Rattle.tup_core.specs.declared.plan.Plan.{Plan as PlanValue};
ghost use Rattle.tup_board.specs.Calls.{ask_events};
ghost use Rattle.tup_board.specs.Entries.{GoesOnBy};
ghost use Rattle.tup_workers.specs.Told.{Told};

use std::alloc::Global;
use tup_board::{Asked, BoardFault, Shared};
use tup_core::Plan;
use tup_path::Text;

/// A shared board without its runner: a call that is given a runner and a view is refused where the view's type names the
/// runner's.
pub(crate) trait Asking {
    type Place;

    /// Whether a seat is one of this board.
    ghost is_at: { Self → Self.Place → Type 0 };

    /// The number of a seat, the plan of its board, and what it was told.
    ghost number_at: { Self.Place → ℕ };

    ghost plan_at: { Self.Place → PlanValue };

    ghost told_at: { Self.Place → Told };

    /// Whether the board's site tells its contents.
    ghost tells_known: { Bool };

    /// The number of a seat.
    fn number_there(&self, seat: &Self::Place) -> u32
        requires { is_at self.now seat.now }
        ensures { result ≡ number_at seat.now };

    /// As the call of `Shared` of this name.
    fn ask_there(
        &self,
        alloc: Global,
        seat: &mut Self::Place,
        plan: &Plan,
        text: &Text,
    ) -> Result<Asked, BoardFault>
        requires belongs { is_at self.now seat.old }
        requires plan { plan.now ≡ plan_at seat.old }
        requires runs { GoesOnBy plan.now (told_at seat.old).entries }
        ensures belongs { is_at self.now seat.new }
        ensures same { (number_at seat.new ≡ number_at seat.old)
            × (plan_at seat.new ≡ plan_at seat.old) }
        ensures adds { (told_at seat.new).entries
            ≡ (told_at seat.old).entries ++ ask_events (number_at seat.old) text.now result }
        ensures told { IsTrue tells_known → (content : Content)
            → result ≡ Ok (Asked.Content content) → Contains (told_at seat.new).known content }
        ensures known { IsTrue tells_known → (content : Content)
            → Contains (told_at seat.old).known content → Contains (told_at seat.new).known content };

    /// Whether a seat is one of this board is a fact: there is at most one proof of it.
    ghost once: { (lock : Self) (place : Self.Place) → IsProp (is_at lock place) };
}

impl<L: Shared> Asking for L {
    ghost use Rattle.tup_workers.specs.Told.{told_of};

    type Place = L::Seat;

    ghost is_at = { L.belongs };

    ghost number_at = { L.number_of };

    ghost plan_at = { L.plan_of };

    ghost told_at = { λ seat. told_of L.entries L.known seat };

    ghost tells_known = { L.tells };

    fn number_there(&self, seat: &L::Seat) -> u32 {
        self.number(seat)
    }

    fn ask_there(
        &self,
        alloc: Global,
        seat: &mut L::Seat,
        plan: &Plan,
        text: &Text,
    ) -> Result<Asked, BoardFault> {
        self.ask(alloc, seat, plan, text)
    }

    ghost once = { λ lock place. L.fact lock place };
}
