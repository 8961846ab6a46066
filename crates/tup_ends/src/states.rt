//! What an update makes of the states of owned paths.
ghost use Rattle.std.specs.Prelude.{◌≡◌, ℕ, Some, IsTrue, slice_get};
ghost use Rattle.std.specs.List.{IsDistinct};
ghost use Rattle.tup_path.specs.Order.{same_path};
ghost use Rattle.tup_site.specs.World.{World};
ghost use Rattle.tup_rule.specs.declared.rule.Rule.{Rule};
ghost use Rattle.tup_runner.specs.Next.{Next};
ghost use Rattle.tup_board.specs.Board.{BoardState, first_graph, plan_of};
ghost use Rattle.tup_board.specs.Sound.{IsSound};
ghost use Rattle.tup_promise.specs.Kept.{OfGraph};
ghost use Rattle.tup_promise.specs.Prepared.{IsPrepared};
ghost use Rattle.tup_promise.specs.States.{KeepsStates, States};

use tup_runner::Runner;
use tup_site::Site;

/// A law: an update that ran nothing, and whose graph keeps the states, has made nothing else of them.
pub fn kept_states_are_states()
    ensures { (next : Next) (old new : World) → OfGraph new (KeepsStates old)
        → States next old new }
{}

/// A law: a board that was made over such a graph, once it was up to date, has made of the states only what a run that begins and
/// what a good end makes of them; and what is written then is what the clean build leaves.
pub fn boards_leave_states<S: Site, R: Runner>(site: &S, runner: &R)
    ensures { (board : BoardState S) (first : World) (since : ℕ) → IsTrue S.tells → IsTrue R.tells
        → IsSound S.Site.own R.Runner.own board
        → IsPrepared S.Site.own R.next first since board.opening.graph board.opening.site
        → ((number : ℕ) (rule : Rule) → slice_get (plan_of board).rules number ≡ Some rule
        → IsDistinct same_path rule.outputs)
        → KeepsStates first (first_graph board) → States R.next first (S.world board.site) }
{
    let _ = site;
    let _ = runner;
}
