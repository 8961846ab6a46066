//! The rule that is run where a store is full.
ghost use Rattle.std.specs.Prelude.{◌≡◌, ℕ, List, Some, IsTrue, map};
ghost use Rattle.tup_site.specs.World.{World};
ghost use Rattle.tup_rule.specs.declared.rule.RuleName.{RuleName};
ghost use Rattle.tup_core.specs.declared.event.Cause.TheVariants.{Full};
ghost use Rattle.tup_board.specs.Board.{BoardState, plan_of, state};
ghost use Rattle.tup_board.specs.Calls.{commands};
ghost use Rattle.tup_board.specs.Sound.{IsSound};
ghost use Rattle.tup_promise.specs.Prepared.{IsPrepared};
ghost use Rattle.tup_promise.specs.Ran.{command_of};
ghost use Rattle.tup_ends.specs.Room.{LacksRoomToRun};

use tup_runner::Runner;
use tup_site::Site;

/// A law: where a board is stopped because the store is full, a store of the rules that the sources ask for, which a crash since
/// the beginning may leave, lacks room for what the run of a rule commits whose command was run, where the board was made once
/// the graph was up to date. It is what that command comes to.
pub fn full_is_true<S: Site, R: Runner>(site: &S, runner: &R)
    ensures { (board : BoardState S) (first : World) (since : ℕ) (ran : List RuleName)
        → IsTrue S.tells → IsTrue R.tells → IsSound S.Site.own R.Runner.own board
        → IsPrepared S.Site.own R.next first since board.opening.graph board.opening.site
        → map command_of ran ≡ commands (plan_of board) board.history
        → (state board).stopped ≡ Some Full
        → (w : World) × S.left_since board.site since w
        × LacksRoomToRun R.next (S.known board.site) first w ran }
{
    let _ = site;
    let _ = runner;
}
