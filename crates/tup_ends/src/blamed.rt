//! The rule that is blamed where an update stops at a bad verdict.
ghost use Rattle.std.specs.Prelude.{◌≡◌, ℕ, List, Some, IsTrue, map};
ghost use Rattle.tup_site.specs.World.{World};
ghost use Rattle.tup_rule.specs.declared.rule.RuleName.{RuleName};
ghost use Rattle.tup_access.specs.declared.verdict.Verdict.{Verdict};
ghost use Rattle.tup_board.specs.Board.{BoardState, plan_of, state};
ghost use Rattle.tup_board.specs.Calls.{commands};
ghost use Rattle.tup_board.specs.Sound.{IsSound};
ghost use Rattle.tup_promise.specs.Blamed.{IsBadRule};
ghost use Rattle.tup_promise.specs.Needed.{HasName};
ghost use Rattle.tup_promise.specs.Prepared.{IsPrepared};
ghost use Rattle.tup_promise.specs.Ran.{command_of};

use tup_runner::Runner;
use tup_site::Site;

/// A law: a rule that is bad on a board was run, and has its verdict in the clean build of the sources, where the board was made
/// once the graph was up to date.
pub fn bad_rules_are_bad<S: Site, R: Runner>(site: &S, runner: &R)
    ensures { (board : BoardState S) (first : World) (since at : ℕ) (ran : List RuleName)
        (name : RuleName) (verdict : Verdict) → IsTrue S.tells → IsTrue R.tells
        → IsSound S.Site.own R.Runner.own board
        → IsPrepared S.Site.own R.next first since board.opening.graph board.opening.site
        → map command_of ran ≡ commands (plan_of board) board.history
        → (state board).bad at ≡ Some verdict → HasName (plan_of board).rules at name
        → IsBadRule R.next first ran name verdict }
{
    let _ = site;
    let _ = runner;
}
