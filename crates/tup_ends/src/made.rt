//! The rules that came to a good end on a board.
ghost use Rattle.std.specs.Prelude.{◌≡◌, ℕ, false, true, Some, IsTrue, slice_get};
ghost use Rattle.tup_site.specs.World.{World};
ghost use Rattle.tup_rule.specs.Rule.{name_of};
ghost use Rattle.tup_rule.specs.declared.rule.Rule.{Rule};
ghost use Rattle.tup_core.specs.Step.{is_reached};
ghost use Rattle.tup_board.specs.Board.{BoardState, plan_of, state};
ghost use Rattle.tup_board.specs.Sound.{IsSound};
ghost use Rattle.tup_promise.specs.GoodEnds.{IsMade};
ghost use Rattle.tup_promise.specs.Prepared.{IsPrepared};

use tup_runner::Runner;
use tup_site::Site;

/// A law: a rule that was to be run and isn't pending any more on a board is Good in the clean build of the sources, and its outputs
/// stand as that build leaves them, where the board was made once the graph was up to date.
pub fn settled_rules_are_made<S: Site, R: Runner>(site: &S, runner: &R)
    ensures { (board : BoardState S) (first : World) (since number : ℕ) (rule : Rule)
        → IsTrue S.tells → IsTrue R.tells → IsSound S.Site.own R.Runner.own board
        → IsPrepared S.Site.own R.next first since board.opening.graph board.opening.site
        → slice_get (plan_of board).rules number ≡ Some rule
        → is_reached (plan_of board) number ≡ true → (state board).pending number ≡ false
        → IsMade R.next first (S.world board.site) (name_of rule) }
{
    let _ = site;
    let _ = runner;
}
