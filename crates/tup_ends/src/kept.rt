//! A site stays kept, as it is and whenever a crash comes.
ghost use Rattle.std.specs.Prelude.{◌≡◌, ℕ, Some, IsTrue, slice_get};
ghost use Rattle.std.specs.List.{IsDistinct};
ghost use Rattle.tup_path.specs.Order.{same_path};
ghost use Rattle.tup_site.specs.World.{World};
ghost use Rattle.tup_rule.specs.declared.rule.Rule.{Rule};
ghost use Rattle.tup_table.specs.Table.{entries_in};
ghost use Rattle.tup_graph.specs.Opening.{IsGraphOf};
ghost use Rattle.tup_stored_graph.specs.Held.{is_fresh};
ghost use Rattle.tup_board.specs.Board.{BoardState, plan_of};
ghost use Rattle.tup_board.specs.Sound.{IsSound};
ghost use Rattle.tup_law_site.specs.Over.{IsKeptNow};
ghost use Rattle.tup_law_phases.specs.Language.{tupfiles};
ghost use Rattle.tup_promise.specs.Crashes.{OwnsNoMore, SourcesAndCrashes};
ghost use Rattle.tup_promise.specs.Prepared.{IsPrepared};

use tup_runner::Runner;
use tup_site::Site;

/// A law: a site on which a board works that was made once the graph was up to date is kept as it is, whatever happened on the
/// board.
pub fn boards_are_kept<S: Site, R: Runner>(site: &S, runner: &R)
    ensures { (board : BoardState S) (first : World) (since : ℕ) → IsTrue S.tells → IsTrue R.tells
        → IsSound S.Site.own R.Runner.own board
        → (IsTrue (is_fresh board.graph)
        → IsGraphOf (entries_in board.graph.table) board.graph.nodes)
        → IsPrepared S.Site.own R.next first since board.opening.graph board.opening.site
        → ((number : ℕ) (rule : Rule) → slice_get (plan_of board).rules number ≡ Some rule
        → IsDistinct same_path rule.outputs)
        → IsKeptNow S.Site.own R.next tupfiles (S.known board.site) board.site }
{
    let _ = site;
    let _ = runner;
}

/// A law: and whenever a crash comes, what it leaves is kept and has the sources of the beginning, and no path is owned in it
/// but those that were, and outputs that the sources ask for, where so it was when the board was made.
pub fn boards_leave_crashes<S: Site, R: Runner>(site: &S, runner: &R)
    ensures { (board : BoardState S) (old : S) → IsTrue S.tells → IsTrue R.tells
        → IsSound S.Site.own R.Runner.own board
        → IsPrepared S.Site.own R.next (S.world old) (S.moment old)
        board.opening.graph board.opening.site
        → ((number : ℕ) (rule : Rule) → slice_get (plan_of board).rules number ≡ Some rule
        → IsDistinct same_path rule.outputs)
        → OwnsNoMore S.Site.own old (S.moment old) board.opening.site
        → SourcesAndCrashes S.Site.own R.next old board.site }
{
    let _ = site;
    let _ = runner;
}
