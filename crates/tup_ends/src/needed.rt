//! An update runs what is due, each rule at most once.
ghost use Rattle.std.specs.Prelude.{◌≡◌, ◌++◌, ◌∷◌, [], ℕ, Bool, false, true, List, Option, None, Some, All, IsTrue, map, slice_get};
ghost use Rattle.std.specs.List.{IsDistinct};
ghost use Rattle.tup_path.specs.Order.{same_path};
ghost use Rattle.tup_site.specs.World.{World};
ghost use Rattle.tup_rule.specs.declared.rule.Rule.{Rule};
ghost use Rattle.tup_rule.specs.declared.rule.RuleName.{RuleName};
ghost use Rattle.tup_runner.specs.Next.{Next};
ghost use Rattle.tup_access.specs.declared.verdict.Verdict.{Verdict};
ghost use Rattle.tup_table.specs.Table.{entries_in};
ghost use Rattle.tup_graph.specs.Graph.{is_flagged};
ghost use Rattle.tup_graph.specs.Opening.{IsGraphOf};
ghost use Rattle.tup_stored_graph.specs.Held.{is_fresh, Held};
ghost use Rattle.tup_core.specs.Run.{seat_of};
ghost use Rattle.tup_core.specs.Sound.{IsAcyclic};
ghost use Rattle.tup_board.specs.Board.{BoardState, plan_of, state};
ghost use Rattle.tup_board.specs.Calls.{commands, IsOver};
ghost use Rattle.tup_board.specs.Sound.{IsSound};
ghost use Rattle.tup_promise.specs.Kept.{AsksFor};
ghost use Rattle.tup_promise.specs.Needed.{FlagsWhatWasDue, HasName, IsDue, NamesAllDue, NamesAllThatCan, OnlyWhatIsNeeded, RunsAll, RunsWhatIsNeeded};
ghost use Rattle.tup_promise.specs.Prepared.{IsPrepared};
ghost use Rattle.tup_promise.specs.Ran.{command_of};
ghost use Rattle.tup_promise.specs.declared.stop.Stop.{Stop};

use tup_core::{bad_is_last, claims_in_order};
use tup_runner::Runner;
use tup_site::Site;

/// A law: what a board ran was due, where it was made once the graph was up to date: no rule ran twice, a declared producer ran
/// before what waits for it, and each rule that is flagged at the end was due. `ran` has the rules whose commands were run.
pub fn ran_what_was_due<S: Site, R: Runner>(site: &S, runner: &R)
    ensures { (board : BoardState S) (first : World) (since : ℕ) (keep_going : Bool) (jobs : ℕ)
        (ran : List RuleName) (stopped : Option Stop) → IsTrue S.tells → IsTrue R.tells
        → IsSound S.Site.own R.Runner.own board
        → IsPrepared S.Site.own R.next first since board.opening.graph board.opening.site
        → map command_of ran ≡ commands (plan_of board) board.history
        → RunsAll R.next keep_going jobs first ran stopped
        → OnlyWhatIsNeeded R.next keep_going jobs first (S.world board.site) ran stopped }
{
    claims_in_order();
    let _ = site;
    let _ = runner;
}

/// A law: such a board that has no pending rule at its end ran all that was due.
pub fn done_ran_all<S: Site, R: Runner>(site: &S, runner: &R)
    ensures { (board : BoardState S) (first : World) (since : ℕ) (ran : List RuleName)
        → IsSound S.Site.own R.Runner.own board
        → IsPrepared S.Site.own R.next first since board.opening.graph board.opening.site
        → map command_of ran ≡ commands (plan_of board) board.history
        → (IsAcyclic (plan_of board).rules → (number : ℕ) → (state board).pending number ≡ false)
        → NamesAllDue first ran }
{
    let _ = site;
    let _ = runner;
}

/// A law: such a board on which nothing goes on any more, and that wasn't stopped, ran all that was due and whose declared
/// producers are Good in the clean build.
pub fn bad_ran_all_it_could<S: Site, R: Runner>(site: &S, runner: &R)
    ensures { (board : BoardState S) (first : World) (since : ℕ) (ran : List RuleName)
        → IsTrue S.tells → IsTrue R.tells → IsSound S.Site.own R.Runner.own board
        → IsPrepared S.Site.own R.next first since board.opening.graph board.opening.site
        → map command_of ran ≡ commands (plan_of board) board.history
        → IsOver board → (state board).stopped ≡ None → NamesAllThatCan R.next first ran }
{
    let _ = site;
    let _ = runner;
}

/// A law: where one seat ran all, and the plan doesn't keep going, a bad rule is the last one that was run.
pub fn bad_stands_last<S: Site, R: Runner>(site: &S, runner: &R)
    ensures { (board : BoardState S) (seat at : ℕ) (verdict : Verdict) (name : RuleName)
        (ran : List RuleName) → IsSound S.Site.own R.Runner.own board
        → map command_of ran ≡ commands (plan_of board) board.history
        → All (λ event. seat_of event ≡ seat) board.history
        → (plan_of board).keep_going ≡ false → (state board).bad at ≡ Some verdict
        → HasName (plan_of board).rules at name
        → (front : List RuleName) × (ran ≡ front ++ name ∷ []) }
{
    bad_is_last();
    let _ = site;
    let _ = runner;
}

/// A law: what is due in what such a board leaves is pending on it still, and was due when the update began, whatever happened on
/// the board, and whether or not its last commit was lost; and the sources ask for the same rules.
pub fn boards_leave_due<S: Site, R: Runner>(site: &S, runner: &R)
    ensures pending { (board : BoardState S) (first : World) (since number : ℕ) → IsTrue S.tells
        → IsTrue R.tells → IsSound S.Site.own R.Runner.own board
        → (IsTrue (is_fresh board.graph)
        → IsGraphOf (entries_in board.graph.table) board.graph.nodes)
        → IsPrepared S.Site.own R.next first since board.opening.graph board.opening.site
        → ((number : ℕ) (rule : Rule) → slice_get (plan_of board).rules number ≡ Some rule
        → IsDistinct same_path rule.outputs)
        → IsDue (S.world board.site) (plan_of board).rules number
        → (state board).pending number ≡ true }
    ensures before { (board : BoardState S) (first : World) (since number : ℕ) → IsTrue S.tells
        → IsTrue R.tells → IsSound S.Site.own R.Runner.own board
        → (IsTrue (is_fresh board.graph)
        → IsGraphOf (entries_in board.graph.table) board.graph.nodes)
        → IsPrepared S.Site.own R.next first since board.opening.graph board.opening.site
        → ((number : ℕ) (rule : Rule) → slice_get (plan_of board).rules number ≡ Some rule
        → IsDistinct same_path rule.outputs)
        → IsDue (S.world board.site) (plan_of board).rules number
        → IsDue first (plan_of board).rules number }
    ensures asked { (board : BoardState S) (first : World) (since : ℕ) → IsTrue S.tells
        → IsTrue R.tells → IsSound S.Site.own R.Runner.own board
        → (IsTrue (is_fresh board.graph)
        → IsGraphOf (entries_in board.graph.table) board.graph.nodes)
        → IsPrepared S.Site.own R.next first since board.opening.graph board.opening.site
        → ((number : ℕ) (rule : Rule) → slice_get (plan_of board).rules number ≡ Some rule
        → IsDistinct same_path rule.outputs)
        → AsksFor (S.world board.site) (plan_of board).rules }
{
    let _ = site;
    let _ = runner;
}

/// A law: nor does an update that runs nothing run more than is due, whatever it answers.
pub fn none_ran_is_needed()
    ensures { (next : Next) (keep_going : Bool) (jobs : ℕ) (w : World)
        (stopped : Option Stop) → RunsAll next keep_going jobs w [] stopped
        → RunsWhatIsNeeded next keep_going jobs w [] stopped }
{}

/// A law: once the graph is up to date each flagged rule was due; and where none is flagged, none was.
pub fn prepared_flags_what_was_due<S: Site>(site: &S)
    ensures flagged { (next : Next) (first : World) (since : ℕ) (graph : Held) → IsTrue S.tells
        → IsPrepared S.Site.own next first since graph site.now
        → FlagsWhatWasDue first (S.world site.now) }
    ensures none { (next : Next) (first : World) (since : ℕ) (graph : Held)
        → IsPrepared S.Site.own next first since graph site.now
        → ((number : ℕ) → is_flagged graph.nodes number ≡ false) → NamesAllDue first [] }
{
    let _ = site;
}
