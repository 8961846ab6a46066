//! An update that is done leaves the files of a clean build.
ghost use Rattle.std.specs.Prelude.{◌≡◌, ◌≢◌, [], ℕ, false, List, None, Ok, Some, All, IsTrue, slice_get};
ghost use Rattle.std.specs.FinMap as finite;
ghost use Rattle.std.specs.List.{IsDistinct};
ghost use Rattle.tup_path.specs.Name.{Names, Content};
ghost use Rattle.tup_path.specs.Order.{same_path};
ghost use Rattle.tup_path.specs.Tree.{Tree};
ghost use Rattle.tup_site.specs.Known.{IsKnown, KnowsTree};
ghost use Rattle.tup_site.specs.World.{World};
ghost use Rattle.tup_rule.specs.declared.rule.Rule.{Rule};
ghost use Rattle.tup_rule.specs.declared.rule.RuleName.{RuleName};
ghost use Rattle.tup_runner.specs.Next.{Next};
ghost use Rattle.tup_project.specs.Project.{ComeTo};
ghost use Rattle.tup_table.specs.Table.{entries_in};
ghost use Rattle.tup_graph.specs.Graph.{GraphState, is_flagged};
ghost use Rattle.tup_graph.specs.Kept.{IsKept, IsKeptWorld};
ghost use Rattle.tup_graph.specs.Opening.{IsGraphOf};
ghost use Rattle.tup_graph.specs.Reach.{stamp_in};
ghost use Rattle.tup_graph.specs.declared.owned.Owned.{Owned};
ghost use Rattle.tup_stored_graph.specs.Held.{is_fresh, Held};
ghost use Rattle.tup_ledger.specs.Sources.{sources_of};
ghost use Rattle.tup_core.specs.Sound.{IsAcyclic};
ghost use Rattle.tup_board.specs.Board.{BoardState, plan_of, state};
ghost use Rattle.tup_board.specs.Sound.{IsSound};
ghost use Rattle.tup_law_phases.specs.Language.{tupfiles};
ghost use Rattle.tup_promise.specs.Did.{ReadsWhatIsDue, RemovesWhatIsUnmade};
ghost use Rattle.tup_promise.specs.Finished.{IsSettled, ExactlyTheFiles, IsFinished};
ghost use Rattle.tup_promise.specs.Kept.{HaveTupfiles};
ghost use Rattle.tup_promise.specs.Needed.{IsDueName};
ghost use Rattle.tup_promise.specs.Prepared.{IsPrepared};

use tup_runner::Runner;
use tup_site::Site;

/// A law: a kept graph of which no rule is flagged, and a tree that is as the graph has seen it, are those of a finished
/// project, where its rules are those that the sources ask for, no folder is to be read, each has a Tupfile of which a reading is
/// kept, and each owned path is made by a rule.
pub fn finished_is_clean()
    ensures { (next : Next) (known : List Content) (h : GraphState) (tree : Tree)
        → IsKept next tupfiles known h → ((number : ℕ) → is_flagged h number ≡ false)
        → ((path : Names) → finite.get h.seen path ≡ stamp_in tree path)
        → ((path : Names) (owned : Owned) → finite.get h.owned path ≡ Some owned
        → owned.maker ≢ None)
        → h.created ≡ finite.empty → HaveTupfiles (sources_of h tree) h
        → ComeTo (sources_of h tree) (Ok h.rules)
        → IsKnown known → KnowsTree known tree → IsFinished next (sources_of h tree) h tree }
{}

/// A law: after an update that is done nothing is left to do. An update that begins in what it left begins no rule, as none is due
/// there, and removes no file, as each owned path is made by a rule.
pub fn done_leaves_nothing_to_do()
    ensures runs { (next : Next) (old new : World) (ran : List RuleName)
        → ExactlyTheFiles next old new None → All (IsDueName new) ran → ran ≡ [] }
    ensures removes { (next : Next) (old new : World) (removed : List Names)
        → ExactlyTheFiles next old new None → RemovesWhatIsUnmade new removed → removed ≡ [] }
{}

/// A law: and such an update reads no Tupfile, where what was left is kept, and no two of the contents that are known have one stamp.
pub fn done_leaves_nothing_to_read()
    ensures { (next : Next) (known : List Content) (old new : World) (read : List Names)
        → ExactlyTheFiles next old new None → IsKeptWorld next tupfiles known new
        → IsKnown known → KnowsTree known new.tree → ReadsWhatIsDue new read → read ≡ [] }
{}

/// A law: an update that has no rule to run, once its graph is up to date, leaves exactly the files of a clean build.
pub fn prepared_is_finished<S: Site>(site: &S)
    ensures { (next : Next) (first : World) (since : ℕ) (graph : Held) → IsTrue S.tells
        → IsPrepared S.Site.own next first since graph site.now
        → ((number : ℕ) → is_flagged graph.nodes number ≡ false)
        → ExactlyTheFiles next first (S.world site.now) None }
{
    let _ = site;
}

/// A law: so does one whose board has no pending rule at its end, where the board was made once the graph was up to date, and no
/// rule names an output twice.
pub fn done_is_finished<S: Site, R: Runner>(site: &S, runner: &R)
    ensures { (board : BoardState S) (first : World) (since : ℕ) → IsTrue S.tells → IsTrue R.tells
        → IsSound S.Site.own R.Runner.own board
        → (IsTrue (is_fresh board.graph)
        → IsGraphOf (entries_in board.graph.table) board.graph.nodes)
        → IsPrepared S.Site.own R.next first since board.opening.graph board.opening.site
        → ((number : ℕ) (rule : Rule) → slice_get (plan_of board).rules number ≡ Some rule
        → IsDistinct same_path rule.outputs)
        → (IsAcyclic (plan_of board).rules → (number : ℕ) → (state board).pending number ≡ false)
        → ExactlyTheFiles R.next first (S.world board.site) None }
{
    let _ = site;
    let _ = runner;
}

/// A law: and a crash leaves all as it is, the store too, where an update has no rule to run once its graph is up to date.
pub fn prepared_is_settled<S: Site>(site: &S)
    ensures { (next : Next) (first : World) (since : ℕ) (graph : Held) → IsTrue S.tells
        → IsPrepared S.Site.own next first since graph site.now
        → ((number : ℕ) → is_flagged graph.nodes number ≡ false)
        → IsSettled S.Site.own site.now }
{
    let _ = site;
}

/// A law: so it does at the end of a board that has no pending rule.
pub fn done_is_settled<S: Site, R: Runner>(site: &S, runner: &R)
    ensures { (board : BoardState S) (first : World) (since : ℕ) → IsTrue S.tells → IsTrue R.tells
        → IsSound S.Site.own R.Runner.own board
        → (IsTrue (is_fresh board.graph)
        → IsGraphOf (entries_in board.graph.table) board.graph.nodes)
        → IsPrepared S.Site.own R.next first since board.opening.graph board.opening.site
        → ((number : ℕ) (rule : Rule) → slice_get (plan_of board).rules number ≡ Some rule
        → IsDistinct same_path rule.outputs)
        → (IsAcyclic (plan_of board).rules → (number : ℕ) → (state board).pending number ≡ false)
        → IsSettled S.Site.own board.site }
{
    let _ = site;
    let _ = runner;
}
