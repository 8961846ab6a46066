//! What a board leaves of a kept site.
ghost use Rattle.std.specs.Prelude.{◌≡◌, ℕ, List, None, Some, IsTrue};
ghost use Rattle.std.specs.FinMap as finite;
ghost use Rattle.tup_path.specs.Name.{Names, Content};
ghost use Rattle.tup_site.specs.World.{World};
ghost use Rattle.tup_runner.specs.Next.{Next};
ghost use Rattle.tup_table.specs.Table.{entries_in};
ghost use Rattle.tup_graph.specs.Graph.{GraphState};
ghost use Rattle.tup_graph.specs.Kept.{IsGraphIn, IsKeptSite};
ghost use Rattle.tup_graph.specs.Opening.{IsGraphOf};
ghost use Rattle.tup_graph.specs.Reach.{stamp_in};
ghost use Rattle.tup_graph.specs.Records.{Language};
ghost use Rattle.tup_rule_outputs.specs.Lost.{Lost};
ghost use Rattle.tup_board.specs.Board.{BoardState, first_graph, plan_of, state};
ghost use Rattle.tup_board.specs.Outputs.{IsPending};
ghost use Rattle.tup_board.specs.Sound.{IsSound, Since};
ghost use Rattle.tup_law_site.specs.Over.{IsKeptNow, StandsOver};
ghost use Rattle.tup_law_board.specs.Beside.{StaysBeside};
ghost use Rattle.tup_law_board.specs.Kept.{HoldsTogether};

use tup_runner::Runner;
use tup_site::Site;

/// A law: where a board was made over a kept site, each world that a crash since then may leave has the sources that the site had,
/// and in it an owned path that isn't unsure holds what it held then, or is written with the stamp of what it holds. So has the
/// site as it is, which a crash may leave too.
pub fn boards_keep_sources<S: Site, R: Runner>(site: &S, runner: &R)
    ensures { (next : Next) (language : Language) (known : List Content) (board : BoardState S)
        (w : World) (g : GraphState) → IsTrue S.tells
        → IsSound S.Site.own R.Runner.own board
        → IsGraphOf (entries_in board.opening.graph.table) (first_graph board)
        → IsKeptNow S.Site.own next language known board.opening.site
        → Since S.Site.own board w → IsGraphIn w.store g
        → StaysBeside (S.world board.opening.site) (first_graph board) w g }
{
    let _ = site;
    let _ = runner;
}

/// A law: a site that was kept at some moment, and over which the board's graph stood, stays so, in each world that a crash since
/// that moment may leave, where the board's runner tells what commands mean, and the board holds together: each owned path of its
/// graph has a maker, and no rule names an output twice. So it is since the moment at which the board was made.
pub fn boards_keep_sites<S: Site, R: Runner>(site: &S, runner: &R)
    ensures since { (language : Language) (board : BoardState S) (first : World) (moment : ℕ)
        → IsTrue S.tells → IsTrue R.tells → IsSound S.Site.own R.Runner.own board
        → HoldsTogether board
        → StandsOver S.Site.own R.next language (S.known board.opening.site) first moment
        board.opening.graph board.opening.site
        → IsKeptSite R.next language (S.known board.site) first (S.left_since board.site moment) }
    ensures made { (language : Language) (board : BoardState S) → IsTrue S.tells → IsTrue R.tells
        → IsSound S.Site.own R.Runner.own board
        → IsGraphOf (entries_in board.opening.graph.table) (first_graph board)
        → HoldsTogether board
        → IsKeptNow S.Site.own R.next language (S.known board.opening.site) board.opening.site
        → IsKeptSite R.next language (S.known board.site) (S.world board.opening.site)
        (Since S.Site.own board) }
{
    let _ = site;
    let _ = runner;
}

/// A law: and as it is the site is kept, where no commit was lost.
pub fn boards_leave_kept<S: Site, R: Runner>(site: &S, runner: &R)
    ensures { (language : Language) (board : BoardState S) → IsTrue S.tells → IsTrue R.tells
        → IsSound S.Site.own R.Runner.own board → board.lost ≡ None
        → IsGraphOf (entries_in board.opening.graph.table) (first_graph board)
        → IsGraphOf (entries_in board.graph.table) board.graph.nodes → HoldsTogether board
        → IsKeptNow S.Site.own R.next language (S.known board.opening.site) board.opening.site
        → IsKeptNow S.Site.own R.next language (S.known board.site) board.site }
{
    let _ = site;
    let _ = runner;
}

/// A law: and so it is where a commit was lost, whether or not the store has it.
pub fn lost_boards_leave_kept<S: Site, R: Runner>(site: &S, runner: &R)
    ensures { (language : Language) (board : BoardState S) (commit : Lost) → IsTrue S.tells
        → IsTrue R.tells → IsSound S.Site.own R.Runner.own board → board.lost ≡ Some commit
        → IsGraphOf (entries_in board.opening.graph.table) (first_graph board)
        → HoldsTogether board
        → IsKeptNow S.Site.own R.next language (S.known board.opening.site) board.opening.site
        → IsKeptNow S.Site.own R.next language (S.known board.site) board.site }
{
    let _ = site;
    let _ = runner;
}

/// A law: and what its graph has seen are the files of the tree, the outputs of pending rules aside, where no commit was lost.
pub fn boards_have_seen<S: Site, R: Runner>(site: &S, runner: &R)
    ensures { (language : Language) (board : BoardState S) (first : World) (moment : ℕ)
        (path : Names) → IsTrue S.tells → IsTrue R.tells → board.lost ≡ None
        → IsSound S.Site.own R.Runner.own board → HoldsTogether board
        → StandsOver S.Site.own R.next language (S.known board.opening.site) first moment
        board.opening.graph board.opening.site
        → (IsPending (plan_of board) (state board) path → ⊥)
        → finite.get board.graph.nodes.seen path ≡ stamp_in (S.world board.site).tree path }
{
    let _ = site;
    let _ = runner;
}
