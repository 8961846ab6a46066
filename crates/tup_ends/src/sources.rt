//! The sources stay, whatever an update answers and whatever its commands mean.
ghost use Rattle.std.specs.Prelude.{◌≤◌, List, IsTrue};
ghost use Rattle.tup_path.specs.Name.{Content};
ghost use Rattle.tup_runner.specs.Next.{Next};
ghost use Rattle.tup_graph.specs.Kept.{IsKeptSite};
ghost use Rattle.tup_board.specs.Board.{BoardState};
ghost use Rattle.tup_board.specs.Sound.{IsSound};
ghost use Rattle.tup_law_phases.specs.Language.{tupfiles};
ghost use Rattle.tup_promise.specs.Crashes.{SourcesStay};
ghost use Rattle.tup_promise.specs.Prepared.{IsPrepared};

use tup_runner::Runner;
use tup_site::Site;

/// A law: a site that is kept, whenever a crash comes, has kept its sources.
pub fn kept_sites_keep_sources<S: Site>(site: &S)
    ensures { (next : Next) (known : List Content) (old new : S)
        → S.moment old ≤ S.moment new
        → IsKeptSite next tupfiles known (S.world old) (S.left_since new (S.moment old))
        → SourcesStay S.Site.own old new }
{
    let _ = site;
}

/// A law: so has a site on which a board works that was made once the graph was up to date, whatever its runner is.
pub fn boards_leave_sources<S: Site, R: Runner>(site: &S, runner: &R)
    ensures { (next : Next) (board : BoardState S) (old : S) → IsTrue S.tells
        → IsSound S.Site.own R.Runner.own board
        → IsPrepared S.Site.own next (S.world old) (S.moment old)
        board.opening.graph board.opening.site
        → SourcesStay S.Site.own old board.site }
{
    let _ = site;
    let _ = runner;
}
