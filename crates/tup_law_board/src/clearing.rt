//! What a clearing leaves of a kept site.
ghost use Rattle.std.specs.Prelude.{◌≡◌, ℕ, false, List, Ok, Option, Some, IsTrue};
ghost use Rattle.std.specs.FinMap as finite;
ghost use Rattle.tup_path.specs.Name.{Names, Content};
ghost use Rattle.tup_path.specs.Tree.{Tree};
ghost use Rattle.tup_site.specs.World.{World};
ghost use Rattle.tup_stamp.specs.declared.Stamp.{Stamp};
ghost use Rattle.tup_rule.specs.Rule.{among};
ghost use Rattle.tup_rule.specs.declared.rule.Rule.{Rule};
ghost use Rattle.tup_runner.specs.Next.{Next};
ghost use Rattle.tup_record.specs.declared.run.RunRecord.{RunRecord};
ghost use Rattle.tup_project.specs.Project.{ComeTo};
ghost use Rattle.tup_graph.specs.Graph.{GraphState, source};
ghost use Rattle.tup_graph.specs.Kept.{Asked, IsKept, IsKeptSite, IsUnflagged};
ghost use Rattle.tup_graph.specs.Reach.{stamp_in};
ghost use Rattle.tup_graph.specs.Records.{Language};
ghost use Rattle.tup_graph.specs.Transactions.{with_forgotten};
ghost use Rattle.tup_stored_graph.specs.Held.{Held};
ghost use Rattle.tup_law_site.specs.Over.{IsKeptNow, StandsOver};
ghost use Rattle.tup_stale.specs.Cleared.{SparesUsers};
ghost use Rattle.tup_stale.specs.Crash.{ClearStep, LeavesBy};
ghost use Rattle.tup_stale.specs.Files.{SameBeside, without};
ghost use Rattle.tup_stale.specs.Unmade.{standing, unmade};

use tup_site::Site;

/// A law: a clearing of the owned paths that no rule makes any more keeps a kept site, whatever it answers, at every moment,
/// where no rule that isn't flagged asked one of them.
pub fn clearings_keep_sites<S: Site>(site: &S)
    ensures { (next : Next) (language : Language) (known : List Content) (first : World)
        (since : ℕ) (graph : Held) (new : S) → IsTrue S.tells
        → StandsOver S.Site.own next language known first since graph site.now
        → ((number : ℕ) (rule : Rule) (run : RunRecord) (path : Names) (given : Option Stamp)
        → IsUnflagged graph.nodes number rule → finite.get graph.nodes.runs number ≡ Some run
        → Asked rule run path given → among path (unmade graph.nodes) ≡ false)
        → LeavesBy S.moment S.left_since site.now new
        (ClearStep graph.nodes (unmade graph.nodes)
        (standing (S.world site.now).tree (unmade graph.nodes)) (S.world site.now).tree)
        → IsKeptSite next language known first (S.left_since new since) }
{
    let _ = site;
}

/// A law: and as it is then the site is kept, whatever the clearing answered.
pub fn clearings_leave_kept<S: Site>(site: &S)
    ensures { (next : Next) (language : Language) (known : List Content) (graph now : Held)
        (new : S) → IsTrue S.tells
        → StandsOver S.Site.own next language known (S.world site.now) (S.moment site.now)
        graph site.now
        → ((number : ℕ) (rule : Rule) (run : RunRecord) (path : Names) (given : Option Stamp)
        → IsUnflagged graph.nodes number rule → finite.get graph.nodes.runs number ≡ Some run
        → Asked rule run path given → among path (unmade graph.nodes) ≡ false)
        → SameBeside (standing (S.world site.now).tree (unmade graph.nodes))
        (S.world site.now).tree (S.world new).tree
        → SparesUsers S.world S.moment S.left_since (unmade graph.nodes)
        graph now site.now new
        → LeavesBy S.moment S.left_since site.now new
        (ClearStep graph.nodes (unmade graph.nodes)
        (standing (S.world site.now).tree (unmade graph.nodes)) (S.world site.now).tree)
        → IsKeptNow S.Site.own next language known new }
{
    let _ = site;
}

/// A law: no rule that isn't flagged asked such a path in a kept graph whose rules are those to which the sources come that it sees.
pub fn unmade_are_not_asked()
    ensures { (next : Next) (language : Language) (known : List Content) (g : GraphState)
        (sources : Tree) (number : ℕ) (rule : Rule) (run : RunRecord) (path : Names)
        (given : Option Stamp) → IsKept next language known g
        → ComeTo sources (Ok g.rules) → ((q : Names) → source g q ≡ stamp_in sources q)
        → IsUnflagged g number rule → finite.get g.runs number ≡ Some run
        → Asked rule run path given → among path (unmade g) ≡ false }
{}

/// A law: a graph that saw the files of a tree sees those that are left where the files at these paths are cleared, once it
/// forgot the paths.
pub fn cleared_are_unseen()
    ensures { (g : GraphState) (tree : Tree) (path : Names)
        → ((q : Names) → finite.get g.seen q ≡ stamp_in tree q)
        → finite.get (with_forgotten g (unmade g)).seen path
        ≡ stamp_in (without tree (standing tree (unmade g))) path }
{}
