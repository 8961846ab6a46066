//! The calls of a graph over a kept site.
ghost use Rattle.std.specs.Prelude.{◌≡◌, ℕ, ◌≤◌, true, false, None, List, Option, Some, IsTrue};
ghost use Rattle.std.specs.FinMap as finite;
ghost use Rattle.tup_path.specs.Name.{Names, Content};
ghost use Rattle.tup_site.specs.Crash.{GoesOn, NoStep};
ghost use Rattle.tup_site.specs.World.{World, TreeStays};
ghost use Rattle.tup_table.specs.Images.{OpenStep};
ghost use Rattle.tup_stamp.specs.declared.Stamp.{Stamp};
ghost use Rattle.tup_rule.specs.Rule.{among};
ghost use Rattle.tup_rule.specs.declared.rule.Rule.{Rule};
ghost use Rattle.tup_runner.specs.Next.{Next};
ghost use Rattle.tup_record.specs.declared.run.RunRecord.{RunRecord};
ghost use Rattle.tup_graph.specs.declared.owned.Owned.{Owned};
ghost use Rattle.tup_graph.specs.Graph.{is_flagged};
ghost use Rattle.tup_graph.specs.Kept.{AreWithReaders, Asked, EndsWell, IsKeptSite, IsRuleAt, IsUnflagged};
ghost use Rattle.tup_graph.specs.Records.{Language};
ghost use Rattle.tup_graph.specs.Transactions.{begun, finished, with_doomed, with_flagged, with_forgotten};
ghost use Rattle.tup_stored_graph.specs.Crash.{LeavesEither};
ghost use Rattle.tup_stored_graph.specs.Held.{Held};
ghost use Rattle.tup_law_site.specs.Over.{HasNoFile, IsKeptNow, LeftNow, StandsOver, StandWith};

use tup_site::Site;

/// A law: the small transactions keep a kept site, whatever they answer, at every moment: a run of a flagged rule that begins;
/// one that ends well, where each world that a crash then may leave has the files with the stamps that it wrote; owned paths
/// without a maker that become unsure; such paths that are forgotten, where no rule that isn't flagged asked one of them and no
/// world that a crash then may leave has a file there; and rules that are flagged with all that asked their outputs.
pub fn calls_keep_sites<S: Site>(site: &S)
    ensures begin { (next : Next) (language : Language) (known : List Content) (first : World)
        (since : ℕ) (graph : Held) (new : S) (number : ℕ) (rule : Rule) → IsTrue S.tells
        → StandsOver S.Site.own next language known first since graph site.now
        → IsRuleAt graph.nodes number rule → is_flagged graph.nodes number ≡ true
        → LeavesEither S.moment S.left_since site.now new graph.nodes (begun graph.nodes number)
        → IsKeptSite next language known first (S.left_since new since) }
    ensures finish { (next : Next) (language : Language) (known : List Content) (first : World)
        (since : ℕ) (graph : Held) (new : S) (number : ℕ) (rule : Rule) (run : RunRecord)
        → IsTrue S.tells
        → StandsOver S.Site.own next language known first since graph site.now
        → EndsWell next known graph.nodes number rule run
        → StandWith (LeftNow S.Site.own site.now) run.writes
        → LeavesEither S.moment S.left_since site.now new graph.nodes
        (finished graph.nodes number run)
        → IsKeptSite next language known first (S.left_since new since) }
    ensures doom { (next : Next) (language : Language) (known : List Content) (first : World)
        (since : ℕ) (graph : Held) (new : S) (paths : List Names) → IsTrue S.tells
        → StandsOver S.Site.own next language known first since graph site.now
        → ((path : Names) (owned : Owned) → among path paths ≡ true
        → finite.get graph.nodes.owned path ≡ Some owned → owned.maker ≡ None)
        → LeavesEither S.moment S.left_since site.now new graph.nodes
        (with_doomed graph.nodes paths)
        → IsKeptSite next language known first (S.left_since new since) }
    ensures forget { (next : Next) (language : Language) (known : List Content) (first : World)
        (since : ℕ) (graph : Held) (new : S) (paths : List Names) → IsTrue S.tells
        → StandsOver S.Site.own next language known first since graph site.now
        → ((path : Names) → among path paths ≡ true → (owned : Owned)
        × (finite.get graph.nodes.owned path ≡ Some owned) × (owned.maker ≡ None))
        → ((number : ℕ) (rule : Rule) (run : RunRecord) (path : Names) (given : Option Stamp)
        → IsUnflagged graph.nodes number rule → finite.get graph.nodes.runs number ≡ Some run
        → Asked rule run path given → among path paths ≡ false)
        → ((path : Names) → among path paths ≡ true
        → HasNoFile (LeftNow S.Site.own site.now) path)
        → LeavesEither S.moment S.left_since site.now new graph.nodes
        (with_forgotten graph.nodes paths)
        → IsKeptSite next language known first (S.left_since new since) }
    ensures flag { (next : Next) (language : Language) (known : List Content) (first : World)
        (since : ℕ) (graph : Held) (new : S) (rules : List ℕ) → IsTrue S.tells
        → StandsOver S.Site.own next language known first since graph site.now
        → AreWithReaders graph.nodes rules
        → LeavesEither S.moment S.left_since site.now new graph.nodes
        (with_flagged graph.nodes rules)
        → IsKeptSite next language known first (S.left_since new since) }
{
    let _ = site;
}

/// A law: a site that was kept with the world before a call is kept with the one after it, where the call left the files.
pub fn calls_keep_present<S: Site>(site: &S)
    ensures { (next : Next) (language : Language) (known : List Content) (new : S) → IsTrue S.tells
        → S.moment site.now ≤ S.moment new → TreeStays (S.world site.now) (S.world new)
        → IsKeptSite next language known (S.world site.now)
        (S.left_since new (S.moment site.now))
        → IsKeptNow S.Site.own next language known new }
{
    let _ = site;
}

/// A law: a call that adds nothing to what a crash may leave keeps a kept site.
pub fn reads_keep_sites<S: Site>(site: &S)
    ensures { (next : Next) (language : Language) (known : List Content) (first : World)
        (since : ℕ) (new : S) → since ≤ S.moment site.now
        → IsKeptSite next language known first (S.left_since site.now since)
        → GoesOn S.moment S.left_since site.now new NoStep
        → IsKeptSite next language known first (S.left_since new since) }
{
    let _ = site;
}

/// A law: an opening of its store keeps a kept site, whatever it answers, at every moment.
pub fn openings_keep_sites<S: Site>(site: &S)
    ensures { (next : Next) (language : Language) (known : List Content) (first : World)
        (since : ℕ) (new : S) → IsTrue S.tells → since ≤ S.moment site.now
        → IsKeptSite next language known first (S.left_since site.now since)
        → GoesOn S.moment S.left_since site.now new OpenStep
        → IsKeptSite next language known first (S.left_since new since) }
{
    let _ = site;
}
