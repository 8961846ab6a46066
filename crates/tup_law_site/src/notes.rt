//! A scan that is noted and a swap of rules, over a kept site.
ghost use Rattle.std.specs.Prelude.{◌≡◌, ℕ, true, List, Option, All, Contains, IsTrue, option_to_list};
ghost use Rattle.std.specs.FinMap as finite;
ghost use Rattle.tup_path.specs.Name.{Names, Content};
ghost use Rattle.tup_site.specs.World.{World};
ghost use Rattle.tup_stamp.specs.declared.Stamp.{Stamp};
ghost use Rattle.tup_rule.specs.declared.question.Reading.{Reading};
ghost use Rattle.tup_rule.specs.declared.rule.Rule.{Rule};
ghost use Rattle.tup_runner.specs.Next.{Next};
ghost use Rattle.tup_graph.specs.Graph.{GraphState, is_owned};
ghost use Rattle.tup_graph.specs.Kept.{AgreesWithSeen, IsGraphIn, IsKeptSite};
ghost use Rattle.tup_graph.specs.Reach.{stamp_in};
ghost use Rattle.tup_graph.specs.Records.{Language};
ghost use Rattle.tup_stored_graph.specs.Held.{Held};
ghost use Rattle.tup_law_graph.specs.Fitting.{AreFitting, FitsTogether};
ghost use Rattle.tup_commit.specs.Crash.{LeavesNoted, LeavesScanned, LeavesSwapped};
ghost use Rattle.tup_law_site.specs.Over.{StandsOver};

use tup_site::Site;

/// A law: noting a scan keeps a kept site, whatever it found and answers, at every moment, where what it found in tup.config is
/// known. So does a swap that brings true readings of the sources that are seen, and the rules that linking gives of them, where
/// the files are as they were seen, and what was owned first still is.
pub fn notes_keep_sites<S: Site>(site: &S)
    ensures scan { (next : Next) (language : Language) (known : List Content) (first : World)
        (since : ℕ) (graph : Held) (new : S) (files : List (Names × Stamp))
        (config : Option Content) → IsTrue S.tells
        → StandsOver S.Site.own next language known first since graph site.now
        → All (Contains known) (option_to_list config)
        → LeavesScanned S.moment S.left_since site.now new graph.nodes files config
        → IsKeptSite next language known first (S.left_since new since) }
    ensures swap { (next : Next) (language : Language) (known : List Content) (first : World)
        (since : ℕ) (graph : Held) (new : S) (fresh : List (Names × Reading)) (gone : List Names)
        (rules : List Rule) → IsTrue S.tells
        → StandsOver S.Site.own next language known first since graph site.now
        → AreFitting language known graph.nodes fresh gone rules
        → ((path : Names) → finite.get graph.nodes.seen path
        ≡ stamp_in (S.world site.now).tree path)
        → ((was : GraphState) (path : Names) → IsGraphIn first.store was
        → is_owned was path ≡ true → is_owned graph.nodes path ≡ true)
        → LeavesSwapped S.moment S.left_since site.now new graph.nodes fresh gone rules
        → IsKeptSite next language known first (S.left_since new since) }
{
    let _ = site;
}

/// A law: whatever graph stood in the store, each world that a crash since the call began may leave has that one, or, of a scan,
/// one that agrees with the files that it found, and, of a swap, one whose readings and rules fit together.
pub fn notes_leave_fitting<S: Site>(site: &S)
    ensures scan { (known : List Content) (g : GraphState) (new : S) (files : List (Names × Stamp))
        (config : Option Content) → All (Contains known) (option_to_list config)
        → LeavesScanned S.moment S.left_since site.now new g files config
        → LeavesNoted S.moment S.left_since site.now new g (AgreesWithSeen known) }
    ensures swap { (language : Language) (known : List Content) (g : GraphState) (new : S)
        (fresh : List (Names × Reading)) (gone : List Names) (rules : List Rule)
        → AreFitting language known g fresh gone rules
        → LeavesSwapped S.moment S.left_since site.now new g fresh gone rules
        → LeavesNoted S.moment S.left_since site.now new g (FitsTogether language known) }
{
    let _ = site;
}
