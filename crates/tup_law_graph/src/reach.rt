//! Which rules an update has to run.
ghost use Rattle.std.specs.Prelude.{◌≡◌, ◌↔◌, ℕ, true, false, List, Option, Ok};
ghost use Rattle.std.specs.FinMap as finite;
ghost use Rattle.tup_path.specs.Name.{Names, Content};
ghost use Rattle.tup_path.specs.Tree.{Tree};
ghost use Rattle.tup_stamp.specs.declared.Stamp.{Stamp};
ghost use Rattle.tup_rule.specs.declared.question.Reading.{Reading};
ghost use Rattle.tup_rule.specs.declared.rule.Rule.{Rule};
ghost use Rattle.tup_runner.specs.Next.{Next};
ghost use Rattle.tup_project.specs.Project.{ComeTo};
ghost use Rattle.tup_graph.specs.Graph.{GraphState, is_flagged, is_rule, source};
ghost use Rattle.tup_graph.specs.Kept.{IsKept, IsRuleAt};
ghost use Rattle.tup_graph.specs.Reach.{stamp_in, IsReached};
ghost use Rattle.tup_graph.specs.Records.{Language};
ghost use Rattle.tup_graph.specs.Scan.{IsScanned};
ghost use Rattle.tup_graph.specs.Swap.{IsSwapped};
ghost use Rattle.tup_closure.specs.Readers.{AreRunsOfRules};
ghost use Rattle.tup_law_graph.specs.Linking.{LinksReadings};

/// A law: nothing is reached of the rules of a kept graph that has run all of them, over a tree that is as it was seen.
pub fn nothing_is_reached()
    ensures { (next : Next) (language : Language) (known : List Content) (g : GraphState)
        (tree : Tree) (at : ℕ) → IsKept next language known g
        → ((number : ℕ) (rule : Rule) → IsRuleAt g number rule → is_flagged g number ≡ false)
        → ((path : Names) → finite.get g.seen path ≡ stamp_in tree path)
        → IsReached g tree g.rules at → ⊥ }
{}

/// A law: nor is any of the rules to which sources come, where those of the graph are such: after a finish of all that was to
/// be run nothing is left to run.
pub fn nothing_is_left()
    ensures { (next : Next) (language : Language) (known : List Content) (g : GraphState)
        (tree sources : Tree) (rules : List Rule) (at : ℕ) → IsKept next language known g
        → ((number : ℕ) (rule : Rule) → IsRuleAt g number rule → is_flagged g number ≡ false)
        → ((path : Names) → finite.get g.seen path ≡ stamp_in tree path)
        → ComeTo sources (Ok g.rules) → ComeTo sources (Ok rules)
        → IsReached g tree rules at → ⊥ }
{}

/// A law: after a scan that found a tree, and a swap that brings the rules of the sources in it, just those rules are
/// flagged that are reached from the graph that was kept before both, where its language links as projects are linked.
pub fn flagged_is_reached()
    ensures { (next : Next) (language : Language) (known : List Content)
        (g scanned swapped : GraphState) (files : List (Names × Stamp)) (config : Option Content)
        (fresh : List (Names × Reading)) (gone : List Names) (rules : List Rule)
        (tree sources : Tree) (number : ℕ)
        → LinksReadings language → IsKept next language known g
        → IsScanned g files config scanned
        → ((path : Names) → finite.get scanned.seen path ≡ stamp_in tree path)
        → ((path : Names) → source scanned path ≡ stamp_in sources path)
        → ComeTo sources (Ok rules) → IsSwapped scanned fresh gone rules swapped
        → (is_flagged swapped number ≡ true) ↔ IsReached g tree rules number }
{}

/// A law: after a scan that found a tree, just those rules of a kept graph are flagged that are reached from it, where its
/// language links as projects are linked, and where each flag and each record of a run is that of a rule.
pub fn scanned_is_reached()
    ensures { (next : Next) (language : Language) (known : List Content)
        (g scanned : GraphState) (files : List (Names × Stamp)) (config : Option Content)
        (tree : Tree) (number : ℕ)
        → LinksReadings language → IsKept next language known g
        → ((at : ℕ) → is_flagged g at ≡ true → is_rule g at ≡ true) → AreRunsOfRules g
        → IsScanned g files config scanned
        → ((path : Names) → finite.get scanned.seen path ≡ stamp_in tree path)
        → (is_flagged scanned number ≡ true) ↔ IsReached g tree g.rules number }
{}
