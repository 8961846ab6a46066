//! That the laws of the core hold of a kept graph.
ghost use Rattle.std.specs.Prelude.{◌≡◌, ◌≢◌, ℕ, true, List, Some, None, Contains};
ghost use Rattle.std.specs.FinMap as finite;
ghost use Rattle.tup_path.specs.Name.{Names, Content};
ghost use Rattle.tup_path.specs.Tree.{Tree};
ghost use Rattle.tup_stamp.specs.declared.Stamp.{Stamp};
ghost use Rattle.tup_runner.specs.Next.{Next};
ghost use Rattle.tup_graph.specs.Graph.{GraphState, is_flagged, is_rule};
ghost use Rattle.tup_graph.specs.Kept.{IsKept};
ghost use Rattle.tup_graph.specs.Reach.{stamp_in};
ghost use Rattle.tup_graph.specs.Records.{Language};
ghost use Rattle.tup_graph.specs.declared.owned.Owned.{Owned};
ghost use Rattle.tup_law_graph.specs.Linking.{LinksReadings};
ghost use Rattle.tup_core.specs.Honest.{IsKnown};
ghost use Rattle.tup_core.specs.Kept.{IsKept as IsKeptForCore};
ghost use Rattle.tup_core.specs.Planned.{IsPlanned};
ghost use Rattle.tup_core.specs.Step.{is_reached, opening};
ghost use Rattle.tup_core.specs.declared.plan.Plan.{Plan};
ghost use Rattle.tup_law_phases.specs.Planning.{kept_of};

/// A law: what a kept graph keeps is kept in the words of the core, where each flag is that of a rule.
pub fn kept_for_core()
    ensures { (next : Next) (language : Language) (known : List Content) (g : GraphState)
        → LinksReadings language → IsKept next language known g
        → ((number : ℕ) → is_flagged g number ≡ true → is_rule g number ≡ true)
        → IsKeptForCore next known (kept_of g) }
{}

/// A law: an opening is planned over such a graph that has seen the tree, where each owned path has a maker, the
/// plan has the graph's rules and runs just the flagged ones, and the files are those that were seen.
pub fn kept_is_planned()
    ensures { (next : Next) (language : Language) (known : List Content) (g : GraphState)
        (tree : Tree) (plan : Plan) (files : List (Names × Stamp))
        → LinksReadings language → IsKept next language known g
        → ((number : ℕ) → is_flagged g number ≡ true → is_rule g number ≡ true)
        → ((path : Names) → finite.get g.seen path ≡ stamp_in tree path)
        → ((path : Names) (owned : Owned) → finite.get g.owned path ≡ Some owned
        → owned.maker ≢ None)
        → g.rules ≡ plan.rules → ((at : ℕ) → is_reached plan at ≡ is_flagged g at)
        → ((path : Names) → (opening plan files).files path ≡ finite.get g.seen path)
        → IsKnown known → ((path : Names) (content : Content)
        → finite.get tree path ≡ Some content → Contains known content)
        → IsPlanned next known (kept_of g) tree plan files }
{}
