//! What holds of the flags of a graph.
ghost use Rattle.std.specs.Prelude.{◌≡◌, ℕ, true, List};
ghost use Rattle.tup_path.specs.Name.{Content};
ghost use Rattle.tup_runner.specs.Next.{Next};
ghost use Rattle.tup_table.specs.Entries.{Standing};
ghost use Rattle.tup_graph.specs.Graph.{GraphState, is_flagged};
ghost use Rattle.tup_graph.specs.Kept.{IsKept};
ghost use Rattle.tup_graph.specs.Opening.{IsGraphOf};
ghost use Rattle.tup_graph.specs.Records.{Language};
ghost use Rattle.tup_closure.specs.Readers.{AreRunsOfRules};
ghost use Rattle.tup_partial.specs.Plan.{AreFlagsOfRules, IsToRun};

/// A law: where the entries of a table stand for a graph, each flag is that of a rule.
pub fn flags_are_of_rules()
    ensures { (entries : Standing) (g : GraphState) → IsGraphOf entries g → AreFlagsOfRules g }
{}

/// A law: in a kept graph just the flagged rules are to be run.
pub fn kept_reach_is_flagged()
    ensures { (next : Next) (language : Language) (known : List Content) (g : GraphState)
        (number : ℕ) → IsKept next language known g → AreRunsOfRules g → IsToRun g number
        → is_flagged g number ≡ true }
{}
