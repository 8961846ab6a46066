//! What holds of a graph that a store stands for.
ghost use Rattle.tup_table.specs.Entries.{Standing};
ghost use Rattle.tup_graph.specs.Graph.{GraphState};
ghost use Rattle.tup_graph.specs.Opening.{IsGraphOf};
ghost use Rattle.tup_closure.specs.Readers.{AreRunsOfRules};

/// A law: where the entries of a table stand for a graph, each record of a run is that of a rule.
pub fn runs_are_of_rules()
    ensures { (entries : Standing) (g : GraphState) → IsGraphOf entries g → AreRunsOfRules g }
{}
