//! That what a refresh and linking bring may be swapped in.
ghost use Rattle.std.specs.Prelude.{List, Ok, map};
ghost use Rattle.std.specs.List.{IsDistinct};
ghost use Rattle.tup_path.specs.Order.{same_path};
ghost use Rattle.tup_path.specs.Tree.{Tree};
ghost use Rattle.tup_rule.specs.declared.rule.Rule.{Rule};
ghost use Rattle.tup_project.specs.Project.{AreLinked};
ghost use Rattle.tup_graph.specs.Graph.{GraphState};
ghost use Rattle.tup_rule_diff.specs.Edits.{dir_of};
ghost use Rattle.tup_rule_diff.specs.Order.{AreByFolder};
ghost use Rattle.tup_refresh.specs.Refresh.{AreSorted, IsRefresh};
ghost use Rattle.tup_refresh.specs.declared.refreshed.Refreshed.{Refreshed};

/// A law: a refresh reads each folder once, and what it gives links to rules in the order of their folders.
/// So a swap may be called with these.
pub fn refreshed_may_be_swapped()
    ensures { (g : GraphState) (sources : Tree) (given : Refreshed) (rules : List Rule)
        → IsRefresh g sources (Ok given) → AreLinked given.all rules
        → IsDistinct same_path (map dir_of given.fresh) × AreByFolder rules }
{}

/// A law: the same of readings of which only their order is known, whatever sources they are of.
pub fn sorted_may_be_swapped()
    ensures { (given : Refreshed) (rules : List Rule) → AreSorted given → AreLinked given.all rules
        → IsDistinct same_path (map dir_of given.fresh) × AreByFolder rules }
{}
