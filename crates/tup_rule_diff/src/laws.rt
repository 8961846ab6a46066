//! What the edits of a swap do.
ghost use Rattle.std.specs.Prelude.{ℕ, List, All, map};
ghost use Rattle.std.specs.List.{IsDistinct};
ghost use Rattle.tup_path.specs.Name.{Names};
ghost use Rattle.tup_path.specs.Order.{same_path};
ghost use Rattle.tup_rule.specs.declared.question.Reading.{Reading};
ghost use Rattle.tup_rule.specs.declared.rule.Rule.{Rule as RuleValue};
ghost use Rattle.tup_table.specs.Entries.{Standing, IsAscending};
ghost use Rattle.tup_graph.specs.Changes.{once_made};
ghost use Rattle.tup_graph.specs.Edits.{edited_by, HasSpelling};
ghost use Rattle.tup_graph.specs.Graph.{GraphState};
ghost use Rattle.tup_graph.specs.Opening.{IsGraphOf};
ghost use Rattle.tup_graph.specs.Swap.{IsSwapped};
ghost use Rattle.tup_graph.specs.declared.edit.Edit.{Edit as EditValue};
ghost use Rattle.tup_rule_diff.specs.Edits.{AreSwapEdits, IsLed, dir_of};
ghost use Rattle.tup_rule_diff.specs.Order.{AreByFolder};

/// A law: the edits of a swap leave the graph that a swap leaves, where no folder was read twice.
pub fn swap_edits_leave()
    ensures { (entries : Standing) (g : GraphState) (fresh : List (Names × Reading))
        (gone : List Names) (rules : List RuleValue) (edits : List EditValue)
        → IsGraphOf entries g → AreSwapEdits g fresh gone rules edits
        → IsDistinct same_path (map dir_of fresh)
        → IsSwapped g fresh gone rules (edited_by g edits) }
{}

/// A law: they leave a graph of the rules with the records that they keep.
pub fn swap_edits_lead()
    ensures { (entries : Standing) (g : GraphState) (fresh : List (Names × Reading))
        (gone : List Names) (rules : List RuleValue) (edits : List EditValue)
        → IsGraphOf entries g → AreSwapEdits g fresh gone rules edits
        → IsLed g rules (edited_by g edits) }
{}

/// A law: a table whose entries stand for a graph stands for what the edits of a swap leave once it took what they change,
/// where they have spellings, and the rules are in the order of their folders.
pub fn swap_edits_are_read()
    ensures { (entries : Standing) (g : GraphState) (fresh : List (Names × Reading))
        (gone : List Names) (rules : List RuleValue) (edits : List EditValue) (origin : ℕ)
        → IsAscending entries → IsGraphOf entries g → AreSwapEdits g fresh gone rules edits
        → AreByFolder rules → All HasSpelling edits
        → IsGraphOf (once_made origin entries edits) (edited_by g edits) }
{}
