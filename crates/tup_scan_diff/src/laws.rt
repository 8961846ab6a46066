//! What the edits of a scan do.
ghost use Rattle.std.specs.Prelude.{ℕ, List, Option, All};
ghost use Rattle.tup_path.specs.Name.{Names, Content};
ghost use Rattle.tup_stamp.specs.declared.Stamp.{Stamp};
ghost use Rattle.tup_table.specs.Entries.{Standing, IsAscending};
ghost use Rattle.tup_graph.specs.Changes.{once_made};
ghost use Rattle.tup_graph.specs.Edits.{edited_by, HasSpelling};
ghost use Rattle.tup_graph.specs.Graph.{GraphState};
ghost use Rattle.tup_graph.specs.Opening.{IsGraphOf};
ghost use Rattle.tup_graph.specs.Scan.{IsScanned};
ghost use Rattle.tup_graph.specs.declared.edit.Edit.{Edit as EditValue};
ghost use Rattle.tup_scan_diff.specs.Edits.{AreScanEdits};

/// A law: the edits of a scan leave the graph that a scan leaves.
pub fn scan_edits_leave()
    ensures { (g : GraphState) (files : List (Names × Stamp)) (config : Option Content)
        (edits : List EditValue) → AreScanEdits g files config edits
        → IsScanned g files config (edited_by g edits) }
{}

/// A law: a table whose entries stand for a graph stands for what the edits of a scan leave once it took what they change,
/// where they have spellings.
pub fn scan_edits_are_read()
    ensures { (entries : Standing) (g : GraphState) (files : List (Names × Stamp))
        (config : Option Content) (edits : List EditValue) (origin : ℕ)
        → IsAscending entries → IsGraphOf entries g → AreScanEdits g files config edits
        → All HasSpelling edits
        → IsGraphOf (once_made origin entries edits) (edited_by g edits) }
{}
