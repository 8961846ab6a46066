//! What edits do: read again, a table that took them stands for the graph that they leave.
ghost use Rattle.std.specs.Prelude.{◌≡◌, ℕ, true, false, List, Option, All, map};
ghost use Rattle.std.specs.FinMap as finite;
ghost use Rattle.tup_rule.specs.Rule.{among};
ghost use Rattle.tup_rule.specs.declared.rule.Rule.{Rule as RuleValue};
ghost use Rattle.tup_runner.specs.Next.{Next};
ghost use Rattle.tup_stamp.specs.declared.Stamp.{Stamp};
ghost use Rattle.tup_path.specs.Name.{Names, Content};
ghost use Rattle.tup_record.specs.declared.run.RunRecord.{RunRecord};
ghost use Rattle.tup_table.specs.Entries.{Standing, IsAscending, committed};
ghost use Rattle.tup_graph.specs.declared.edit.Edit.{Edit as EditValue};
ghost use Rattle.tup_graph.specs.Graph.{GraphState, is_rule, is_flagged};
ghost use Rattle.tup_graph.specs.declared.owned.Owned.{Owned as OwnedValue};
ghost use Rattle.tup_graph.specs.Kept.{AreWithReaders, Asked, EndsWell, IsKept, IsRuleAt, IsUnflagged};
ghost use Rattle.tup_graph.specs.Records.{Language};
ghost use Rattle.tup_graph.specs.Opening.{IsBroken, IsGraphOf};
ghost use Rattle.tup_table.specs.declared.change.Change.{Change};
ghost use Rattle.tup_graph.specs.Changes.{needed, once_made};
ghost use Rattle.tup_graph.specs.Edits.{edited_by, change_of, IsTaken, AreTakenInTurn, HasSpelling};
ghost use Rattle.tup_graph.specs.Transactions.{begin_edits, begun, finish_edits, finished, doom_edits, with_doomed, forget_edits, with_forgotten, flag_edits, with_flagged};

/// A law: entries stand for one graph at most, and for none where they are broken.
pub fn reads_one_way()
    ensures one { (entries : Standing) (g h : GraphState) → IsGraphOf entries g
        → IsGraphOf entries h → g ≡ h }
    ensures none { (entries : Standing) (g : GraphState) (offset : ℕ)
        → IsGraphOf entries g → IsBroken entries offset → ⊥ }
{}

/// A law: where the entries of a table stand for a graph, those that edits leave stand for the graph that they leave.
pub fn edits_are_read()
    ensures { (entries : Standing) (g : GraphState) (edits : List EditValue) (origin : ℕ)
        → IsAscending entries → IsGraphOf entries g → All (IsTaken g) edits
        → IsGraphOf (committed origin entries (map change_of edits)) (edited_by g edits) }
{}

/// A law: the same of edits that are taken in turn, rules among them.
pub fn edits_in_turn_are_read()
    ensures { (entries : Standing) (g : GraphState) (edits : List EditValue) (origin : ℕ)
        → IsAscending entries → IsGraphOf entries g → AreTakenInTurn g edits
        → IsGraphOf (committed origin entries (map change_of edits)) (edited_by g edits) }
{}

/// A law: a table that takes only the changes that are needed stands for the graph that it would stand for with all.
pub fn needed_changes_are_enough()
    ensures { (entries : Standing) (all : List Change) (origin : ℕ) (g : GraphState)
        → IsAscending entries → IsGraphOf (committed origin entries all) g
        → IsGraphOf (committed origin entries (needed entries all)) g }
{}

/// A law: what the edits of each transaction leave of a graph.
pub fn transactions_leave()
    ensures begin { (g : GraphState) (rule : ℕ)
        → edited_by g (begin_edits g rule) ≡ begun g rule }
    ensures finish { (g : GraphState) (rule : ℕ) (run : RunRecord)
        → edited_by g (finish_edits g rule run) ≡ finished g rule run }
    ensures doom { (g : GraphState) (paths : List Names)
        → edited_by g (doom_edits g paths) ≡ with_doomed g paths }
    ensures forget { (g : GraphState) (paths : List Names)
        → edited_by g (forget_edits g paths) ≡ with_forgotten g paths }
    ensures flag { (g : GraphState) (rules : List ℕ)
        → edited_by g (flag_edits rules) ≡ with_flagged g rules }
{}

/// A law: where the entries of a table stand for a graph, those that the edits of a transaction leave, once made, stand
/// for the graph that the transaction leaves: that of the edits of a rule where it is one, and of what has a spelling.
pub fn transactions_are_read()
    ensures begin { (entries : Standing) (g : GraphState) (origin rule : ℕ)
        → IsAscending entries → IsGraphOf entries g → is_rule g rule ≡ true
        → All HasSpelling (begin_edits g rule)
        → IsGraphOf (once_made origin entries (begin_edits g rule)) (begun g rule) }
    ensures finish { (entries : Standing) (g : GraphState) (origin rule : ℕ) (run : RunRecord)
        → IsAscending entries → IsGraphOf entries g → is_rule g rule ≡ true
        → All HasSpelling (finish_edits g rule run)
        → IsGraphOf (once_made origin entries (finish_edits g rule run)) (finished g rule run) }
    ensures doom { (entries : Standing) (g : GraphState) (origin : ℕ) (paths : List Names)
        → IsAscending entries → IsGraphOf entries g → All HasSpelling (doom_edits g paths)
        → IsGraphOf (once_made origin entries (doom_edits g paths)) (with_doomed g paths) }
    ensures forget { (entries : Standing) (g : GraphState) (origin : ℕ) (paths : List Names)
        → IsAscending entries → IsGraphOf entries g → All HasSpelling (forget_edits g paths)
        → IsGraphOf (once_made origin entries (forget_edits g paths)) (with_forgotten g paths) }
    ensures flag { (entries : Standing) (g : GraphState) (origin : ℕ) (rules : List ℕ)
        → IsAscending entries → IsGraphOf entries g → All (λ rule. is_rule g rule ≡ true) rules
        → All HasSpelling (flag_edits rules)
        → IsGraphOf (once_made origin entries (flag_edits rules)) (with_flagged g rules) }
{}

/// A law: what keeps a kept graph: a run of a flagged rule that begins, and one that ends well; owned paths without a maker
/// that become unsure; such paths that are forgotten, where no rule that isn't flagged asked one of them; and rules that are
/// flagged with all that asked their outputs.
pub fn stays_kept()
    ensures begin { (next : Next) (language : Language) (known : List Content)
        (g : GraphState) (number : ℕ) (rule : RuleValue)
        → IsKept next language known g → IsRuleAt g number rule → is_flagged g number ≡ true
        → IsKept next language known (begun g number) }
    ensures finish { (next : Next) (language : Language) (known : List Content)
        (g : GraphState) (number : ℕ) (rule : RuleValue)
        (run : RunRecord) → IsKept next language known g → EndsWell next known g number rule run
        → IsKept next language known (finished g number run) }
    ensures doom { (next : Next) (language : Language) (known : List Content)
        (g : GraphState) (paths : List Names)
        → IsKept next language known g
        → ((path : Names) (o : OwnedValue) → among path paths ≡ true
        → finite.get g.owned path ≡ Some o → o.maker ≡ None)
        → IsKept next language known (with_doomed g paths) }
    ensures forget { (next : Next) (language : Language) (known : List Content)
        (g : GraphState) (paths : List Names)
        → IsKept next language known g
        → ((path : Names) → among path paths ≡ true
        → (o : OwnedValue) × (finite.get g.owned path ≡ Some o) × (o.maker ≡ None))
        → ((number : ℕ) (rule : RuleValue) (run : RunRecord) (path : Names) (given : Option Stamp)
        → IsUnflagged g number rule → finite.get g.runs number ≡ Some run
        → Asked rule run path given
        → among path paths ≡ false)
        → IsKept next language known (with_forgotten g paths) }
    ensures flag { (next : Next) (language : Language) (known : List Content)
        (g : GraphState) (rules : List ℕ)
        → IsKept next language known g → AreWithReaders g rules
        → IsKept next language known (with_flagged g rules) }
{}
