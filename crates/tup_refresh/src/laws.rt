//! Laws of a refresh.
ghost use Rattle.std.specs.Prelude.{◌≡◌, List, None, Some, Ok, Result};
ghost use Rattle.std.specs.FinMap as finite;
ghost use Rattle.tup_path.specs.Name.{Names, Content};
ghost use Rattle.tup_path.specs.Order.{by_names};
ghost use Rattle.tup_path.specs.Tree.{Tree};
ghost use Rattle.tup_site.specs.Known.{IsKnown, KnowsTree};
ghost use Rattle.tup_rule.specs.declared.question.Reading.{Reading as ReadingValue};
ghost use Rattle.tup_readings.specs.Readings.{IsOutcome};
ghost use Rattle.tup_readings.specs.declared.fault.FoldersFault.{FoldersFault};
ghost use Rattle.tup_runner.specs.Next.{Next};
ghost use Rattle.tup_graph.specs.Graph.{GraphState};
ghost use Rattle.tup_graph.specs.Kept.{IsKept};
ghost use Rattle.tup_graph.specs.Records.{Language, IsTrueReading};
ghost use Rattle.tup_refresh.specs.Language.{ReadsTupfiles};
ghost use Rattle.tup_refresh.specs.Refresh.{AreTrue, IsRefresh, readings_of};
ghost use Rattle.tup_refresh.specs.Untouched.{IsUntouched, SeesSources};
ghost use Rattle.tup_refresh.specs.declared.refreshed.Refreshed.{Refreshed as RefreshedValue};

/// A law: a refresh comes to what reading all folders comes to.
pub fn refreshed_as_read()
    ensures { (g : GraphState) (sources : Tree) (result : Result RefreshedValue FoldersFault) →
        IsRefresh g sources result → IsOutcome sources (readings_of result) }
{}

/// A law: true records serve a refresh. A graph whose readings are records of the language of
/// Tupfiles over known contents has true readings, beside sources whose contents are known.
pub fn true_records_serve()
    ensures { (language : Language) (known : List Content) (sources : Tree) (g : GraphState) →
        ReadsTupfiles language → IsKnown known → KnowsTree known sources →
        ((dir : Names) (left : ReadingValue) → finite.get g.readings dir ≡ Some left
        → IsTrueReading language known dir left) → AreTrue sources g }
{}

/// A law: what reading all folders gives is true records. Each reading is one of the language of
/// Tupfiles over known contents, where the contents of the sources are known.
pub fn readings_are_true_records()
    ensures { (language : Language) (known : List Content) (sources : Tree)
        (all : List (Names × ReadingValue)) (dir : Names) (left : ReadingValue) →
        ReadsTupfiles language → KnowsTree known sources → IsOutcome sources (Ok all) →
        finite.get (finite.from_sorted {R = by_names} all) dir ≡ Some left
        → IsTrueReading language known dir left }
{}

/// A law: what flags say. Where a kept graph sees the sources, a folder isn't read that isn't
/// flagged, and from which what was told to kept readings leads to no flagged one.
pub fn untouched_are_not_read()
    ensures { (next : Next) (language : Language) (known : List Content) (g : GraphState)
        (sources : Tree) (given : RefreshedValue) (dir : Names) →
        ReadsTupfiles language → IsKnown known → KnowsTree known sources →
        IsKept next language known g → SeesSources sources g →
        IsRefresh g sources (Ok given) → IsUntouched sources g dir
        → finite.get (finite.from_sorted {R = by_names} given.fresh) dir ≡ None }
{}
