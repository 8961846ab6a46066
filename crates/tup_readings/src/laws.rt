//! Laws of the readings of all folders.
ghost use Rattle.std.specs.Prelude.{List, Result};
ghost use Rattle.tup_path.specs.Name.{Names};
ghost use Rattle.tup_path.specs.Tree.{Tree};
ghost use Rattle.tup_rule.specs.declared.question.Reading.{Reading as ReadingValue};
ghost use Rattle.tup_readings.specs.declared.fault.FoldersFault.{FoldersFault};
ghost use Rattle.tup_readings.specs.Readings.{IsOutcome};
ghost use Rattle.tup_readings.specs.Laws.{AreAlike};

/// What comes of reading all folders of some sources is one thing, want of memory aside: there is
/// one list of readings, or one fault that is met first, or one circle, and never two of these.
pub fn one_outcome()
    ensures { (sources : Tree) (one other : Result (List (Names × ReadingValue)) FoldersFault) →
        IsOutcome sources one → IsOutcome sources other → AreAlike one other }
{}
