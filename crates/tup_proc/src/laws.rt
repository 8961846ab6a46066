//! What holds of logs and their spelling.
ghost use Rattle.std.specs.Prelude.{◌≡◌, List, ℕ};
ghost use Rattle.tup_proc.specs.Log.{spelling, IsLog, IsBadAt};
ghost use Rattle.tup_proc.specs.declared.line.LogLine.{LogLine as LineOfLog};

/// A log has one spelling and a spelling one log: so what is written reads back as the same lines.
pub fn one_spelling()
    ensures { (lines other : List LineOfLog) → IsLog lines → IsLog other
        → spelling lines ≡ spelling other → lines ≡ other }
{}

/// What is refused by a line is the spelling of no log.
pub fn refused_is_no_log()
    ensures { (bytes : List ℕ) (number : ℕ) (lines : List LineOfLog) → IsBadAt bytes number
        → IsLog lines → bytes ≡ spelling lines → ⊥ }
{}
