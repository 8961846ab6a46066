//! What an account tells of a command.
ghost use Rattle.tup_strace.specs.Laws.{AsksAreFirst, AsksAreDistinct, FoundAreFirst, MissedAreFirst, AnswersAreAsks, AllIsTouched, TouchedAreDistinct, WrittenIsOwn};

/// What is among the asks of an account, what it found and missed of these, what is among the paths that it touched, and what is its own.
pub fn accounts_tell()
    ensures asks { AsksAreFirst }
    ensures asked_once { AsksAreDistinct }
    ensures found { FoundAreFirst }
    ensures missed { MissedAreFirst }
    ensures answered { AnswersAreAsks }
    ensures touched { AllIsTouched }
    ensures touched_once { TouchedAreDistinct }
    ensures own { WrittenIsOwn }
{}
