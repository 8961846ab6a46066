//! Laws of the reading of a folder's Tupfile.
ghost use Rattle.std.specs.Prelude.{◌≡◌, List, [], Ok, Result};
ghost use Rattle.tup_rule.specs.declared.draft.Draft.{Draft};
ghost use Rattle.tup_rule.specs.declared.question.Question.{Question};
ghost use Rattle.tup_rule.specs.declared.question.Told.{Told};
ghost use Rattle.tup_query.specs.declared.fault.ParseFault.{ParseFault};
ghost use Rattle.tup_query.specs.Reads.{AnswerAlike, IsLocal, outcome};
ghost use Rattle.tup_query.specs.Log.{Log, Ran, Says};
ghost use Rattle.tup_tupfile.specs.Reading.{reading};
ghost use Rattle.tup_rule_line.specs.Sound.{AreSound, NamesFiles};

use tup_path::Path;

/// A law of locality: two who answer alike what the reading of a folder asks the one give the same
/// reading, and are asked the same.
pub fn reading_is_local(dir: &Path)
    ensures { (one other : Question → Told)
        → AnswerAlike (reading dir.now) one other → IsLocal (reading dir.now) one other }
{
    let _depth = dir.depth();
}

/// A law of true records: a log over which the reading of a folder came to its end tells what it
/// comes to for everyone who says what the log says.
pub fn logs_tell_readings(dir: &Path)
    ensures { (log : Log) (end : Result (List Draft) ParseFault) (answers : Question → Told)
        → Ran [] (reading dir.now) log end → Says answers log
        → outcome answers (reading dir.now) ≡ end }
{
    let _depth = dir.depth();
}

/// A law of sound readings: where the names that are told are those of files, each rule of a reading
/// takes files and outputs of rules before it, and makes files of the folder itself where nothing
/// stands.
pub fn readings_are_sound(dir: &Path)
    ensures { (answers : Question → Told) (drafts : List Draft) → NamesFiles answers
        → outcome answers (reading dir.now) ≡ Ok drafts → AreSound answers dir.now [] drafts }
{
    let _depth = dir.depth();
}
