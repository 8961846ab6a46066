//! Questions with what was told, as fields. What was told has the kind of its question.
ghost use Rattle.std.specs.Prelude.{◌≡◌, ◌⊎◌, ◌++◌, Ok, Err, IfOk, MatchResult};
ghost use Rattle.tup_rule.specs.Question.{HasKindOf};
ghost use Rattle.tup_field.specs.Format.{IsUnwritten};
ghost use Rattle.tup_field.specs.Rules.{NotedFits, NotedWritable, noted_spelling, noted_at};

use crate::fault::RecordFault;
use crate::field::Field;
use crate::reader::Reader;
use std::alloc::Global;
use tup_path::{Bytes, Text, Texts};
use tup_rule::{Answered, Kind, Noted, Question};
use tup_stamp::Stamp;

impl Field for Answered {
    ghost use Rattle.tup_field.specs.Rules.{asked};
    ghost use Rattle.tup_field.specs.RulesLaws.{asked-exact};

    ghost format = { asked };

    ghost exact = { asked-exact };

    fn write(&self, bytes: &mut Bytes) -> Result<(), RecordFault> {
        self.has_kind();
        self.question().write(bytes)?;
        write_told(self.question(), self.noted(), bytes)
    }

    fn read(alloc: Global, reader: &mut Reader<'_>) -> Result<Answered, RecordFault> {
        let question = Question::read(alloc, reader)?;
        let told = read_told(alloc, &question, reader)?;
        Ok(Answered::new(question, told))
    }
}

/// Puts the spelling of what was told behind the bytes.
fn write_told(question: &Question, told: &Noted, bytes: &mut Bytes) -> Result<(), RecordFault>
    requires { HasKindOf question.now told.now }
    ensures { MatchResult result
        (λ _. NotedFits question.now told.now × (bytes.new ≡ bytes.old ++ noted_spelling told.now))
        (IsUnwritten (NotedWritable told.now)) }
{
    match (question, told) {
        (Question::Content(_), Noted::Content(stamp)) => {
            bytes.extend_from_slice(&[1])?;
            stamp.write(bytes)
        }
        (Question::Config(_), Noted::Config(value)) => {
            bytes.extend_from_slice(&[2])?;
            value.write(bytes)
        }
        (Question::Names(_), Noted::Names(names)) => {
            bytes.extend_from_slice(&[3])?;
            names.write(bytes)
        }
        (Question::Kind(_), Noted::Kind(kind)) => {
            bytes.extend_from_slice(&[4])?;
            kind.write(bytes)
        }
        _ => unreachable!(),
    }
}

/// Reads what was told of a question. `BadField` where the mark isn't that of the question's kind.
fn read_told(
    alloc: Global,
    question: &Question,
    reader: &mut Reader<'_>,
) -> Result<Noted, RecordFault>
    ensures told { MatchResult result
        (λ told. noted_at question.now reader.old ≡ Ok (told, reader.new))
        (λ fault. (fault ≡ RecordFault.Memory) ⊎ (noted_at question.now reader.old ≡ Err fault)) }
    ensures kind { IfOk result (HasKindOf question.now) }
{
    let mark = reader.byte()?;
    match (question, mark) {
        (Question::Content(_), 1) => Ok(Noted::Content(Option::<Stamp>::read(alloc, reader)?)),
        (Question::Config(_), 2) => Ok(Noted::Config(Option::<Text>::read(alloc, reader)?)),
        (Question::Names(_), 3) => Ok(Noted::Names(Texts::read(alloc, reader)?)),
        (Question::Kind(_), 4) => Ok(Noted::Kind(Kind::read(alloc, reader)?)),
        _ => Err(RecordFault::BadField),
    }
}
