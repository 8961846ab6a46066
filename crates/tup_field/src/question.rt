//! Questions as fields: a mark, and what is asked about.
use crate::fault::RecordFault;
use crate::field::Field;
use crate::reader::Reader;
use std::alloc::Global;
use tup_path::{Bytes, Path, Text};
use tup_rule::Question;

impl Field for Question {
    ghost use Rattle.tup_field.specs.Rules.{question};
    ghost use Rattle.tup_field.specs.RulesLaws.{question-exact};

    ghost format = { question };

    ghost exact = { question-exact };

    fn write(&self, bytes: &mut Bytes) -> Result<(), RecordFault> {
        match self {
            Question::Content(path) => {
                bytes.extend_from_slice(&[1])?;
                path.write(bytes)
            }
            Question::Config(name) => {
                bytes.extend_from_slice(&[2])?;
                name.write(bytes)
            }
            Question::Names(dir) => {
                bytes.extend_from_slice(&[3])?;
                dir.write(bytes)
            }
            Question::Kind(path) => {
                bytes.extend_from_slice(&[4])?;
                path.write(bytes)
            }
        }
    }

    fn read(alloc: Global, reader: &mut Reader<'_>) -> Result<Question, RecordFault> {
        match reader.byte()? {
            1 => Ok(Question::Content(Path::read(alloc, reader)?)),
            2 => Ok(Question::Config(Text::read(alloc, reader)?)),
            3 => Ok(Question::Names(Path::read(alloc, reader)?)),
            4 => Ok(Question::Kind(Path::read(alloc, reader)?)),
            _ => Err(RecordFault::BadField),
        }
    }
}
