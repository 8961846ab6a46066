//! What stands at a path, as a field: one byte.
use crate::fault::RecordFault;
use crate::field::Field;
use crate::reader::Reader;
use std::alloc::Global;
use tup_path::Bytes;
use tup_rule::Kind;

impl Field for Kind {
    ghost use Rattle.tup_field.specs.Rules.{kind};
    ghost use Rattle.tup_field.specs.RulesLaws.{kind-exact};

    ghost format = { kind };

    ghost exact = { kind-exact };

    fn write(&self, bytes: &mut Bytes) -> Result<(), RecordFault> {
        let byte = match self {
            Kind::Nothing => 0,
            Kind::File => 1,
            Kind::Dir => 2,
        };
        bytes.extend_from_slice(&[byte])?;
        Ok(())
    }

    fn read(_alloc: Global, reader: &mut Reader<'_>) -> Result<Kind, RecordFault> {
        match reader.byte()? {
            0 => Ok(Kind::Nothing),
            1 => Ok(Kind::File),
            2 => Ok(Kind::Dir),
            _ => Err(RecordFault::BadField),
        }
    }
}
