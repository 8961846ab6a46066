//! Nothing as a field: no bytes.
use crate::fault::RecordFault;
use crate::field::Field;
use crate::reader::Reader;
use std::alloc::Global;
use tup_path::Bytes;

impl Field for () {
    ghost use Rattle.tup_field.specs.Parts.{empty};
    ghost use Rattle.tup_field.specs.PartsLaws.{empty-exact};

    ghost format = { empty };

    ghost exact = { empty-exact };

    fn write(&self, _bytes: &mut Bytes) -> Result<(), RecordFault> {
        Ok(())
    }

    fn read(_alloc: Global, _reader: &mut Reader<'_>) -> Result<(), RecordFault> {
        Ok(())
    }
}
