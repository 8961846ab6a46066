//! Numbers as fields.
use crate::fault::RecordFault;
use crate::field::Field;
use crate::reader::Reader;
use std::alloc::Global;
use tup_path::Bytes;

impl Field for u32 {
    ghost use Rattle.tup_field.specs.Parts.{number};
    ghost use Rattle.tup_field.specs.PartsLaws.{number-exact};

    ghost format = { number };

    ghost exact = { number-exact };

    fn write(&self, bytes: &mut Bytes) -> Result<(), RecordFault> {
        bytes.extend_from_slice(&self.to_be_bytes())?;
        Ok(())
    }

    fn read(_alloc: Global, reader: &mut Reader<'_>) -> Result<u32, RecordFault> {
        Ok(u32::from_be_bytes(reader.array()?))
    }
}
