//! Truths as fields: one byte.
use crate::fault::RecordFault;
use crate::field::Field;
use crate::reader::Reader;
use std::alloc::Global;
use tup_path::Bytes;

impl Field for bool {
    ghost use Rattle.tup_field.specs.Values.{truth};
    ghost use Rattle.tup_field.specs.ValuesLaws.{truth-exact};

    ghost format = { truth };

    ghost exact = { truth-exact };

    fn write(&self, bytes: &mut Bytes) -> Result<(), RecordFault> {
        bytes.extend_from_slice(&[u8::from(*self)])?;
        Ok(())
    }

    fn read(_alloc: Global, reader: &mut Reader<'_>) -> Result<bool, RecordFault> {
        match reader.byte()? {
            0 => Ok(false),
            1 => Ok(true),
            _ => Err(RecordFault::BadField),
        }
    }
}
