//! Options as fields: a mark, and the value where there is one.
use crate::fault::RecordFault;
use crate::field::Field;
use crate::reader::Reader;
use std::alloc::Global;
use tup_path::Bytes;

impl<T: Field> Field for Option<T> {
    ghost use Rattle.tup_field.specs.Parts.{option};
    ghost use Rattle.tup_field.specs.PartsLaws.{option-exact};

    ghost format = { option T.format };

    ghost exact = { option-exact T.format T.exact };

    fn write(&self, bytes: &mut Bytes) -> Result<(), RecordFault> {
        match self {
            None => {
                bytes.extend_from_slice(&[0])?;
                Ok(())
            }
            Some(value) => {
                bytes.extend_from_slice(&[1])?;
                value.write(bytes)
            }
        }
    }

    fn read(alloc: Global, reader: &mut Reader<'_>) -> Result<Option<T>, RecordFault> {
        match reader.byte()? {
            0 => Ok(None),
            1 => Ok(Some(T::read(alloc, reader)?)),
            _ => Err(RecordFault::BadField),
        }
    }
}
