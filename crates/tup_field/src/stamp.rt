//! Stamps as fields: the 32 bytes of the digest.
use crate::fault::RecordFault;
use crate::field::Field;
use crate::reader::Reader;
use std::alloc::Global;
use tup_path::Bytes;
use tup_stamp::Stamp;

impl Field for Stamp {
    ghost use Rattle.tup_field.specs.Values.{stamp};
    ghost use Rattle.tup_field.specs.ValuesLaws.{stamp-exact};

    ghost format = { stamp };

    ghost exact = { stamp-exact };

    fn write(&self, bytes: &mut Bytes) -> Result<(), RecordFault> {
        bytes.extend_from_slice(&self.0)?;
        Ok(())
    }

    fn read(_alloc: Global, reader: &mut Reader<'_>) -> Result<Stamp, RecordFault> {
        Ok(Stamp(reader.array()?))
    }
}
