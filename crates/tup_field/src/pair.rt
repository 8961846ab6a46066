//! Pairs as fields: one value behind the other.
use crate::fault::RecordFault;
use crate::field::Field;
use crate::reader::Reader;
use std::alloc::Global;
use tup_path::Bytes;

impl<A: Field, B: Field> Field for (A, B) {
    ghost use Rattle.tup_field.specs.Parts.{◌&◌};
    ghost use Rattle.tup_field.specs.PartsLaws.{pair-exact};

    ghost format = { A.format & B.format };

    ghost exact = { pair-exact A.format B.format A.exact B.exact };

    fn write(&self, bytes: &mut Bytes) -> Result<(), RecordFault> {
        self.0.write(bytes)?;
        self.1.write(bytes)
    }

    fn read(alloc: Global, reader: &mut Reader<'_>) -> Result<(A, B), RecordFault> {
        let first = A::read(alloc, reader)?;
        let second = B::read(alloc, reader)?;
        Ok((first, second))
    }
}
