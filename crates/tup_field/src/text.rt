//! Texts as fields: UTF-8 behind its length.
use crate::fault::RecordFault;
use crate::field::Field;
use crate::reader::Reader;
use std::alloc::Global;
use tup_path::{Bytes, Text};

impl Field for Text {
    ghost use Rattle.tup_field.specs.Values.{text};
    ghost use Rattle.tup_field.specs.ValuesLaws.{text-exact};

    ghost format = { text };

    ghost exact = { text-exact };

    fn write(&self, bytes: &mut Bytes) -> Result<(), RecordFault> {
        let text = self.as_bytes();
        let Ok(length) = u32::try_from(text.len()) else {
            return Err(RecordFault::BadField);
        };
        length.write(bytes)?;
        bytes.extend_from_slice(text)?;
        Ok(())
    }

    #[tactic(auto, using(crate::proofs::Texts::not_utf8, crate::proofs::Texts::utf8))]
    fn read(alloc: Global, reader: &mut Reader<'_>) -> Result<Text, RecordFault> {
        let length = u32::read(alloc, reader)?;
        let text = reader.bytes(length as usize)?;
        let Some(text) = Text::from_utf8(alloc, text)? else {
            return Err(RecordFault::BadField);
        };
        Ok(text)
    }
}
