//! What the reading of a Tupfile leaves, as a field.
use crate::fault::RecordFault;
use crate::field::Field;
use crate::reader::Reader;
use std::alloc::Global;
use tup_path::{Bytes, Shared};
use tup_rule::{Answered, Draft, Reading};

impl Field for Reading {
    ghost use Rattle.tup_field.specs.Rules.{reading};
    ghost use Rattle.tup_field.specs.RulesLaws.{reading-exact};

    ghost format = { reading };

    ghost exact = { reading-exact };

    fn write(&self, bytes: &mut Bytes) -> Result<(), RecordFault> {
        self.asked.write(bytes)?;
        self.drafts.write(bytes)
    }

    fn read(alloc: Global, reader: &mut Reader<'_>) -> Result<Reading, RecordFault> {
        let asked = Shared::<Answered>::read(alloc, reader)?;
        let drafts = Shared::<Draft>::read(alloc, reader)?;
        Ok(Reading { drafts, asked })
    }
}
