//! Groups as fields: the folder, then the name.
use crate::fault::RecordFault;
use crate::field::Field;
use crate::reader::Reader;
use std::alloc::Global;
use tup_path::{Bytes, Path, Text};
use tup_rule::GroupRef;

impl Field for GroupRef {
    ghost use Rattle.tup_field.specs.Rules.{group};
    ghost use Rattle.tup_field.specs.RulesLaws.{group-exact};

    ghost format = { group };

    ghost exact = { group-exact };

    fn write(&self, bytes: &mut Bytes) -> Result<(), RecordFault> {
        self.dir.write(bytes)?;
        self.name.write(bytes)
    }

    fn read(alloc: Global, reader: &mut Reader<'_>) -> Result<GroupRef, RecordFault> {
        let dir = Path::read(alloc, reader)?;
        let name = Text::read(alloc, reader)?;
        Ok(GroupRef { dir, name })
    }
}
