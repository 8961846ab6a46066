//! Drafts of rules as fields: one field of theirs behind the other.
use crate::fault::RecordFault;
use crate::field::Field;
use crate::reader::Reader;
use std::alloc::Global;
use tup_path::{Bytes, Path, Paths};
use tup_rule::{Draft, GroupRef, GroupRefs, Pieces};

/// The fields of a draft, in the order in which they are spelled.
type Fields = (Path, (u32, (Pieces, (Option<Pieces>, (bool, Files)))));

/// Those from its inputs on.
type Files = (Paths, (Paths, (Paths, (GroupRefs, Option<GroupRef>))));

impl Field for Draft {
    ghost use Rattle.tup_field.specs.Rules.{draft};
    ghost use Rattle.tup_field.specs.RulesLaws.{draft-exact};

    ghost format = { draft };

    ghost exact = { draft-exact };

    fn write(&self, bytes: &mut Bytes) -> Result<(), RecordFault> {
        self.file.write(bytes)?;
        self.line.write(bytes)?;
        self.pieces.write(bytes)?;
        self.display.write(bytes)?;
        self.compare.write(bytes)?;
        self.inputs.write(bytes)?;
        self.order.write(bytes)?;
        self.outputs.write(bytes)?;
        self.groups.write(bytes)?;
        self.gives.write(bytes)
    }

    fn read(alloc: Global, reader: &mut Reader<'_>) -> Result<Draft, RecordFault> {
        let (file, (line, (pieces, (display, (compare, others))))) = Fields::read(alloc, reader)?;
        let (inputs, (order, (outputs, (groups, gives)))) = others;
        Ok(Draft {
            file,
            line,
            pieces,
            display,
            compare,
            inputs,
            order,
            outputs,
            groups,
            gives,
        })
    }
}
