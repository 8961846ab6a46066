//! Rules as fields: one field of theirs behind the other.
use crate::fault::RecordFault;
use crate::field::Field;
use crate::reader::Reader;
use std::alloc::Global;
use tup_path::{Bytes, Path, Paths, Text};
use tup_rule::Rule;

/// The fields of a rule, in the order in which they are spelled.
type Fields = (
    Path,
    (Text, (Option<Text>, (bool, (Paths, (Paths, Paths))))),
);

impl Field for Rule {
    ghost use Rattle.tup_field.specs.Rules.{rule};
    ghost use Rattle.tup_field.specs.RulesLaws.{rule-exact};

    ghost format = { rule };

    ghost exact = { rule-exact };

    fn write(&self, bytes: &mut Bytes) -> Result<(), RecordFault> {
        self.dir.write(bytes)?;
        self.text.write(bytes)?;
        self.display.write(bytes)?;
        self.compare.write(bytes)?;
        self.inputs.write(bytes)?;
        self.order.write(bytes)?;
        self.outputs.write(bytes)
    }

    fn read(alloc: Global, reader: &mut Reader<'_>) -> Result<Rule, RecordFault> {
        let (dir, (text, (display, (compare, (inputs, (order, outputs)))))) = Fields::read(
            alloc, reader,
        )?;
        Ok(Rule {
            dir,
            text,
            display,
            compare,
            inputs,
            order,
            outputs,
        })
    }
}
