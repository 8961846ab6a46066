//! Pieces of commands as fields: a mark, then a text or the place of a group.
use crate::fault::RecordFault;
use crate::field::Field;
use crate::reader::Reader;
use std::alloc::Global;
use tup_path::{Bytes, Text};
use tup_rule::Piece;

impl Field for Piece {
    ghost use Rattle.tup_field.specs.Rules.{piece};
    ghost use Rattle.tup_field.specs.RulesLaws.{piece-exact};

    ghost format = { piece };

    ghost exact = { piece-exact };

    fn write(&self, bytes: &mut Bytes) -> Result<(), RecordFault> {
        match self {
            Piece::Text(text) => {
                bytes.extend_from_slice(&[1])?;
                text.write(bytes)
            }
            Piece::Group(place) => {
                bytes.extend_from_slice(&[2])?;
                place.write(bytes)
            }
        }
    }

    fn read(alloc: Global, reader: &mut Reader<'_>) -> Result<Piece, RecordFault> {
        match reader.byte()? {
            1 => Ok(Piece::Text(Text::read(alloc, reader)?)),
            2 => Ok(Piece::Group(u32::read(alloc, reader)?)),
            _ => Err(RecordFault::BadField),
        }
    }
}
