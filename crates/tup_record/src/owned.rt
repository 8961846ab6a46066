//! What is known of the file at an owned path.
use std::alloc::Global;
use tup_field::{Field, Reader, RecordFault};
use tup_path::Bytes;
use tup_stamp::Stamp;

/// What is known of the file at a path that the build owns.
#[derive(Clone, Copy, PartialEq, Eq)]
pub enum OwnedState {
    /// The build never wrote it.
    Never,
    /// A run that may have written it didn't end well.
    Unsure,
    /// The build wrote a content of this stamp.
    Written(Stamp),
}

impl Field for OwnedState {
    ghost use Rattle.tup_record.specs.Fields.{state};
    ghost use Rattle.tup_record.specs.FieldLaws.{state-exact};

    ghost format = { state };

    ghost exact = { state-exact };

    fn write(&self, bytes: &mut Bytes) -> Result<(), RecordFault> {
        match self {
            OwnedState::Never => {
                bytes.extend_from_slice(&[0])?;
                Ok(())
            }
            OwnedState::Unsure => {
                bytes.extend_from_slice(&[1])?;
                Ok(())
            }
            OwnedState::Written(stamp) => {
                bytes.extend_from_slice(&[2])?;
                stamp.write(bytes)
            }
        }
    }

    fn read(alloc: Global, reader: &mut Reader<'_>) -> Result<OwnedState, RecordFault> {
        match reader.byte()? {
            0 => Ok(OwnedState::Never),
            1 => Ok(OwnedState::Unsure),
            2 => Ok(OwnedState::Written(Stamp::read(alloc, reader)?)),
            _ => Err(RecordFault::BadField),
        }
    }
}
