//! Why bytes spell no record.
use std::alloc::{AllocError, AllocFailed};
use thiserror::Error;

/// Why bytes spell no record, or a record isn't spelled.
#[derive(Clone, Copy, Debug, PartialEq, Eq, Error)]
pub enum RecordFault {
    /// The bytes end before a field does.
    #[error("a record is cut off")]
    Short,
    /// The key begins with a byte that stands for no kind of record.
    #[error("a record of an unknown kind")]
    BadKind,
    /// A field has bytes that spell none of its values.
    #[error("a bad field in a record")]
    BadField,
    /// Bytes are left behind the last field.
    #[error("bytes left behind a record")]
    Trailing,
    /// There was no memory; nothing is known of the bytes.
    #[error("no memory")]
    Memory,
}

impl From<AllocError> for RecordFault {
    ghost use Rattle.std.specs.Prelude.{◌≡◌};
    ghost use Rattle.tup_field.specs.declared.fault.RecordFault.TheVariants.{Memory};

    ghost from_gives = { λ _ fault. fault ≡ Memory };

    fn from(_: AllocError) -> RecordFault {
        RecordFault::Memory
    }
}

impl<T: Drop> From<AllocFailed<T>> for RecordFault {
    ghost use Rattle.std.specs.Prelude.{◌≡◌};
    ghost use Rattle.tup_field.specs.declared.fault.RecordFault.TheVariants.{Memory};

    ghost from_gives = { λ _ fault. fault ≡ Memory };

    fn from(_: AllocFailed<T>) -> RecordFault {
        RecordFault::Memory
    }
}
