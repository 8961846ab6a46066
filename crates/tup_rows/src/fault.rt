//! Why a row has no answer.
use std::alloc::{AllocError, AllocFailed};
use thiserror::Error;

/// Why a row has no answer.
#[derive(Clone, Copy, Debug, PartialEq, Eq, Error)]
pub enum RowFault {
    /// The line has no call, no `=`, or a quote that isn't closed or followed by a blank.
    #[error("the row can't be read")]
    Unreadable,
    /// The program knows no such call.
    #[error("no such call")]
    NoSuchCall,
    /// The call has more arguments than the row.
    #[error("too few arguments")]
    TooFew,
    /// The row has an argument that the call doesn't ask for.
    #[error("too many arguments")]
    TooMany,
    /// An argument isn't of the kind that the call takes.
    #[error("an argument of another kind")]
    OtherKind,
    /// There was no memory.
    #[error("no memory")]
    Memory,
}

impl From<AllocError> for RowFault {
    fn from(_: AllocError) -> RowFault {
        RowFault::Memory
    }
}

impl<T: Drop> From<AllocFailed<T>> for RowFault {
    fn from(_: AllocFailed<T>) -> RowFault {
        RowFault::Memory
    }
}
