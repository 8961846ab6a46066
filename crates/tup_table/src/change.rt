//! Changes of a table.
ghost use Rattle.std.specs.Prelude.{◌≡◌};

use std::alloc::AllocError;
use tup_path::Bytes;

/// What a commit does to one key.
#[derive(Drop)]
pub enum Change {
    /// The key has this value from now on.
    Put { key: Bytes, value: Bytes },
    /// The key has no value from now on.
    Delete { key: Bytes },
}

impl Clone for Change {
    ghost is_clone = { λ change copy. copy ≡ change };

    fn clone(&self) -> Result<Change, AllocError> {
        Ok(match self {
            Change::Put { key, value } => Change::Put {
                key: key.clone()?,
                value: value.clone()?,
            },
            Change::Delete { key } => Change::Delete { key: key.clone()? },
        })
    }
}
