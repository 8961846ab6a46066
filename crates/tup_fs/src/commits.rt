//! What is known of the store by its last writes.

/// The first gate of a store.
const FIRST_GATE: u64 = 17;

/// What is known of the store by its last writes.
#[derive(Clone, Copy)]
pub(crate) struct Commits {
    /// Where the last write began.
    at: u64,
    /// How many bytes it had.
    len: u64,
    /// The last gate of the store, where the last write opened the one before a commit.
    pub gate: Option<u64>,
}

impl Commits {
    /// Nothing was written.
    pub fn none() -> Commits {
        Commits {
            at: 0,
            len: 0,
            gate: None,
        }
    }

    /// What is known once these bytes were written there. A commit is written behind its gate, and then that is opened.
    pub fn behind(self, at: u64, bytes: &[u8]) -> Commits {
        let is_gate = at >= FIRST_GATE && matches!(bytes, [1]);
        let opens = is_gate && self.at == at.saturating_add(1);
        Commits {
            at,
            len: bytes.len() as u64,
            gate: if opens {
                Some(at.saturating_add(self.len))
            } else {
                None
            },
        }
    }
}
