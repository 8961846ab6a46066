//! What a command does to places.
use tup_path::Bytes;

/// What a command was told of a place for which it asked.
#[derive(Clone, Copy)]
pub enum Answer {
    /// Something stands there.
    Found,
    /// Nothing stands there.
    Missed,
    /// The call says neither.
    Unclear,
}

/// What a command does to a place, by an absolute text in which links aren't resolved.
#[derive(Drop)]
pub enum Act {
    /// It asks for what is there, or, where a link is there and isn't followed, for the link.
    Ask {
        place: Bytes,
        follows: bool,
        answer: Answer,
    },
    /// It runs what is there, which asks for it and for what it names as its interpreter.
    Run {
        place: Bytes,
    },
    /// It makes or overwrites what is there.
    Write {
        place: Bytes,
        follows: bool,
    },
    /// It asks for what is there, and may have changed it.
    Change {
        place: Bytes,
        follows: bool,
    },
    /// It removes what is there.
    Remove {
        place: Bytes,
    },
    /// It moves what is there.
    Move {
        from: Bytes,
        to: Bytes,
    },
}
