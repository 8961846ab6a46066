//! What becomes of a command.
use tup_path::{Path, Text};

/// What a command that ended is worth.
#[derive(Clone, Debug, Drop, PartialEq, Eq)]
pub enum Verdict {
    /// It wrote its outputs, and nothing else.
    Good,
    /// It ended with this status, which isn't 0.
    Failed(u8),
    /// It asked for a text that names no path, or a generated file that its rule doesn't declare.
    IllegalRead(Text),
    /// It wrote to a text that names none of its outputs.
    IllegalWrite(Text),
    /// It didn't write this output.
    Unwritten(Path),
    /// It asked 65,536 times.
    TooManyReads,
}

/// Whether a command may ask for a text.
#[derive(Drop)]
pub enum Access {
    /// It may, and the text names this path.
    Yes(Path),
    /// It may not, and this becomes of it.
    No(Verdict),
}
