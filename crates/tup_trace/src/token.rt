//! The parts of a line.
use tup_path::Bytes;

/// A part of a line. Spaces, commas, round brackets and bars part words.
#[derive(Clone, Drop)]
pub enum Token {
    /// A name, a number, a flag, or another sign outside of quotes and angles.
    Word(Bytes),
    /// A text in quotes, as the program said it.
    Quoted(Bytes),
    /// What stands in angles: the path of a descriptor, or a note of the tracer.
    Place(Bytes),
}
