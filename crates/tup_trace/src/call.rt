//! A call of a traced program.
use crate::token::Token;
use tup_path::{Bytes, Items};

/// A call, or the end of a process, whose name is `+++`.
#[derive(Clone, Drop)]
pub struct Call {
    /// The number of the process, in digits.
    pub process: Bytes,
    /// The name of the call. Where the tracer says that a call is resumed and knows none that began, its note.
    pub name: Bytes,
    /// The arguments, and behind the word `=` the result.
    pub parts: Items<Token>,
}
