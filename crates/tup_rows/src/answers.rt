//! What a program answers.
use crate::fault::RowFault;
use crate::words::Words;
use std::alloc::Global;

/// The calls that a program knows.
pub trait Answers {
    /// Makes a call with these arguments, and gives its answer in words. `NoSuchCall` where there is none of this name.
    /// A row whose last argument it didn't ask for differs.
    fn answer(&mut self, alloc: Global, call: &str, arguments: &Words) -> Result<Words, RowFault>;
}
