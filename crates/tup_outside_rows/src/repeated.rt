//! Long arguments, which a row says shortly.
use std::alloc::Global;
use tup_rows::{RowFault, Words};

/// What the first argument says, as often as the second one says.
pub(crate) fn repeated(alloc: Global, said: &Words) -> Vec<u8> {
    let mut all = Vec::new(alloc);
    for _ in 0..said.number_at(1) {
        if all.extend_from_slice(said.word_at(0)).is_err() {
            said.fail(RowFault::Memory);
        }
    }
    all
}
