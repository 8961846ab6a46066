//! Records of the store: what is kept of a project, as a key and a value in bytes.
//!
//! Each record has one spelling. `encode` gives it, and `decode` reads just the spellings of records: what it takes
//! is spelled so, each byte of key and value, and what is spelled so it takes. What it refuses, it refuses for the
//! first place that doesn't fit, from the left, the key before the value.
#![tactic(auto)]

mod owned;
mod read;
mod record;
mod run;
mod spell;

pub use owned::OwnedState;
pub use read::decode;
pub use record::Record;
pub use run::{Asks, RunRecord, Writes};
pub use spell::encode;
pub use tup_field::RecordFault;
