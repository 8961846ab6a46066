//! Fields of records: how values are spelled as bytes, and how bytes are read as values.
//!
//! Each type of field has a format, which says what its values are spelled as and how bytes are read. A
//! format is exact both ways: what is read is spelled so, and what is spelled so is read.
#![tactic(auto)]

mod asked;
mod draft;
mod fault;
mod field;
mod group;
mod items;
mod kind;
mod nothing;
mod number;
mod option;
mod pair;
mod path;
mod piece;
mod question;
mod reader;
mod reading;
mod rule;
mod stamp;
mod text;
mod truth;

pub use fault::RecordFault;
pub use field::Field;
pub use reader::Reader;
