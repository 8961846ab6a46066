//! Rows of data: a call, its arguments and the answer that is wanted, a line each.
//!
//! A program answers the rows of a file through `Answers`, and `report` gives what it prints: a line for each
//! row that differs, and how many do. The gate compares that with the program's stored output, which says nothing of the
//! rows that are as they have to be: a new row is a line of text, and no code. A file whose rows are missing says so.
//!
//! Words are divided by blanks. One that has a blank, a quote or a backslash in it, that is empty or `=`, or that begins
//! with `#` stands in double quotes, in which `\n`, `\t`, `\r`, `\\`, `\"` and `\xHH` stand for a byte each. The first
//! bare `=` divides the call and its arguments from the words of the answer. A line that is empty or begins
//! with `#` is none.
#![tactic(auto)]

mod answers;
mod fault;
mod file;
mod place;
mod reporting;
mod row;
mod token;
mod words;

pub use answers::Answers;
pub use fault::RowFault;
pub use file::{try_file, try_file_by};
pub use place::set;
pub use reporting::report;
pub use row::Row;
pub use words::Words;
