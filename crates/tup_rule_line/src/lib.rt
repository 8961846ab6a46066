//! What a rule line and a macro line of a Tupfile add to what the lines before them have set.
//!
//! `specs/RuleLine.antt` says what a rule line comes to: it is cut into words, the words give files,
//! bins and groups, and each command becomes a draft, with its outputs, its text and what is shown in
//! its place. What is asked for that about the project is asked through `tup_query`.
#![tactic(auto)]

mod caret;
mod command;
mod flagged;
mod folder;
mod found;
mod gathered;
mod glob_word;
mod input;
mod job;
mod last;
mod macro_line;
mod made;
mod output;
mod path_set;
mod places;
mod rule_line;
mod span_text;
mod state;
mod way;
mod words;

pub use folder::{file_in, led};
pub use glob_word::add_made;
pub use last::before_last;
pub use macro_line::defined;
pub use made::{Made, is_made};
pub use rule_line::ruled;
pub use state::State;
pub use words::lex_end;
