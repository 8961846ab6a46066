//! What a Tupfile gives names to: macros, bins and groups.
//!
//! A macro is defined once and looked up by its name. A bin holds the paths that were given to its
//! name, a group those that were given to its name in its folder. Contracts see each table as a list
//! in the order of first mention, and say what every look-up finds after each change. Keys are hashed,
//! so that a change or a look-up doesn't go through the table.
#![tactic(auto)]

mod bins;
mod fault;
mod gifts;
mod groups;
mod macros;

pub use bins::Bins;
pub use fault::MacroFault;
pub use groups::Groups;
pub use macros::{Macro, Macros};
