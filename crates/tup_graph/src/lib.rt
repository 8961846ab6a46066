//! The graph of a project: what the store keeps between two updates, as typed nodes over a table of records.
//!
//! `read_graph` gives the graph that the entries of a table stand for, or the place of the first that isn't a record or
//! doesn't fit. Beside it come its prints, which lead from a path to the rules that use it. The readers give the graph's own data. Each transaction is a pure function of the graph to the edits that
//! it makes, a file each; the laws say what edits do to the table, and what they leave of the graph.
#![tactic(auto)]

mod begin;
mod by_number;
mod changing;
mod doom;
mod edit;
mod editing;
mod fault;
mod finish;
mod flag;
mod forget;
mod late;
mod laws;
mod nodes;
mod opening;
mod owned;
mod owners;
mod print_lists;
mod prints;
mod rule_list;
mod taking;

pub use by_number::ByNumber;
pub use changing::changes;
pub use edit::{Edit, Edits};
pub use fault::GraphFault;
pub use laws::{
    edits_are_read, edits_in_turn_are_read, needed_changes_are_enough, reads_one_way, stays_kept,
    transactions_are_read, transactions_leave,
};
pub use nodes::Nodes;
pub use opening::read_graph;
pub use owned::Owned;
pub use owners::Owners;
pub use prints::Prints;
