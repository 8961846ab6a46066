//! The ground of an update: the site, and the graph of its store.
//!
//! A `Ground` makes the files of a rule between two commits: the rule's outputs are unsure in the store before the first
//! of them is touched, and written there once all of them are durable. Whenever a crash comes, the store tells so, or
//! nothing has changed yet (`specs/Ground.antt`). A commit after which the graph stands for its store no longer is kept in
//! mind (`specs/Lost.antt`): no other follows it.
#![tactic(auto)]

mod fault;
mod ground;
mod putting;
mod reads;

pub use fault::BoardFault;
pub use ground::{GoodEnd, Ground, Lost};
pub use reads::Reads;
