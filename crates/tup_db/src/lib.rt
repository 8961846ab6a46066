//! The program's own folder, `.tup`, and the store in it: the file `.tup/db`.
//!
//! What is proved is safety, that a store that is made stands aside till a sync, that one that is
//! open stays where it is, and that after a failed sync no later one succeeds; what the system does
//! is tested.
#![tactic(auto)]

mod epoch;
mod notes;
mod own;
mod store;

pub use epoch::{Epoch, end_epoch, recover};
pub use own::Own;
pub use store::Store;
