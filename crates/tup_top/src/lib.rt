//! The program as one call over any site and any sink.
//!
//! `tup` carries out the words of a command line. Its contract is the promise that people rely on:
//! for each answer its cause, of an update by what site, runners and sink count, and what was done
//! told in lines.
#![tactic(auto)]

mod call;
mod circle;
mod init;
mod options;
mod order;
mod parting;
mod print;
mod status;
mod telling;
mod todo;
mod update;
mod verify;

pub use call::{Ran, tup};
pub use options::{jobs_in, joined_jobs};
pub use order::{Order, OrderFault, Word, order_of};
pub use status::{Status, What};
pub use telling::each_rule_is_told;
