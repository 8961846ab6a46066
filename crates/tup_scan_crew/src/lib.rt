//! The stamps of all files of a site, digested by several threads.
//!
//! `scan_by` gives what `scan` of `tup_scan` gives. It reads the files in batches on the thread that calls, which has the
//! site, and the files of a batch are digested in several threads.
#![tactic(auto)]

mod batch;
mod scanning;

pub use scanning::scan_by;
