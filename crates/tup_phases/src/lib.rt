//! An update up to the moment at which its rules are to be run.
//!
//! `prepared` opens the store of a site and brings its graph up to date: what changed among the files is noted, the
//! Tupfiles that have to be are read, the rules are linked again where that brought anything, and the files that no rule
//! makes any more are removed. The rules that are flagged then are those that have to be run. An update to which
//! nothing new comes writes nothing. `surveyed` comes before the files are removed: it changes none.
#![tactic(auto)]

mod bringing;
mod preparing;
mod surveying;

pub use preparing::prepared;
pub use surveying::surveyed;
