//! A reason: a chain that ends at a rule.
use tup_path::{Items, Path};

/// Why a rule is run: a chain from a root to the rule. Rules are given by their numbers in the plan, so that no command is
/// copied and no name is looked up.
#[derive(Drop)]
pub struct Reason {
    pub root: Root,
    pub links: Items<Link>,
}

/// Where a chain begins.
#[derive(Drop)]
pub enum Root {
    /// A file has another stamp than the record of a rule tells, and that rule is the first link.
    Changed(Path),
    /// This rule has no record.
    NewRule(u32),
    /// The last run of this rule didn't end well.
    Unfinished(u32),
}

/// How a chain goes on.
#[derive(Drop)]
pub enum Link {
    /// To a rule: its record asks the path before, or has another stamp of it.
    Reads(u32),
    /// To an output of the rule before.
    Writes(Path),
}
