//! What is to be run.
use tup_path::{Items, Shared};
use tup_rule::Rule;

/// Numbers of rules.
pub type Numbers = Items<u32>;

/// The rules of a project, and which of them an update has to run.
#[derive(Drop)]
pub struct Plan {
    pub rules: Shared<Rule>,
    /// The places of the rules to be run, ascending.
    pub reach: Numbers,
    /// Places of rules, ascending. All rules that declare or make an output of a rule to be run are among them.
    pub near: Numbers,
    /// Whether the others go on where one ends badly.
    pub keep_going: bool,
}
