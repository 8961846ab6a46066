//! Why a rule is run.
//!
//! `Reasons::of` finds out the cause of each rule of a plan, in one walk over the plan and the records of its rules;
//! `of_rule` reads the reason of a rule off: a chain from a changed file, a new rule or an unfinished one, over recorded
//! reads and outputs, to the rule. `shown` is how it is printed. `holds` says whether a reason is one, from the graph and the plan alone.
#![tactic(auto)]

mod cause;
mod checking;
mod fault;
mod laws;
mod makers;
mod numbered;
mod reason;
mod reasons;
mod showing;

pub use checking::holds;
pub use fault::WhyFault;
pub use laws::none_waits_for_itself;
pub use reason::{Link, Reason, Root};
pub use reasons::{Reasons, why};
pub use showing::shown;
