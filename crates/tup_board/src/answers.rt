//! What the calls of a board answer.
use tup_access::Verdict;
use tup_core::Cause;
use tup_runner::Stamped;
use tup_schedule::Events;
use tup_site::Site;
use tup_stored_graph::Graph;

/// What a command is told about a file that it asks for.
#[derive(Drop)]
pub enum Asked {
    /// What stands there.
    Content(Stamped),
    /// Nothing stands there, or it is an output of the command's own rule.
    Absent,
    /// It may not ask for it, and this becomes of it.
    Denied(Verdict),
}

/// How an update ended.
#[derive(Clone, Copy, PartialEq, Eq)]
pub enum Drained {
    /// Each rule to be run became Good.
    Done,
    /// Rules are left, for this cause.
    Left(Cause),
}

/// What a board is made of.
#[derive(Drop)]
pub struct BoardParts<S: Site> {
    pub site: S,
    pub graph: Graph,
    /// All that happened, in its order.
    pub history: Events,
    /// Why the first stop came, if one did.
    pub cause: Option<Cause>,
}
