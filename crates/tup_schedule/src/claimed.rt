//! What a claim answers.

/// What a seat is to do next.
#[derive(Clone, Copy, PartialEq, Eq)]
pub enum Claimed {
    /// It runs the rule with this number.
    Rule(u32),
    /// Nothing yet: what another seat runs may make a rule ready.
    Wait,
    /// Nothing any more.
    Over,
}
