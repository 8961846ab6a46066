//! What the flags of a text speak of.
use tup_path::{Path, Paths, Text};
use tup_rule::GroupRefs;

/// Where a text stands in its rule line.
#[derive(Clone, Copy)]
pub enum Place {
    /// Among the inputs, order-only ones included.
    Inputs,
    /// In the command, or in its display text.
    Command,
    /// Among the outputs.
    Outputs,
    /// Among the extra outputs.
    Extra,
}

/// The parts of a rule's command that flags stand for.
#[derive(Drop)]
pub struct FlagParts {
    /// The folder of the Tupfile, from which files are shown.
    pub dir: Path,
    /// The inputs; of a `foreach` rule the current file alone.
    pub inputs: Paths,
    /// The order-only inputs.
    pub order: Paths,
    /// The outputs, without the extra ones.
    pub outputs: Paths,
    /// Whether the rule makes a command for each of its inputs.
    pub foreach: bool,
    /// What the first operator of a glob matched, where a glob gave the input.
    pub glob: Option<Text>,
    /// The groups among the inputs, order-only ones included, in the order of the rule line.
    pub groups: GroupRefs,
    /// Where the text stands.
    pub place: Place,
}
