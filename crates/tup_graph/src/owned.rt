//! How the graph has an owned path.
use tup_record::OwnedState;

/// Who makes an owned path, and what is known of the file there.
#[derive(Clone, Copy, PartialEq, Eq)]
pub struct Owned {
    /// The number of the rule that has it as an output; `None` where no rule has it any more.
    pub maker: Option<u32>,
    pub state: OwnedState,
}
