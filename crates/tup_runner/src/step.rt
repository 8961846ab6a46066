//! One step of a command.
use crate::stamped::Stamped;
use tup_path::{Bytes, Items, Text};

/// What a command is answered for a file that it asks for.
#[derive(Clone, Drop)]
pub enum Answer {
    Content(Stamped),
    Absent,
}

/// The files that a command has asked for, each by the text that it used, with the answers.
pub type Asks = Items<(Text, Answer)>;

/// The files that a command wrote, each by the text that it used, in the order of writing.
pub type Writes = Items<(Text, Bytes)>;

/// How a command ended.
#[derive(Clone, Drop)]
pub struct Ended {
    /// The exit status; 0 is success.
    pub status: u8,
    pub writes: Writes,
}

/// What a command does next.
#[derive(Drop)]
pub enum Step {
    /// It asks for a file by this text, relative to its folder.
    Ask(Text),
    End(Ended),
}
