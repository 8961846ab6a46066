//! The words of the command line.
use std::alloc::Global;
use std::env;
use std::env::Env;
use tup_path::Text;

/// The words of the program.
#[derive(Drop)]
pub struct Words {
    /// The top of the project.
    pub root: Text,
    /// The folder of the command, as a path from the top.
    pub dir: Text,
    /// The folder that takes what was written, and the log.
    pub stage: Text,
    /// The command.
    pub text: Text,
}

/// The four words behind the program's name, ROOT DIR STAGE TEXT, where there are just four.
pub fn read_words<R: Env + Clone + Drop>(rt: &R, alloc: Global) -> Option<Words> {
    let mut args = env::args(&(rt, alloc)).ok()?;
    args.next()?;
    let root = Text::from_string(args.next()?);
    let dir = Text::from_string(args.next()?);
    let stage = Text::from_string(args.next()?);
    let text = Text::from_string(args.next()?);
    if args.next().is_some() {
        return None;
    }
    Some(Words {
        root,
        dir,
        stage,
        text,
    })
}
