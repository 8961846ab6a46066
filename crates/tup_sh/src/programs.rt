//! The programs that are started.
use std::fs::File;
use std::process::{Command, Processes};
use std::rt::Files;
use tup_child::{Failure, Tree};

/// A program with its words. It starts in the stage.
pub(crate) fn command<R: Files<File = File> + Clone + Drop>(
    tree: &Tree<R>,
    program: &str,
    words: &[&str],
) -> Result<Command, Failure> {
    let mut command = Command::new(tree.alloc, program)?;
    command.current_dir(tree.stage.as_str())?;
    add_words(&mut command, words)?;
    Ok(command)
}

/// Adds words to a program.
pub(crate) fn add_words(command: &mut Command, words: &[&str]) -> Result<(), Failure> {
    for word in words {
        command.arg(*word)?;
    }
    Ok(())
}

/// A shell that runs a script.
pub(crate) fn shell<R: Files<File = File> + Clone + Drop>(
    tree: &Tree<R>,
    script: &str,
) -> Result<Command, Failure> {
    command(tree, "sh", ["-c", script].as_slice())
}

/// Runs a program, and returns whether it succeeded.
pub(crate) fn succeeds<R: Processes>(rt: &R, command: &mut Command) -> bool {
    match command.status(rt) {
        Ok(status) => status.success(),
        Err(_) => false,
    }
}
