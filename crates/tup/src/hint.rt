//! What standard error says beside the last line of an order.

use crate::makers;
use crate::top::{Top, is_named_in_text};
use std::alloc::{AllocError, Global};
use tup_mini::words;
use tup_path::Text;
use tup_top::Status;

/// The status of a command of a name that isn't known.
const UNKNOWN: u8 = 127;

/// What is to be done where there is no project.
pub(crate) fn begin(rt: HostRuntime, top: &Top, status: &Status) {
    if let Status::NotInit = status {
        // Words that can't be printed change nothing: the exit number says as much.
        drop(match top.root.as_str() {
            root if top.is_to_begin() => {
                eprintln!(rt; "tup: `tup` begins the project of {root}/Tupfile.ini")
            }
            "." => eprintln!(rt; "tup: `tup init` begins a project here"),
            root => eprintln!(rt;
                "tup: {root}/.tup has no store: `tup init` begins a project there"
            ),
        });
    }
}

/// What is to be done where another program or an early version made the store.
pub(crate) fn begin_anew(rt: HostRuntime, alloc: Global, top: &Top, status: &Status) {
    if let Status::BadStore { offset: 0 } = status {
        makers::name_maker(rt, alloc, top);
    }
}

/// What is to be done where a command isn't one of the built-in commands. The words say what runs
/// others.
pub(crate) fn name_program(rt: HostRuntime, alloc: Global, status: &Status, other: &str) {
    if let Status::Command {
        rule,
        status: UNKNOWN,
    } = status
    {
        if let Ok(Some(word)) = unknown_word(alloc, &rule.text) {
            // Words that can't be printed change nothing: the exit number says as much.
            drop(eprintln!(rt; "tup: no such built-in command: {word}; {other}"));
        }
    }
}

/// Who runs the commands of a project, where that is a program and the files were compared without it: a command that was bad so,
/// or left other files, may be good.
pub(crate) fn name_runner(rt: HostRuntime, status: &Status, program: &Option<Text>) {
    if let Some(program) = program {
        if is_of_commands(status) {
            // Words that can't be printed change nothing: the exit number says as much.
            drop(eprintln!(rt;
                "tup: `tup verify` runs the built-in commands alone, and {program} runs those of this project"
            ));
        }
    }
}

/// Why a program of the project may have failed, where its folder has a path that no word of a program can be.
pub(crate) fn name_folder(rt: HostRuntime, status: &Status) {
    if let Status::RunFault = status {
        if !is_named_in_text(rt) {
            // Words that can't be printed change nothing: the exit number says as much.
            drop(eprintln!(rt;
                "tup: the path of this folder isn't UTF-8: a program that runs the commands may not be able to work in it"
            ));
        }
    }
}

/// Whether files differ, or a command was bad in another way than by its name.
fn is_of_commands(status: &Status) -> bool {
    match status {
        Status::Command { status, .. } => *status != UNKNOWN,
        Status::IllegalRead { .. }
        | Status::IllegalWrite { .. }
        | Status::Unwritten { .. }
        | Status::TooManyReads { .. }
        | Status::Differs { .. } => true,
        _ => false,
    }
}

/// The word by which a command ended with the status of an unknown one.
fn unknown_word(alloc: Global, text: &Text) -> Result<Option<Text>, AllocError> {
    let words = words(alloc, text)?;
    for step in words.split(|word| word.as_str() == "&&") {
        match step.first() {
            // It ends the command, with whatever status.
            Some(word) if word.as_str() == "fail" => return Ok(None),
            Some(word) if !is_small(word.as_str()) => return Ok(Some(word.clone()?)),
            _ => {}
        }
    }
    Ok(None)
}

/// Whether a small command has this name.
fn is_small(name: &str) -> bool {
    matches!(name, "cp" | "cat" | "echo" | "incl" | "ifexists" | "fail")
}
