//! Commands that are made of a number, and what they are answered.
use crate::mini::counted;
use crate::values::{content, text};
use std::alloc::Global;
use tup_path::{Items, Text};
use tup_rows::{RowFault, Words};
use tup_runner::{Answer, Asks, Stamped};

/// `cat` of so many files.
pub(crate) fn asks(alloc: Global, said: &Words) -> Words {
    let mut command = String::new(alloc);
    add(said, &mut command, "cat", 1);
    add(said, &mut command, " a", said.number_at(0));
    add(said, &mut command, " > b", 1);
    let replies = alike(alloc, said, "x");
    counted(alloc, &Text::from_string(command), replies)
}

/// So many reads of an own write.
pub(crate) fn own(alloc: Global, said: &Words) -> Words {
    let mut command = String::new(alloc);
    add(said, &mut command, "echo x > t && cat", 1);
    add(said, &mut command, " t", said.number_at(0));
    add(said, &mut command, " > u", 1);
    counted(alloc, &Text::from_string(command), Items::new(alloc))
}

/// Files that include one another down to a depth.
pub(crate) fn nested(alloc: Global, said: &Words) -> Words {
    let depth = said.number_at(0);
    let mut replies = Items::new(alloc);
    for at in 0..depth {
        match included(alloc, at) {
            Ok(line) => reply(alloc, said, &mut replies, (at, &line)),
            Err(fault) => said.fail(fault),
        }
    }
    reply(alloc, said, &mut replies, (depth, "x\n"));
    inclusion(alloc, said, replies)
}

fn included(alloc: Global, at: u64) -> Result<String, RowFault> {
    Ok(format!(in alloc; "#include \"{at}\"\n")?)
}

/// A file that includes itself, which is answered so often.
pub(crate) fn itself(alloc: Global, said: &Words) -> Words {
    inclusion(alloc, said, alike(alloc, said, "#include \"a\"\n"))
}

fn inclusion(alloc: Global, said: &Words, replies: Asks) -> Words {
    let mut command = String::new(alloc);
    add(said, &mut command, "incl a b", 1);
    counted(alloc, &Text::from_string(command), replies)
}

/// So many files that are written twice.
pub(crate) fn writes(alloc: Global, said: &Words) -> Words {
    let mut command = String::new(alloc);
    add(said, &mut command, "echo > f", 1);
    for at in 0..said.number_at(0) {
        match twice(alloc, at) {
            Ok(writes) => add(said, &mut command, &writes, 1),
            Err(fault) => said.fail(fault),
        }
    }
    counted(alloc, &Text::from_string(command), Items::new(alloc))
}

fn twice(alloc: Global, at: u64) -> Result<String, RowFault> {
    Ok(format!(in alloc; " && echo x > f{at} && echo y > ./f{at}")?)
}

/// Adds a text so many times.
fn add(said: &Words, command: &mut String, text: &str, count: u64) {
    for _ in 0..count {
        if command.push_str(text).is_err() {
            said.fail(RowFault::Memory);
        }
    }
}

/// So many replies with the first file, which has this content.
fn alike(alloc: Global, said: &Words, content: &str) -> Asks {
    let mut replies = Items::new(alloc);
    for _ in 0..said.number_at(0) {
        reply(alloc, said, &mut replies, (0, content));
    }
    replies
}

/// Adds the reply with the content of the file at a depth.
fn reply(alloc: Global, said: &Words, replies: &mut Asks, (depth, line): (u64, &str)) {
    match (file(alloc, depth), content(alloc, line.as_bytes())) {
        (Ok(name), Ok(content)) => said.list(
            replies,
            (name, Answer::Content(Stamped::new(content))),
        ),
        _ => said.fail(RowFault::Memory),
    }
}

/// The first file, or one that is numbered.
fn file(alloc: Global, depth: u64) -> Result<Text, RowFault> {
    match depth.checked_sub(1) {
        None => text(alloc, "a"),
        Some(number) => text(alloc, format!(in alloc; "{number}")?.as_str()),
    }
}
