//! The command, done in its folder.
use crate::project::Project;
use std::alloc::Global;
use std::fs::File;
use std::rt::Files;
use tup_child::{Failure, Tree, Words, path_of};
use tup_mini::Mini;
use tup_path::{Bytes, Items, Text};
use tup_proc::LogLine;
use tup_runner::{Ended, Runner};

/// Does a command and leaves its log.
pub(crate) fn run<R: Files<File = File> + Clone + Drop>(
    rt: &R,
    alloc: Global,
    words: &Words,
) -> Result<(), Failure> {
    let (root, stage) = (words.root.clone()?, words.stage.clone()?);
    perform(alloc, &Tree::read(rt.clone()?, alloc, root, stage)?, words)
}

/// Does a command over the files of a project.
fn perform<R: Files<File = File> + Clone + Drop>(
    alloc: Global,
    tree: &Tree<R>,
    words: &Words,
) -> Result<(), Failure> {
    let dir = path_of(alloc, words.dir.as_str())?;
    let mut project = Project {
        tree,
        dir: &dir,
        log: Items::new(alloc),
        failed: None,
    };
    match Mini::new(alloc).run(alloc, &dir, &words.text, &mut project) {
        Ok(ended) => leave(tree, project.log, &ended),
        Err(_) => Err(Failure::Because("the files can't be read")),
    }
}

/// Leaves what was written, and the log with its end.
fn leave<R: Files<File = File> + Clone + Drop>(
    tree: &Tree<R>,
    mut log: Items<LogLine>,
    ended: &Ended,
) -> Result<(), Failure> {
    for (number, (text, content)) in ended.writes.as_slice().iter().enumerate() {
        write(tree, &mut log, number, text, content)?;
    }
    log.push(LogLine::End {
        status: ended.status,
    })?;
    tree.write_log(log.as_slice())
}

/// Leaves one write, and adds its line to the log.
fn write<R: Files<File = File> + Clone + Drop>(
    tree: &Tree<R>,
    log: &mut Items<LogLine>,
    number: usize,
    text: &Text,
    content: &Bytes,
) -> Result<(), Failure> {
    let Ok(file) = u32::try_from(number) else {
        return Err(Failure::Because("too many files"));
    };
    let text = text.clone()?;
    log.push(LogLine::Wrote { file, text })?;
    let name = format!(in tree.alloc; "w{file}")?;
    tree.write_staged(name.as_str(), content.as_slice())
}
