//! The rows of a file.
use crate::answers::Answers;
use crate::reporting::report;
use std::alloc::Global;
use std::fs::{File, Files};
use std::io;
use std::io::Read;

/// As `try_file`, for answers that keep something from row to row.
pub fn try_file_by<R: Files + Print, A: Answers + Drop>(
    rt: &R,
    alloc: Global,
    name: &str,
    mut answers: A,
) -> io::Result<()> {
    try_file(rt, alloc, name, &mut answers)
}

/// Answers the rows of a file in the working folder, and prints the report.
pub fn try_file<R: Files + Print, A: Answers>(
    rt: &R,
    alloc: Global,
    name: &str,
    answers: &mut A,
) -> io::Result<()> {
    let text = read(rt, alloc, name)?;
    match report(alloc, name, &text, answers) {
        Ok(lines) => print!(rt; "{lines}"),
        Err(fault) => println!(rt; "{name}: {fault}"),
    }
}

fn read<R: Files>(rt: &R, alloc: Global, name: &str) -> io::Result<String> {
    let mut text = String::new(alloc);
    File::open(rt, name)?.read_to_string(&mut text)?;
    Ok(text)
}
