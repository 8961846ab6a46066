//! The calls of `log.rows`.
use std::alloc::Global;
use std::fs::Files;
use std::io;
use tup_proc::{LogLine, read_log, write_log};
use tup_rows::{Answers, RowFault, Words, try_file};

pub(crate) fn try_rows<R: Files + Print>(rt: &R, alloc: Global) -> io::Result<()> {
    try_file(rt, alloc, "log.rows", &mut LogRows)
}

/// Knows the calls of tup_proc on logs.
#[derive(Drop)]
struct LogRows;

impl Answers for LogRows {
    /// Makes a call of tup_proc.
    fn answer(&mut self, alloc: Global, call: &str, said: &Words) -> Result<Words, RowFault> {
        Ok(match call {
            "read" => read(alloc, said),
            "again" => again(alloc, said),
            _ => Words::none(alloc, RowFault::NoSuchCall),
        })
    }
}

/// The lines of a log, a word for each.
fn read(alloc: Global, said: &Words) -> Words {
    match read_log(alloc, said.word_at(0)) {
        Ok(lines) => shown(alloc, lines.as_slice()),
        Err(fault) => Words::refusal(alloc, &fault),
    }
}

/// A log that is read and written.
fn again(alloc: Global, said: &Words) -> Words {
    match read_log(alloc, said.word_at(0)) {
        Ok(lines) => written(alloc, lines.as_slice()),
        Err(fault) => Words::refusal(alloc, &fault),
    }
}

/// The log of some lines.
fn written(alloc: Global, lines: &[LogLine]) -> Words {
    match write_log(alloc, lines) {
        Ok(bytes) => Words::word(alloc, bytes.as_slice()),
        Err(fault) => Words::refusal(alloc, &fault),
    }
}

/// Some lines, a word for each.
fn shown(alloc: Global, lines: &[LogLine]) -> Words {
    let mut words = Words::new(alloc);
    for line in lines {
        match shown_line(alloc, line) {
            Ok(text) => words.put(alloc, text.as_bytes()),
            Err(_) => words.fail(RowFault::Memory),
        }
    }
    words
}

/// A line as rows spell it.
fn shown_line(alloc: Global, line: &LogLine) -> Result<String, RowFault> {
    Ok(match line {
        LogLine::Read { stamp, text } => {
            let first = stamp.0[0];
            format!(in alloc; "read {text} {first}")?
        }
        LogLine::Absent { text } => format!(in alloc; "absent {text}")?,
        LogLine::Wrote { file, text } => format!(in alloc; "wrote {text} {file}")?,
        LogLine::End { status } => format!(in alloc; "end {status}")?,
    })
}
