//! What is printed of the rows of a file.
use crate::answers::Answers;
use crate::fault::RowFault;
use crate::row::Row;
use crate::words::Words;
use std::alloc::Global;

/// Answers the rows of a file, and gives the lines to print: one for each row that differs or can't be
/// answered, and how many do at the end, `NAME: 0 differ`. Of a file without a row that last line is `NAME: no rows`.
pub fn report<A: Answers>(
    alloc: Global,
    name: &str,
    file: &str,
    answers: &mut A,
) -> Result<String, RowFault> {
    let mut lines = Lines::new(alloc);
    for line in file.lines() {
        lines.take(alloc, name, tried(alloc, line, answers)?)?;
    }
    lines.ended(alloc, name)
}

/// What is to be printed, and what was found.
#[derive(Drop)]
struct Lines {
    text: String,
    /// The number of the last line.
    number: u64,
    has_rows: bool,
    differ: u64,
}

impl Lines {
    fn new(alloc: Global) -> Lines {
        Lines {
            text: String::new(alloc),
            number: 0,
            has_rows: false,
            differ: 0,
        }
    }

    /// Takes in what came of the next line.
    fn take(&mut self, alloc: Global, name: &str, outcome: Outcome) -> Result<(), RowFault> {
        self.number = self.number.saturating_add(1);
        match outcome {
            Outcome::NoRow => Ok(()),
            Outcome::Same => {
                self.has_rows = true;
                Ok(())
            }
            Outcome::Differs(complaint) => self.complain(alloc, name, &complaint),
        }
    }

    fn complain(&mut self, alloc: Global, name: &str, complaint: &str) -> Result<(), RowFault> {
        self.has_rows = true;
        self.differ = self.differ.saturating_add(1);
        let number = self.number;
        self.add(format!(in alloc; "{name}:{number}: {complaint}\n")?)
    }

    /// All lines, with how many rows differ behind them.
    fn ended(mut self, alloc: Global, name: &str) -> Result<String, RowFault> {
        let (has_rows, differ) = (self.has_rows, self.differ);
        self.add(last_line(alloc, name, has_rows, differ)?)?;
        Ok(self.text)
    }

    fn add(&mut self, line: String) -> Result<(), RowFault> {
        self.text.push_str(&line)?;
        Ok(())
    }
}

/// How many rows of a file differ, or that it has none.
fn last_line(alloc: Global, name: &str, has_rows: bool, differ: u64) -> Result<String, RowFault> {
    if has_rows {
        Ok(format!(in alloc; "{name}: {differ} differ\n")?)
    } else {
        Ok(format!(in alloc; "{name}: no rows\n")?)
    }
}

/// What came of a line.
#[derive(Drop)]
enum Outcome {
    NoRow,
    Same,
    /// With what is to be said of it.
    Differs(String),
}

/// Answers a line. Want of memory ends the report; every other refusal is a row that differs.
fn tried<A: Answers>(alloc: Global, line: &str, answers: &mut A) -> Result<Outcome, RowFault> {
    match Row::read(alloc, line) {
        Ok(None) => Ok(Outcome::NoRow),
        Ok(Some(row)) => answered(alloc, &row, answers),
        Err(fault) => complaint(alloc, fault),
    }
}

/// Answers a row.
fn answered<A: Answers>(alloc: Global, row: &Row, answers: &mut A) -> Result<Outcome, RowFault> {
    match answers.answer(alloc, row.call.as_str(), &row.arguments) {
        Ok(found) => compared(alloc, row, &found),
        Err(fault) => complaint(alloc, fault),
    }
}

/// A refusal as a row that differs, want of memory aside.
fn complaint(alloc: Global, fault: RowFault) -> Result<Outcome, RowFault> {
    match fault {
        RowFault::Memory => Err(RowFault::Memory),
        _ => Ok(Outcome::Differs(format!(in alloc; "{fault}")?)),
    }
}

/// Whether a row wants what was found.
fn compared(alloc: Global, row: &Row, found: &Words) -> Result<Outcome, RowFault> {
    match fault(row, found) {
        Some(fault) => complaint(alloc, fault),
        None if row.wanted.same(found) => Ok(Outcome::Same),
        None => Ok(Outcome::Differs(difference(alloc, row, found)?)),
    }
}

/// What was noted of the row's words, or else of the answer's, or else that an argument is too many.
fn fault(row: &Row, found: &Words) -> Option<RowFault> {
    let noted = row
        .arguments
        .fault()
        .or(row.wanted.fault())
        .or(found.fault());
    if noted.is_none() && !row.arguments.are_taken() {
        return Some(RowFault::TooMany);
    }
    noted
}

/// What a row wants and what was found, as words of a row.
fn difference(alloc: Global, row: &Row, found: &Words) -> Result<String, RowFault> {
    let call = row.call.as_str();
    let mut text = format!(in alloc; "{call} wants")?;
    show(&mut text, alloc, &row.wanted)?;
    text.push_str(", found")?;
    show(&mut text, alloc, found)?;
    Ok(text)
}

fn show(text: &mut String, alloc: Global, words: &Words) -> Result<(), RowFault> {
    for word in words.as_slice() {
        show_word(text, alloc, word)?;
    }
    Ok(())
}

/// A word in quotes, with a blank before it.
fn show_word(text: &mut String, alloc: Global, word: &[u8]) -> Result<(), RowFault> {
    text.push_str(" \"")?;
    for byte in word {
        show_byte(text, alloc, *byte)?;
    }
    text.push('"')?;
    Ok(())
}

/// A byte as it stands in quotes.
fn show_byte(text: &mut String, alloc: Global, byte: u8) -> Result<(), RowFault> {
    match byte {
        b'\n' => show_str(text, "\\n"),
        b'\t' => show_str(text, "\\t"),
        b'"' => show_str(text, "\\\""),
        b'\\' => show_str(text, "\\\\"),
        0x20..=0x7e => show_str(text, char::from(byte).encode_utf8(&mut [0; 4])),
        _ => show_str(text, format!(in alloc; "\\x{byte:02x}")?.as_str()),
    }
}

fn show_str(text: &mut String, shown: &str) -> Result<(), RowFault> {
    text.push_str(shown)?;
    Ok(())
}
