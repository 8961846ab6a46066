//! Answers the rows of `data/` on the whole program, on histories of its calls with edits and crashes between, and on updates
//! that are stopped, fail or find a damaged store, over a project in memory.
#![tactic(auto)]

mod cost;
mod damaged;
mod disturbed;
mod failing;
mod found;
mod length;
mod lives;
mod many;
mod session;
mod table;
mod tables;
mod tellers;
mod telling;
mod trial;
mod turns;

use found::Found;
use lives::Lives;
use session::Session;
use std::alloc::Global;
use std::fs::{File, Files};
use std::io;
use std::io::Read;
use std::sync::Wait;
use std::thread::Threads;
use tables::Tables;
use tup_rows::{Row, RowFault, report};

/// Tries the rows.
fn main(rt: HostRuntime) -> io::Result<()> {
    try_rows(&rt, &rt, rt.alloc(), "init.rows")?;
    try_rows(&rt, &rt, rt.alloc(), "tup.rows")?;
    try_rows(&rt, &rt, rt.alloc(), "folders.rows")?;
    try_rows(&rt, &rt, rt.alloc(), "skip.rows")?;
    try_rows(&rt, &rt, rt.alloc(), "compact.rows")?;
    try_rows(&rt, &rt, rt.alloc(), "limits.rows")?;
    try_rows(&rt, &rt, rt.alloc(), "verify.rows")?;
    try_rows(&rt, &rt, rt.alloc(), "todo.rows")?;
    try_rows(&rt, &rt, rt.alloc(), "explain.rows")?;
    try_rows(&rt, &rt, rt.alloc(), "told.rows")?;
    try_lives(&rt, &rt, rt.alloc(), "history.rows")?;
    try_tables(&rt, &rt, rt.alloc(), "tables.rows")
}

/// Tries the rows of a file, from a folder without a project on.
fn try_rows<R: Files + Print, W: Threads + Wait + Sync>(
    rt: &R,
    crews: &W,
    alloc: Global,
    name: &str,
) -> io::Result<()> {
    let text = read(rt, alloc, name)?;
    told(rt, alloc, name, &text, answers(crews, alloc, &text))
}

/// Tries the rows of a file on histories.
fn try_lives<R: Files + Print, W: Threads + Wait + Sync>(
    rt: &R,
    crews: &W,
    alloc: Global,
    name: &str,
) -> io::Result<()> {
    let text = read(rt, alloc, name)?;
    told(rt, alloc, name, &text, lived(crews, alloc, &text))
}

/// Tries the rows of a file on updates that are stopped, fail or find a damaged store.
fn try_tables<R: Files + Print, W: Threads + Wait + Sync>(
    rt: &R,
    crews: &W,
    alloc: Global,
    name: &str,
) -> io::Result<()> {
    let text = read(rt, alloc, name)?;
    told(rt, alloc, name, &text, tabled(crews, alloc, &text))
}

/// The text of a file in the working folder.
fn read<R: Files>(rt: &R, alloc: Global, name: &str) -> io::Result<String> {
    let mut text = String::new(alloc);
    File::open(rt, name)?.read_to_string(&mut text)?;
    Ok(text)
}

/// The answers of the rows of a text, from a folder without a project on.
fn answers<W: Threads + Wait + Sync>(
    crews: &W,
    alloc: Global,
    text: &str,
) -> Result<Found, RowFault> {
    let mut session = Session::new(crews, alloc)?;
    let mut found = Vec::new(alloc);
    for line in text.lines() {
        if let Ok(Some(row)) = Row::read(alloc, line) {
            found.push(session.answer(alloc, row.call.as_str(), &row.arguments))?;
        }
    }
    Ok(Found::new(found))
}

/// The answers of the rows of a text on histories.
fn lived<W: Threads + Wait + Sync>(
    crews: &W,
    alloc: Global,
    text: &str,
) -> Result<Found, RowFault> {
    let mut lives = Lives::new(crews, alloc);
    let mut found = Vec::new(alloc);
    for line in text.lines() {
        if let Ok(Some(row)) = Row::read(alloc, line) {
            found.push(lives.answer(alloc, row.call.as_str(), &row.arguments))?;
        }
    }
    Ok(Found::new(found))
}

/// The answers of the rows of a text on tables.
fn tabled<W: Threads + Wait + Sync>(
    crews: &W,
    alloc: Global,
    text: &str,
) -> Result<Found, RowFault> {
    let mut tables = Tables::new(crews, alloc);
    let mut found = Vec::new(alloc);
    for line in text.lines() {
        if let Ok(Some(row)) = Row::read(alloc, line) {
            found.push(tables.answer(alloc, row.call.as_str(), &row.arguments))?;
        }
    }
    Ok(Found::new(found))
}

/// Compares the rows of a file with their answers, and prints the report.
fn told<R: Print>(
    rt: &R,
    alloc: Global,
    name: &str,
    text: &str,
    found: Result<Found, RowFault>,
) -> io::Result<()> {
    match reported(alloc, name, text, found) {
        Ok(lines) => print!(rt; "{lines}"),
        Err(fault) => println!(rt; "{name}: {fault}"),
    }
}

/// The lines to print of the rows of a file.
fn reported(
    alloc: Global,
    name: &str,
    text: &str,
    found: Result<Found, RowFault>,
) -> Result<String, RowFault> {
    let mut found = found?;
    report(alloc, name, text, &mut found)
}
