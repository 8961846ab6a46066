//! What is shown of turns that ended.
ghost use Rattle.std.specs.Prelude.{◌≡◌, ◌++◌, IfOk, OnOk, string_bytes};
ghost use Rattle.tup_top.specs.Lines.{compared_line, last_line};
ghost use Rattle.tup_large.specs.Shown as specs;

use crate::turns::{BEGINNING, COMPARISON};
use std::alloc::{AllocError, Global};
use tup_history::End;
use tup_path::Text;
use tup_site::MemRefused;
use tup_top::Status;

/// The last line of each call but the beginning, and that of a turn that was refused.
pub(crate) fn lines(
    alloc: Global,
    ends: &[End],
    refused: Option<(usize, MemRefused)>,
) -> Result<Text, AllocError>
    ensures { IfOk result
        (λ text. text ≡ specs.life_lines ends.now refused) }
{
    let mut text = String::new(alloc);
    add_ends(&mut text, ends)?;
    add_refusal(&mut text, refused)?;
    Ok(Text::from_string(text))
}

/// The line of a status alone.
pub(crate) fn line_of(alloc: Global, status: &Status) -> Result<Text, AllocError>
    ensures { IfOk result (λ text. text ≡ last_line status.now) }
{
    Ok(Text::from_string(format!(in alloc; "{status}\n")?))
}

/// Adds what is shown of each turn.
fn add_ends(text: &mut String, ends: &[End]) -> Result<(), AllocError>
    ensures { OnOk result
        (string_bytes text.new ≡ string_bytes text.old ++ specs.ends_lines 0 ends.now) }
{
    for (at, end) in ends.iter().enumerate() {
        add_end(text, at, &end.status)?;
    }
    Ok(())
}

/// Adds what is shown of the turn at a place that ended so.
fn add_end(text: &mut String, at: usize, status: &Option<Status>) -> Result<(), AllocError>
    ensures { OnOk result
        (string_bytes text.new ≡ string_bytes text.old ++ specs.line_at at status.now) }
{
    match status {
        Some(status) => add_call(text, at, status),
        None => Ok(()),
    }
}

/// Adds what is shown of the call at a place that ended so.
fn add_call(text: &mut String, at: usize, status: &Status) -> Result<(), AllocError>
    ensures { OnOk result
        (string_bytes text.new ≡ string_bytes text.old ++ specs.call_line at status.now) }
{
    if at == BEGINNING {
        return Ok(());
    }
    if at == COMPARISON {
        return add_comparison(text, status);
    }
    writeln!(text, "{status}")
}

/// Adds the line of a comparison that ended so.
fn add_comparison(text: &mut String, status: &Status) -> Result<(), AllocError>
    ensures { OnOk result
        (string_bytes text.new ≡ string_bytes text.old ++ compared_line status.now) }
{
    match status {
        Status::Done { .. } => text.push_str("same\n"),
        other => writeln!(text, "{other}"),
    }
}

/// Adds the line of a turn that was refused, if one was.
fn add_refusal(text: &mut String, refused: Option<(usize, MemRefused)>) -> Result<(), AllocError>
    ensures { OnOk result
        (string_bytes text.new ≡ string_bytes text.old ++ specs.refusal_line refused) }
{
    match refused {
        Some((_, why)) => add_line(text, &refusal(why)),
        None => Ok(()),
    }
}

/// Adds the line of a status.
fn add_line(text: &mut String, status: &Status) -> Result<(), AllocError>
    ensures { OnOk result
        (string_bytes text.new ≡ string_bytes text.old ++ last_line status.now) }
{
    writeln!(text, "{status}")
}

/// The status of what the site in memory refused. But for want of memory it is that two contents
/// have one stamp, which is a failure of the site.
pub(crate) fn refusal(why: MemRefused) -> Status
    ensures { result ≡ specs.refusal why }
{
    match why {
        MemRefused::Memory => Status::Memory,
        _ => Status::SiteFault,
    }
}

/// Done, or the first status of turns that says something else, a refusal last.
pub(crate) fn answer(mut ends: Vec<End>, refused: Option<(usize, MemRefused)>) -> Status
    ensures { result ≡ specs.life_status ends.items refused }
{
    let mut answer = at_last(refused);
    while let Some(end) = ends.pop() {
        answer = of_end(end.status, answer);
    }
    answer
}

/// The status after the last turn that was carried out.
fn at_last(refused: Option<(usize, MemRefused)>) -> Status
    ensures { result ≡ specs.at_last refused }
{
    match refused {
        Some((_, why)) => refusal(why),
        None => Status::Done {
            read: 0,
            ran: 0,
            removed: 0,
        },
    }
}

/// The status of a turn that says something else than that all was done, or what comes after it.
fn of_end(status: Option<Status>, later: Status) -> Status
    ensures { result ≡ specs.of_end status later }
{
    match status {
        None | Some(Status::Done { .. }) => later,
        Some(other) => other,
    }
}
