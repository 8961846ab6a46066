//! Orders that a board obeys, and what is looked at then.
use crate::clean::files_in;
use crate::desk::Desk;
use crate::opening::board_of;
use crate::order::Order;
use crate::project::Given;
use crate::quiet::Quiet;
use crate::shown::{show_cause, show_event};
use std::alloc::Global;
use tup_board::BoardParts;
use tup_core::CoreEvent;
use tup_graph::Nodes;
use tup_path::{Bytes, Path};
use tup_rows::{RowFault, Words};
use tup_site::{MemSite, Site};

/// What a call shows of the board of a row, once it has obeyed the orders; `none` where no board may be made.
pub(crate) fn script(
    alloc: Global,
    given: &Given,
    call: &str,
    said: &Words,
) -> Result<Words, RowFault> {
    match board_of(alloc, given, said, calls_of(said)) {
        Ok(desk) => played(alloc, desk, call, said),
        Err(RowFault::OtherKind) => Ok(none(alloc, said)),
        Err(fault) => Err(fault),
    }
}

/// The answer of a row, which isn't looked at any further.
fn none(alloc: Global, said: &Words) -> Words {
    said.as_slice();
    Words::word(alloc, b"none")
}

/// How many calls the site of a row lets pass; all of them where that is `-`.
fn calls_of(said: &Words) -> u64 {
    if said.str_at(2) == "-" {
        u64::MAX
    } else {
        said.number_at(2)
    }
}

/// The same of a board at its opening.
fn played(alloc: Global, mut desk: Desk, call: &str, said: &Words) -> Result<Words, RowFault> {
    match obey_all(alloc, &mut desk, said) {
        Ok(answers) => shown(alloc, call, desk.into_parts(), answers),
        Err(fault) => {
            drop(desk);
            Err(fault)
        }
    }
}

/// A board obeys the orders of a row, each behind a `;`.
fn obey_all(alloc: Global, desk: &mut Desk, said: &Words) -> Result<Words, RowFault> {
    let mut answers = Words::new(alloc);
    for at in 0..said.len() {
        if said.word_at(at) == b";".as_slice() {
            obey(alloc, desk, &Order::behind(said, at), &mut answers)?;
        }
    }
    Ok(answers)
}

/// It obeys an order; the answer is `no` where the seat can't.
fn obey(
    alloc: Global,
    desk: &mut Desk,
    order: &Order<'_>,
    answers: &mut Words,
) -> Result<(), RowFault> {
    match desk.obey(alloc, order) {
        Ok(words) => add_all(alloc, answers, words.as_slice()),
        Err(RowFault::OtherKind) => answers.put(alloc, b"no"),
        Err(fault) => return Err(fault),
    }
    Ok(())
}

fn add_all(alloc: Global, words: &mut Words, more: &[Vec<u8>]) {
    for word in more {
        words.put(alloc, word);
    }
}

/// What a call shows of the parts of a board.
fn shown(
    alloc: Global,
    call: &str,
    mut parts: BoardParts<Quiet>,
    answers: Words,
) -> Result<Words, RowFault> {
    let words = looked_at(alloc, call, &mut parts, answers);
    drop(parts);
    words
}

fn looked_at(
    alloc: Global,
    call: &str,
    parts: &mut BoardParts<Quiet>,
    answers: Words,
) -> Result<Words, RowFault> {
    match call {
        "run" => Ok(answers),
        "events" => Ok(events(alloc, parts.history.as_slice())),
        "flags" => Ok(flags(alloc, parts)),
        "files" => files(alloc, parts.site.beneath()),
        _ => Err(RowFault::NoSuchCall),
    }
}

/// All that happened.
fn events(alloc: Global, history: &[CoreEvent]) -> Words {
    let mut words = Words::new(alloc);
    for event in history {
        show_event(alloc, &mut words, event);
    }
    words
}

fn flags(alloc: Global, parts: &BoardParts<Quiet>) -> Words {
    let mut words = Words::new(alloc);
    add_state(alloc, &mut words, parts);
    words
}

/// Whether the graph is `fresh` or `lost`, the first cause of a stop or `-`, and the flagged rules.
pub(crate) fn add_state<S: Site>(alloc: Global, words: &mut Words, parts: &BoardParts<S>) {
    words.put(alloc, freshness(parts.graph.fresh()));
    match parts.cause {
        Some(cause) => show_cause(alloc, words, cause),
        None => words.put(alloc, b"-"),
    }
    add_flags(alloc, words, parts.graph.nodes());
}

fn freshness(is_fresh: bool) -> &'static [u8] {
    if is_fresh { b"fresh" } else { b"lost" }
}

fn add_flags(alloc: Global, words: &mut Words, nodes: &Nodes) {
    for (number, _) in nodes.flags() {
        words.show(alloc, number);
    }
}

/// The files of a site, each with its content.
fn files(alloc: Global, site: &mut MemSite) -> Result<Words, RowFault> {
    let files = files_in(alloc, site)?;
    Ok(shown_files(alloc, files.as_slice()))
}

fn shown_files(alloc: Global, files: &[(Path, Bytes)]) -> Words {
    let mut words = Words::new(alloc);
    for (path, content) in files {
        words.show(alloc, path);
        words.put(alloc, content.as_slice());
    }
    words
}
